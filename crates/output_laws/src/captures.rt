//! What reading capture files (pcap-savefile(5)) and writing them have to do with one another. Nothing is built on this law.
ghost use Rattle.output_laws.specs.RoundTrip.{WrittenIsRead};

/// Reading the file of frames gives them back, where their times are in whole units of the file with seconds in 32 bits,
/// and none has more than 262,144 bytes. The law is of the two definitions alone, so there is nothing to do.
pub fn written_is_read()
    ensures { WrittenIsRead }
{}
