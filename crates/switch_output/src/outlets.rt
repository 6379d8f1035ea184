use spec_input::mirrors::Mirror;

/// What is written of a run.
#[derive(Clone, Copy)]
pub struct Outlets<'a> {
    /// The begin of the names of its files.
    pub out: &'a str,
    /// Whether its flows are written, by NetFlow version 5.
    pub netflow: bool,
    /// Its mirrors, each of which has a file of copies.
    pub mirrors: &'a [Mirror],
}
