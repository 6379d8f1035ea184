ghost use Rattle.std.specs.Prelude.{◌≡◌, ℕ, List, length};
ghost use Rattle.spec_case.specs.Run.{Run};
ghost use Rattle.spec_netflow.specs.Flows.{Decided, packets, flows_of, packet_sum, octet_sum, of_class};

/// The packets of all flows of a run are as many as its counted packets, and those of the flows of a class are as many,
/// and have as many octets, as the packets of that class. The law is of the definitions alone, so there is nothing to do.
pub fn every_packet_is_counted_once()
    ensures packets { (run : Run) (decided : Decided)
        → packet_sum (flows_of (packets run decided)) ≡ length (packets run decided) }
    ensures class_packets { (run : Run) (decided : Decided) (class : List ℕ)
        → packet_sum (of_class class (flows_of (packets run decided))) ≡ length (of_class class (packets run decided)) }
    ensures class_octets { (run : Run) (decided : Decided) (class : List ℕ)
        → octet_sum (of_class class (flows_of (packets run decided))) ≡ octet_sum (of_class class (packets run decided)) }
{}
