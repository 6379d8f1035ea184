ghost use Rattle.std.specs.Prelude.{ℕ, List};
ghost use Rattle.spec_case.specs.Run.{Run};
ghost use Rattle.spec_netflow.specs.Flows.{Decided};
ghost use Rattle.output_laws.specs.Classes.{TellTimes};
ghost use Rattle.output_laws.specs.Laws.{FlowsAddUp, OfParts};

use netflow_laws::every_packet_is_counted_once;

/// The flows of a class have as many packets and octets as those of the parts together, and its packets come in at
/// the times at which they do in the parts, one after the other. In any run the first flow of a class begins with the
/// first of its packets, and the last one ends with the last.
pub fn flows_of_parts_add_up()
    ensures sums { OfParts (λ run journals cut. (class : List ℕ)
        → FlowsAddUp run journals cut class) }
    ensures times { (run : Run) (decided : Decided) (class : List ℕ) → TellTimes run decided class }
{
    every_packet_is_counted_once();
}
