ghost use Rattle.std.specs.Prelude.{◌≡◌, List, Ok};
ghost use Rattle.spec_case.specs.Run.{Run};
ghost use Rattle.spec_board.specs.Texts.{Journal};
ghost use Rattle.spec_netflow.specs.Flows.{flows};
ghost use Rattle.spec_netflow.specs.Datagrams.{netflow_bytes, flows_in};
ghost use Rattle.spec_run.specs.Journals.{AreWhole, actions_for};
ghost use Rattle.netflow_laws.specs.Widths.{AreOfWidths};
ghost use Rattle.output_laws.specs.Widths.{HasWidths};

use netflow_laws::flows_are_read_back;

/// The numbers of what whole journals make of a run have room in the export of its flows, so that reading the export gives
/// these flows, in their order.
pub fn exports_of_runs_read_back()
    ensures widths { (run : Run) (journals : List Journal) → HasWidths run → AreWhole run journals
        → AreOfWidths run (actions_for run journals) }
    ensures back { (run : Run) (journals : List Journal) → HasWidths run → AreWhole run journals
        → flows_in (netflow_bytes run (actions_for run journals)) ≡ Ok (flows run (actions_for run journals)) }
{
    flows_are_read_back();
}
