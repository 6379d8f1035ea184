ghost use Rattle.std.specs.Prelude.{◌≡◌, ◌^◌, ◌≤◌, List, length, Ok};
ghost use Rattle.spec_case.specs.Run.{Run};
ghost use Rattle.spec_netflow.specs.declared.flow_record.FlowRecord.{FlowRecord};
ghost use Rattle.spec_netflow.specs.declared.export_time.ExportTime.{ExportTime};
ghost use Rattle.spec_netflow.specs.Flows.{Decided, flows};
ghost use Rattle.spec_netflow.specs.Datagrams.{datagrams, netflow_bytes, flows_in};
ghost use Rattle.netflow_laws.specs.Widths.{AreWithin, AreOfWidths};

/// Reading the datagrams of records gives them back, whenever they were exported, if each number fits into its field.
/// More than 2^32 records have sequence numbers that begin anew, which no reading takes. The flows of a run do fit,
/// where its frames are bytes, its ports and outputs are of 16 bits, and it has fewer than 2^32 frames; so they are read
/// back from its export. The law is of the definitions alone, so there is nothing to do.
pub fn flows_are_read_back()
    ensures records { (now : ExportTime) (records : List FlowRecord)
        → AreWithin records → length records ≤ 2 ^ 32 → flows_in (datagrams now records) ≡ Ok records }
    ensures within { (run : Run) (decided : Decided) → AreOfWidths run decided → AreWithin (flows run decided) }
    ensures run { (run : Run) (decided : Decided)
        → AreOfWidths run decided → flows_in (netflow_bytes run decided) ≡ Ok (flows run decided) }
{}
