use std::marker::Brand;

/// Names one run: all values of one name have the same ports, edits, bundles, sync points and traces.
///
/// So a value of the name says which frame of which port it speaks of without holding the run. A program knows what
/// the run is only once it has read it. The function that has read it calls one function with the name `Brand`, and
/// picks there what the name means. Since a name's meaning is settled by that one call, no value of the name outlives
/// it, and two runs are never mixed up.
pub trait Case {
    ghost use Rattle.spec_case.specs.Run.{Run};

    ghost run: { Run };
}

impl Case for Brand {
    ghost use Rattle.std.specs.Prelude.{[]};

    ghost run = { record { ports = []; edits = []; bundles = []; syncs = []; traces = []; flow_limit = 0; steps = [] } };
}
