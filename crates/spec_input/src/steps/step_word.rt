/// The first word of a step.
#[derive(Clone, Copy)]
pub enum StepWord {
    Edit,
    Rx,
    Snap,
    Settle,
    Sweep,
    Check,
    Put,
    Swept,
    Open,
}
