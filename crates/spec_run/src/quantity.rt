/// A quantity that has a limit.
#[derive(Clone, Copy)]
pub enum Quantity {
    /// The bytes of the file of edits.
    EditsBytes,
    /// The bytes of the steps file.
    StepsBytes,
    /// The bytes of the mirrors file.
    MirrorsBytes,
    /// The bytes of a line of the file of edits, the steps file or the mirrors file, without its line feed.
    Line,
    /// The edits of the file.
    Edits,
    /// The sync lines of the file.
    Syncs,
    /// The actions of a flow.
    Actions,
    /// The steps of the steps file.
    Steps,
    /// The mirrors of the mirrors file.
    Mirrors,
    /// The rules that all edits together add, give actions to and remove.
    Changes,
    /// The bytes of all traces.
    TraceBytes,
    /// The frames of all traces.
    Frames,
}
