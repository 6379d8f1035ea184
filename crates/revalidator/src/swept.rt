use table_publish::SpareLists;

/// How a sweep ended.
#[derive(Clone, Copy, PartialEq, Eq)]
pub enum Swept {
    /// It was ended. It had begun at this version.
    Done { version: u32 },
    /// A sweep was running, which had begun at this version.
    Busy { floor: u32 },
    /// The board's block allows no version newer than this one, and the seer saw a newer one.
    Beyond { hi: u32 },
    /// Someone else had ended it.
    Other,
    /// So many megaflows were still to be put, at least one.
    Left { n: u32 },
}

/// What a board answered to the beginning of a sweep.
#[derive(Clone, Copy)]
pub enum Begun {
    /// The sweep runs.
    Done,
    /// A sweep runs already, which began at this version.
    Busy { floor: u32 },
    /// The board's block allows no version newer than this one.
    Ahead { hi: u32 },
}

/// What a board answered to the put of a megaflow.
#[derive(Drop)]
pub enum Putting {
    /// It was put. These lists aren't needed any more.
    Done { lists: SpareLists },
    /// The sweep doesn't list it, it is of another key, or the translation is older than the sweep.
    PassedOver,
    /// The board's block allows no version newer than this one.
    Ahead { hi: u32 },
}
