/// A step of a given schedule: what is done next, at which port.
///
/// Places and entries are counted from 1.
#[derive(Clone, Copy, PartialEq, Eq)]
pub enum RunStep {
    /// Publish the next bundle of edits.
    Edit,
    /// Look up the next frame of the port.
    Rx { port: u16 },
    /// Translate a pending frame under the newest version, and keep the translation.
    Snap { port: u16, place: u32 },
    /// Decide a pending frame by its kept translation.
    Settle { port: u16, place: u32 },
    /// Begin a sweep of the newest version.
    Sweep { port: u16 },
    /// Translate a listed entry under the newest version, and keep the translation.
    Check { port: u16, entry: u32 },
    /// Revalidate a listed entry by its kept translation.
    Put { port: u16, entry: u32 },
    /// End the sweep.
    Swept { port: u16 },
    /// Open the next block.
    Open { port: u16 },
}
