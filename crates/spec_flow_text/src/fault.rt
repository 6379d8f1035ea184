ghost use Rattle.std.specs.Prelude.{◌≡◌};
ghost use Rattle.spec_flow_text.specs.declared.fault.TextFault.TheVariants.{OutOfMemory};

use std::alloc::{AllocError, AllocFailed};

/// What is wrong with a line of text. Columns are counted in bytes from 1.
#[derive(Clone, Copy, PartialEq, Eq)]
pub enum TextFault {
    /// A value is missing or stands where none belongs, an action list is missing or stands where none belongs, a
    /// bracket doesn't close, or a byte isn't ASCII.
    Syntax { col: u32 },
    /// No name of the flow text.
    UnknownName { col: u32 },
    /// A name or a form of ovs-fields(7) and ovs-actions(7) that this profile leaves out.
    Unsupported { col: u32 },
    /// A value that isn't in its form or range.
    BadValue { col: u32 },
    /// An item states what an earlier one states.
    Repeated { col: u32 },
    /// An action list has more actions than a flow may have.
    TooManyActions,
    OutOfMemory,
}

impl From<AllocError> for TextFault {
    ghost from_gives = { λ _ fault. fault ≡ OutOfMemory };

    fn from(_: AllocError) -> TextFault {
        TextFault::OutOfMemory
    }
}

impl<T: Drop> From<AllocFailed<T>> for TextFault {
    ghost from_gives = { λ _ fault. fault ≡ OutOfMemory };

    fn from(_: AllocFailed<T>) -> TextFault {
        TextFault::OutOfMemory
    }
}
