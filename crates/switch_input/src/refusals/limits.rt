//! The limits of a run, as `spec_run` has them.
ghost use Rattle.std.specs.Prelude.{◌≡◌};
ghost use Rattle.spec_run.specs.Limits.{limit_of, quantity_name};

use edit_script::MOST_CHANGES;
use spec_run::Quantity;

/// The most bytes of the file of edits: 32 MiB.
pub const MOST_EDITS_BYTES: usize = 33_554_432;

/// The most bytes of the steps file: 4 MiB.
pub const MOST_STEPS_BYTES: usize = 4_194_304;

/// The most bytes of the mirrors file: 64 KiB.
pub const MOST_MIRRORS_BYTES: usize = 65_536;

/// The most bytes of a line of the file of edits, the steps file or the mirrors file, without its line feed.
const MOST_LINE_BYTES: usize = 4_096;

/// The most edits of their file.
const MOST_EDITS: usize = 32_768;

/// The most sync lines of that file.
const MOST_SYNCS: usize = 63;

/// The most actions of a flow.
const MOST_ACTIONS: usize = 64;

/// The most steps of their file.
const MOST_STEPS: usize = 131_072;

/// The most mirrors of their file.
const MOST_MIRRORS: usize = 16;

/// The most bytes of all traces: 256 MiB.
pub const MOST_TRACE_BYTES: usize = 268_435_456;

/// The most frames of all traces.
pub const MOST_FRAMES: usize = 131_072;

/// The greatest number of a quantity.
pub(crate) fn limit_of(quantity: Quantity) -> usize
    ensures { result ≡ limit_of quantity }
{
    match quantity {
        Quantity::EditsBytes => MOST_EDITS_BYTES,
        Quantity::StepsBytes => MOST_STEPS_BYTES,
        Quantity::MirrorsBytes => MOST_MIRRORS_BYTES,
        Quantity::Line => MOST_LINE_BYTES,
        Quantity::Edits => MOST_EDITS,
        Quantity::Syncs => MOST_SYNCS,
        Quantity::Actions => MOST_ACTIONS,
        Quantity::Steps => MOST_STEPS,
        Quantity::Mirrors => MOST_MIRRORS,
        Quantity::Changes => MOST_CHANGES as usize,
        Quantity::TraceBytes => MOST_TRACE_BYTES,
        Quantity::Frames => MOST_FRAMES,
    }
}

/// The name under which a quantity is told.
pub(crate) fn quantity_name(quantity: Quantity) -> &'static str
    ensures { result.now ≡ quantity_name quantity }
{
    match quantity {
        Quantity::EditsBytes => "edits-bytes",
        Quantity::StepsBytes => "steps-bytes",
        Quantity::MirrorsBytes => "mirrors-bytes",
        Quantity::Line => "line",
        Quantity::Edits => "edits",
        Quantity::Syncs => "syncs",
        Quantity::Actions => "actions",
        Quantity::Steps => "steps",
        Quantity::Mirrors => "mirrors",
        Quantity::Changes => "changes",
        Quantity::TraceBytes => "trace-bytes",
        Quantity::Frames => "frames",
    }
}
