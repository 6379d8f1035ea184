//! Translations that are kept.
ghost use Rattle.std.specs.Prelude.{◌≡◌, ℕ, nat_eq, if◌then◌else◌, Some, None, OnOk, OnErr};
ghost use Rattle.std.specs.HashMap.{get};

use run_case::Case;
use run_xlate::Xlated;
use std::alloc::AllocError;
use std::collections::HashMap;

/// Translations that are kept, at most one for each number, which is that of a place or of an entry.
pub(crate) type KeptXlates<C> = HashMap<u32, Xlated<C>>;

/// The translation that is kept for a number, which is kept no more. It takes no memory.
pub(crate) fn give_up<C: Case>(kept: &mut KeptXlates<C>, number: u32) -> Option<Xlated<C>>
    ensures found { result ≡ get nat_eq kept.old number }
    ensures rest { (n : ℕ)
        → get nat_eq kept.new n ≡ (if nat_eq number n then None else get nat_eq kept.old n) }
{
    kept.remove(&number)
}

/// Keeps a translation for a number, in place of the one that was kept for it.
///
/// The only error is out of memory, and then none was kept for the number, and none is.
pub(crate) fn keep<C: Case>(
    kept: &mut KeptXlates<C>,
    number: u32,
    xlate: Xlated<C>,
) -> Result<(), AllocError>
    ensures kept { OnOk result ((n : ℕ)
        → get nat_eq kept.new n ≡ (if nat_eq number n then Some xlate else get nat_eq kept.old n)) }
    ensures none { OnErr result (get nat_eq kept.new number ≡ None) }
    ensures same { OnErr result ((n : ℕ) → get nat_eq kept.new n ≡ get nat_eq kept.old n) }
{
    kept.insert(number, xlate)?;
    Ok(())
}
