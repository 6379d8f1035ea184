ghost use Rattle.std.specs.Prelude.{◌≡◌, ◌≤◌, [], vec_capacity, IfOk};
ghost use Rattle.spec_xlate.specs.Translation.{lookup_limit};

use spec_tools::Lookup;
use std::alloc::{AllocError, Global};

/// How many lookups a translation may make (the limit is this profile's).
const LOOKUP_LIMIT: usize = 512;

/// The lookups of a translation so far, in their order.
///
/// There is room for as many as it may make, so that to note one takes no memory.
#[derive(Drop)]
pub(crate) struct Path {
    lookups: Vec<Lookup>,
    ghost room: { lookup_limit ≤ vec_capacity lookups },
}

impl Path {
    ghost use Rattle.ofp_trace.specs.Notes.{with_lookup};

    /// No lookup. The only error is out of memory.
    pub(crate) fn new(alloc: Global) -> Result<Path, AllocError>
        ensures { IfOk result (λ p. p.lookups.items ≡ []) }
    {
        let lookups = Vec::with_capacity(alloc, LOOKUP_LIMIT)?;
        Ok(Path { lookups })
    }

    /// Notes a lookup. One past the limit isn't kept; no translation makes it.
    pub(crate) fn note(&mut self, lookup: Lookup)
        ensures { self.new.lookups.items ≡ with_lookup self.old.lookups.items lookup }
    {
        if self.lookups.len() < LOOKUP_LIMIT {
            self.lookups.push_reserved(lookup);
        }
    }

    /// The lookups. It takes no memory.
    pub(crate) fn into_lookups(self) -> Vec<Lookup>
        ensures { result.items ≡ self.lookups.items }
    {
        self.lookups
    }
}
