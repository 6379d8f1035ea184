ghost use Rattle.std.specs.Prelude.{◌≡◌, ◌<◌, ◌≤◌, ◌∷◌, length, IfOk};
ghost use Rattle.std.specs.List.{prefix_len};
ghost use Rattle.spec_flow_text.specs.Items.{is_separator};
ghost use Rattle.spec_flow_text.specs.Actions.{is_closed};
ghost use Rattle.field_text.specs.WordViews.{word_view};
ghost use Rattle.action_text.specs.ItemStarts.{items_in, BeginsItem};

use crate::brackets::item_end;
use field_text::{Word, is_separator};
use std::alloc::{AllocError, Global};

/// An item of a list, and what follows it.
#[derive(Clone, Copy)]
pub struct CutItem<'a> {
    pub item: Word<'a>,
    /// Whether all its brackets close.
    pub closed: bool,
    /// The next item begins it, if there is one.
    pub rest: Word<'a>,
}

fn separator_count(text: &[u8]) -> usize
    ensures value { result ≡ prefix_len is_separator text.now }
    ensures within { result ≤ length text.now }
{
    text.iter().take_while(|byte| is_separator(**byte)).count()
}

/// What follows the separators at the start of a stretch.
#[tactic(auto, using(crate::proofs::ItemLists::skips, crate::proofs::ItemLists::stops))]
pub fn after_separators(word: Word<'_>) -> Word<'_>
    ensures items { items_in (word_view result) ≡ items_in (word_view word.entry) }
    ensures begins { BeginsItem result.text.now }
    ensures within { length result.text.now ≤ length word.entry.text.now }
{
    word.skipping(separator_count(word.text))
}

/// Cuts the item off that a stretch begins with.
pub fn cut_item(alloc: Global, word: Word<'_>) -> Result<CutItem<'_>, AllocError>
    requires some { 0 < length word.text.now }
    requires begins { BeginsItem word.text.now }
    ensures items { IfOk result (λ cut.
        items_in (word_view word.entry) ≡ word_view cut.item ∷ items_in (word_view cut.rest)) }
    ensures closed { IfOk result (λ cut. cut.closed ≡ is_closed cut.item.text.now) }
    ensures begins { IfOk result (λ cut. BeginsItem cut.rest.text.now) }
    ensures shorter { IfOk result (λ cut. length cut.rest.text.now < length word.entry.text.now) }
{
    let end = item_end(alloc, word.text)?;
    Ok(CutItem {
        item: word.first(end.count),
        closed: end.closed,
        rest: after_separators(word.skipping(end.count)),
    })
}
