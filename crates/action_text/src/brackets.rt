ghost use Rattle.std.specs.Prelude.{◌≡◌, ◌≤◌, [], take, length, reverse, OnOk, IfOk};
ghost use Rattle.spec_flow_text.specs.Actions.{closing, ends_item, open_after, up_to_end, is_closed};
ghost use Rattle.action_text.specs.Brackets.{innermost_first, closes};

use field_text::is_separator;
use std::alloc::{AllocError, Global};

/// Where an item ends.
#[derive(Clone, Copy)]
pub struct ItemEnd {
    /// How many bytes it has.
    pub count: usize,
    /// Whether all its brackets close.
    pub closed: bool,
}

// The bracket that closes one, where a byte opens one.
fn closing(byte: u8) -> Option<u8>
    ensures { result ≡ closing byte }
{
    match byte {
        b'(' => Some(b')'),
        b'[' => Some(b']'),
        _ => None,
    }
}

// A separator outside of brackets.
#[tactic(auto, using(crate::proofs::ItemBytes::ends_with_none_open))]
fn ends_item(stack: &[u8], byte: u8) -> bool
    ensures { result ≡ ends_item (innermost_first stack.now) byte }
{
    stack.is_empty() && is_separator(byte)
}

// Whether a byte closes the innermost bracket.
#[tactic(auto, using(crate::proofs::ItemBytes::closes_top))]
fn closes(stack: &[u8], byte: u8) -> bool
    ensures { result ≡ closes (innermost_first stack.now) byte }
{
    !stack.is_empty() && stack[stack.len() - 1] == byte
}

// Opens or closes a bracket, where a byte does.
#[tactic(auto, using(crate::proofs::ItemBytes::after_closing, crate::proofs::ItemBytes::after_other, crate::proofs::ItemBytes::without_top, crate::proofs::ItemBytes::with_top))]
fn follow(stack: &mut Vec<u8>, byte: u8) -> Result<(), AllocError>
    ensures { OnOk result
        (innermost_first stack.new.items ≡ open_after (innermost_first stack.old.items) byte) }
{
    if closes(stack, byte) {
        stack.pop();
        return Ok(());
    }
    match closing(byte) {
        None => Ok(()),
        Some(close) => {
            stack.push(close)?;
            Ok(())
        }
    }
}

/// The end of the item that a text begins with.
pub fn item_end(alloc: Global, text: &[u8]) -> Result<ItemEnd, AllocError>
    ensures count { IfOk result (λ end. take end.count text.now ≡ up_to_end [] text.now) }
    ensures within { IfOk result (λ end. end.count ≤ length text.now) }
    ensures closed { IfOk result (λ end. end.closed ≡ is_closed (up_to_end [] text.now)) }
{
    let mut stack = Vec::new(alloc);
    'bytes: for (place, byte) in text.iter().enumerate() {
        if ends_item(&stack, *byte) {
            return Ok(ItemEnd {
                count: place,
                closed: true,
            });
        }
        follow(&mut stack, *byte)?;
    }
    Ok(ItemEnd {
        count: text.len(),
        closed: stack.is_empty(),
    })
}
