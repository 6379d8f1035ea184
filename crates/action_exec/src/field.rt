//! Fields written in a frame, and the checksums that cover them.
ghost use Rattle.std.specs.Prelude.{◌≡◌, ◌≤◌, length, Some, bit_and};
ghost use Rattle.spec_base.specs.Bits.{all_bits};
ghost use Rattle.spec_frames.specs.Ethernet.{header_size};
ghost use Rattle.spec_frames.specs.Layout.{layout_of};
ghost use Rattle.spec_exec.specs.Places.{place_in, sums_of};
ghost use Rattle.spec_exec.specs.Rewriting.{set_at, set_field};
ghost use Rattle.frame_keys.specs.Laid.{AreBefore};
ghost use Rattle.action_exec.specs.Shapes.{bits_of};
ghost use Rattle.action_exec.specs.Placed.{placed, all_listed};
ghost use Rattle.action_exec.specs.Following.{PlaceIsBefore, SumsAreBefore};

use crate::checksum::{correct, sum_of, words_at};
use crate::number::put_bits;
use crate::place::{Place, place_in};
use crate::shape::word_count;
use crate::sum::{Sums, sums_of};
use frame_keys::layout::{L3, L4, Layout, layout_of};
use spec_keys::FieldId;

/// A layout without headers: the addresses of Ethernet stand in it as in any other.
const NO_HEADERS: Layout = Layout {
    tags: 0,
    l3: L3::None,
    l4: L4::None,
    routed: false,
};

/// The headers of a frame, as far as a field depends on them.
fn layout_for(frame: &[u8], field: FieldId) -> Layout
    ensures place { place_in result field ≡ place_in (layout_of frame.now) field }
    ensures sums { sums_of result field ≡ sums_of (layout_of frame.now) field }
    ensures within { AreBefore (length frame.now) result }
{
    match field {
        FieldId::DlSrc | FieldId::DlDst => NO_HEADERS,
        _ => layout_of(frame),
    }
}

/// Puts bits of a field at its place, and lets the checksums that cover it follow.
fn write(frame: &mut [u8], place: &Place, sums: &Sums, value: u128, mask: u128)
    requires place { PlaceIsBefore (length frame.old) (placed place.now) }
    requires sums { SumsAreBefore (length frame.old) sums.now }
    ensures { frame.new
        ≡ set_at (Some (placed place.now)) (all_listed sums.now) value (bit_and mask (all_bits (bits_of place.now.shape))) frame.old }
{
    let count = word_count(place.shape);
    let words = words_at(frame, place.word_at, count);
    let words = &words[..count];
    let header = sum_of(frame, sums.header);
    let transport = sum_of(frame, sums.transport);
    put_bits(frame, place.at, place.shape, value, mask);
    correct(frame, sums.header, header, words, place.word_at);
    correct(frame, sums.transport, transport, words, place.word_at);
}

/// Writes the bits of a value where the mask has 1, none beyond the field's width. A frame whose headers have no such
/// field stays as it is.
#[tactic(auto, unfolding(spec_exec::specs::Rewriting::set_field))]
pub fn set_field(frame: &mut [u8], field: FieldId, value: u128, mask: u128)
    requires { header_size ≤ length frame.old }
    ensures { frame.new ≡ set_field field value mask frame.old }
{
    let layout = layout_for(frame, field);
    if let Some(place) = place_in(&layout, field) {
        let sums = sums_of(&layout, field);
        write(frame, &place, &sums, value, mask);
    }
}
