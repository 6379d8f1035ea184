//! VLAN tags pushed and popped (IEEE 802.1Q).
ghost use Rattle.std.specs.Prelude.{◌≡◌, ◌+◌, ◌-◌, ◌≤◌, ◌++◌, length, take, drop, bit_and, OnOk, OnErr, IsOk};
ghost use Rattle.std.specs.Vec.{vec_len, vec_capacity};
ghost use Rattle.spec_base.specs.Bytes.{big_endian};
ghost use Rattle.spec_frames.specs.Ethernet.{header_size, type_at, type_size, tag_size};
ghost use Rattle.spec_exec.specs.Rewriting.{content_bits, push_tag, pop_tag};

use frame_keys::headers::tag_count;
use net_bytes::put16;
use std::alloc::AllocError;

/// A tag stands after the addresses: a type and a content, of two bytes each.
const TAG_AT: usize = 12;

const TYPE_SIZE: usize = 2;

/// How many bytes a tag has.
pub const TAG_SIZE: usize = 4;

/// The bits of a tag's content that are sent: all but the one by which a key says that there is a tag.
const CONTENT_BITS: u16 = 0xefff;

/// A tag of this type with this content.
fn tag_bytes(tpid: u16, tci: u16) -> [u8; TAG_SIZE]
    ensures { result ≡ big_endian type_size tpid ++ big_endian type_size (bit_and tci content_bits) }
{
    let mut tag = [0; TAG_SIZE];
    put16(&mut tag, 0, tpid);
    put16(&mut tag, TYPE_SIZE, tci & CONTENT_BITS);
    tag
}

/// Puts a tag after the addresses. The bytes after them move up, and as many at the end give way.
fn insert_tag(frame: &mut [u8], tag: &[u8; TAG_SIZE])
    requires { header_size + tag_size ≤ length frame.old }
    ensures { frame.new
        ≡ take type_at frame.old ++ (tag.now ++ drop type_at (take (length frame.old - tag_size) frame.old)) }
{
    let end = frame.len() - TAG_SIZE;
    frame.copy_within(TAG_AT..end, TAG_AT + TAG_SIZE);
    frame[TAG_AT..TAG_AT + TAG_SIZE].copy_from_slice(tag);
}

/// Pushes a tag outside of those that there are. The only error is out of memory, and then the frame is as before.
#[tactic(auto, unfolding(spec_exec::specs::Rewriting::push_tag))]
pub fn push_tag(frame: &mut Vec<u8>, tpid: u16, tci: u16) -> Result<(), AllocError>
    requires { header_size ≤ length frame.old.items }
    ensures ok { OnOk result (frame.new.items ≡ push_tag tpid tci frame.old.items) }
    ensures err { OnErr result (frame.new.items ≡ frame.old.items) }
    ensures grows { length frame.new.items ≤ length frame.old.items + tag_size }
    ensures room { vec_len frame.old + tag_size ≤ vec_capacity frame.old → IsOk result }
    ensures len { vec_len frame.new ≤ vec_len frame.old + tag_size }
    ensures capacity { vec_capacity frame.old ≤ vec_capacity frame.new }
{
    let tag = tag_bytes(tpid, tci);
    frame.extend_from_slice(&tag)?;
    insert_tag(frame, &tag);
    Ok(())
}

/// Pops the outer tag of a frame, if it has one.
#[tactic(auto, unfolding(spec_exec::specs::Rewriting::pop_tag))]
pub fn pop_tag(frame: &mut Vec<u8>)
    requires { header_size ≤ length frame.old.items }
    ensures items { frame.new.items ≡ pop_tag frame.old.items }
    ensures grows { length frame.new.items ≤ length frame.old.items }
    ensures len { vec_len frame.new ≤ vec_len frame.old }
    ensures capacity { vec_capacity frame.new ≡ vec_capacity frame.old }
{
    if tag_count(frame) > 0 {
        let end = frame.len();
        frame.copy_within(TAG_AT + TAG_SIZE..end, TAG_AT);
        frame.truncate(end - TAG_SIZE);
    }
}
