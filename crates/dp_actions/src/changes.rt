//! Commit: the actions that turn one key into another.
ghost use Rattle.std.specs.Prelude.{◌≡◌, ◌≤◌, ◌++◌, drop, length, map, replicate, OnOk, OnErr};
ghost use Rattle.spec_actions.specs.declared.action.DpAction.TheVariants as datapath;
ghost use Rattle.spec_keys.specs.Keys.{value_of};
ghost use Rattle.spec_xlate.specs.Commit.{fields_before_tags, fields_after_tags, commit_field, commit_fields, commit};
ghost use Rattle.spec_xlate.specs.Tags.{tags_of, outer_tags, commit_tags};
ghost use Rattle.ovs_fields.specs.Packed.{numbers};
ghost use Rattle.dp_actions.specs.Growth.{Extends};
ghost use Rattle.dp_actions.specs.TagLists.{tag_list, pushing};

use crate::ActionList;
use crate::key_tags::KeyTags;
use named_fields::VlanTag;
use ovs_fields::{FieldId, Key};
use spec_actions::DpAction;
use std::alloc::AllocError;

// The fields that change in place, in the order of the key: those before the tag and those after it.
static FIELDS_BEFORE_TAGS: [FieldId; 2] = [FieldId::DlSrc, FieldId::DlDst];

static FIELDS_AFTER_TAGS: [FieldId; 10] = [
    FieldId::NwSrc,
    FieldId::NwDst,
    FieldId::Ipv6Src,
    FieldId::Ipv6Dst,
    FieldId::NwTos,
    FieldId::NwTtl,
    FieldId::ArpSha,
    FieldId::ArpTha,
    FieldId::TpSrc,
    FieldId::TpDst,
];

/// Appends the actions that make a frame of the key `base` into a frame of the key `current`.
///
/// They stand in the order of the key. Of a field that differs the bits that differ are set; the tags outside of those that
/// both keys share innermost are popped and the other ones pushed. Fields that no datapath action writes are passed over, as
/// `in_port` and the registers.
///
/// The only error is out of memory, and then the list is as before.
pub fn commit(base: &Key, current: &Key, out: &mut ActionList) -> Result<(), AllocError>
    ensures ok { OnOk result (out.new ≡ out.old ++ commit (numbers base.now) (numbers current.now)) }
    ensures err { OnErr result (out.new ≡ out.old) }
{
    let before = out.len();
    match append_changes(base, current, out) {
        Ok(()) => Ok(()),
        Err(fault) => {
            out.truncate(before);
            Err(fault)
        }
    }
}

/// The same, but after a refusal some of the actions may stand behind those from before.
fn append_changes(base: &Key, current: &Key, out: &mut ActionList) -> Result<(), AllocError>
    ensures ok { OnOk result (out.new ≡ out.old ++ commit (numbers base.now) (numbers current.now)) }
    ensures err { OnErr result (Extends out.old out.new) }
{
    append_fields(&FIELDS_BEFORE_TAGS, base, current, out)?;
    append_tags(
        KeyTags::of(base).as_slice(),
        KeyTags::of(current).as_slice(),
        out,
    )?;
    append_fields(&FIELDS_AFTER_TAGS, base, current, out)
}

/// Appends what turns these fields.
fn append_fields(
    fields: &[FieldId],
    base: &Key,
    current: &Key,
    out: &mut ActionList,
) -> Result<(), AllocError>
    ensures ok { OnOk result (out.new ≡ out.old ++ commit_fields fields.now (numbers base.now) (numbers current.now)) }
    ensures err { OnErr result (Extends out.old out.new) }
{
    'fields: for field in fields {
        append_field(*field, base, current, out)?;
    }
    Ok(())
}

/// Appends what turns one field: nothing where it is the same.
fn append_field(
    field: FieldId,
    base: &Key,
    current: &Key,
    out: &mut ActionList,
) -> Result<(), AllocError>
    ensures ok { OnOk result (out.new ≡ out.old ++ commit_field field (value_of (numbers base.now) field) (value_of (numbers current.now) field)) }
    ensures err { OnErr result (out.new ≡ out.old) }
{
    let before = base.get(field);
    let after = current.get(field);
    if before == after {
        return Ok(());
    }
    let mask = before ^ after;
    out.push(DpAction::Set {
        field,
        value: after & mask,
        mask,
    })
}

/// How many tags two lists share, the innermost first.
fn shared(before: &[VlanTag], after: &[VlanTag]) -> usize
    ensures before { tag_list (drop result before.now) ≡ outer_tags (tag_list before.now) (tag_list after.now) }
    ensures after { tag_list (drop result after.now) ≡ outer_tags (tag_list after.now) (tag_list before.now) }
    ensures of_before { result ≤ length before.now }
    ensures of_after { result ≤ length after.now }
{
    let Some((first, before)) = before.split_first() else {
        return 0;
    };
    let Some((other, after)) = after.split_first() else {
        return 0;
    };
    if first.is_same(*other) {
        1 + shared(before, after)
    } else {
        0
    }
}

/// Appends what turns tags into others, the innermost of both first.
fn append_tags(
    before: &[VlanTag],
    after: &[VlanTag],
    out: &mut ActionList,
) -> Result<(), AllocError>
    ensures ok { OnOk result (out.new ≡ out.old ++ commit_tags (tag_list before.now) (tag_list after.now)) }
    ensures err { OnErr result (Extends out.old out.new) }
{
    let shared = shared(before, after);
    let (_, pushed) = after.split_at(shared);
    append_pops(before.len() - shared, out)?;
    append_pushes(pushed, out)
}

/// Appends so many pops.
fn append_pops(count: usize, out: &mut ActionList) -> Result<(), AllocError>
    ensures ok { OnOk result (out.new ≡ out.old ++ replicate count datapath.PopVlan) }
    ensures err { OnErr result (Extends out.old out.new) }
{
    if count == 0 {
        return Ok(());
    }
    out.push(DpAction::PopVlan)?;
    append_pops(count - 1, out)
}

/// Appends a push of each of these tags.
fn append_pushes(tags: &[VlanTag], out: &mut ActionList) -> Result<(), AllocError>
    ensures ok { OnOk result (out.new ≡ out.old ++ pushing tags.now) }
    ensures err { OnErr result (Extends out.old out.new) }
{
    let [tag, tags @ ..] = tags else {
        return Ok(());
    };
    out.push(DpAction::PushVlan {
        tpid: tag.tpid,
        tci: tag.tci,
    })?;
    append_pushes(tags, out)
}
