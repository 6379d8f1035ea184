//! Keys and masks of packets.
//!
//! A packet is classified by its *key*, a number for each of the fields that ovs-fields(7) describes and the table
//! of `spec_keys` lists. A *mask* has a bit for each bit of a key, and says which of them count: a rule is a key
//! under a mask, and so is an entry of the caches. All that finds a rule or an entry asks this crate whether two keys
//! agree, and hashes them here.
//!
//! # What is promised
//!
//! Contracts see a key and a mask as lists with a number for each field, `numbers k` and `bits m` (specs/Packed.antt),
//! in the words of `spec_keys`.
//!
//! - Each number is within the width of its field. The types keep this: `k.is_key` and `m.is_key` are the facts
//!   `IsKey (numbers k)` and `IsKey (bits m)`, at hand for every `Key` and `Mask`.
//! - `set` changes one field and `add` adds bits to one, and the other fields stay.
//! - `agree`, `covers`, `and`, `or` and `masked` answer by bits, exactly as the definitions `agree`, `covers`,
//!   `common_bits`, `joined` and `masked` do. Two keys are equal, as are two masks, exactly where their lists are.
//! - `metadata_part`, `ethernet_part` and `network_part` are the bits of a mask through a stage, as the definition `staged`
//!   of `spec_keys` has them.
//! - `key_hash` is the 64-bit FNV-1a of the fields' bytes, for every key.
//! - `all_fields` lists the fields in the order of the key; `width` and `stage` are those of the table.
//! - No call takes memory, and none can fail.
//!
//! # How
//!
//! A key has 176 bytes, since every lookup reads keys: each field stands in the least integer type that holds it, and
//! the widest come first, so that nothing is lost between them. `agree` and `covers` test all the fields and then
//! decide, without a branch for each. That is fewer than a hundred instructions over vectors, and costs the same
//! whichever field differs.
//!
//! What is done with each field alike is a macro over the one list of them (src/field_list.rt), so that it is written
//! once and runs without a loop.
//!
//! FNV-1a multiplies once for each byte, and each multiplication waits for the one before. The fields have 156 bytes, and
//! most of them are 0: metadata and the registers in the key of every frame, and what the frame doesn't carry of addresses
//! and tags. A byte of 0 changes nothing before its multiplication, so a run of n such bytes multiplies by the prime to
//! the power of n. Four runs are tested and hashed by one multiplication: metadata with the registers, the IPv6 addresses,
//! the hardware addresses of ARP, and the types of tags with the inner tag. An untagged IPv4 frame is left with 38
//! multiplications.
//!
//! That hash is for those who need its value, as the exact-match cache, whose slots it tells. Hash maps of keys and masks
//! need none in particular, so these feed a hash function their numbers themselves: in three words where the first three
//! runs are 0 and there is no inner tag, which is many times faster. Small numbers are joined to words by `join_8` to
//! `join_64`, which are there for whoever has to feed the same.
//!
//! # What is left to others
//!
//! Which key a frame has, the names by which flows speak of fields or of their parts, and the printed forms.
#![tactic(auto)]

mod bitwise;
mod feed;
mod field_list;
mod fields;
mod hash;
mod joined;
mod key;
mod mask;
mod table;

pub use bitwise::{agree, and, covers, ethernet_part, masked, metadata_part, network_part, or};
pub use field_list::{FIELD_COUNT, all_fields};
pub use hash::key_hash;
pub use joined::{join_8, join_16, join_32, join_64};
pub use key::Key;
pub use mask::Mask;
pub use spec_keys::FieldId;
pub use table::{stage, width};
