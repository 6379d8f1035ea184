ghost use Rattle.std.specs.Prelude.{◌≡◌, ℕ, ◌+◌, ◌^◌, ◌<◌, ◌≤◌, List, ◌∷◌, IfSome};
ghost use Rattle.std.specs.Option.{option_map};
ghost use Rattle.spec_base.specs.Bits.{leading_bits};
ghost use Rattle.spec_flow_text.specs.Addresses.{decimal_octet, decimal_octet_before_dot, ipv4, group, groups_of_ipv4, last_groups, groups, groups_or_none, eight_groups, split_at_elision, groups_round_zeros, elided_groups, number_of_groups, ipv6, ipv4_mask, ipv6_mask};
ghost use Rattle.text_numbers.specs.Groups.{counted, AreWithin};

use crate::numbers::{after_start, cut_at, read_decimal, read_digits};

/// The groups of an IPv6 address.
const GROUPS: u32 = 8;

/// What a group counts for, beside the one after it.
pub(crate) const GROUP_BASE: u128 = 0x1_0000;

// Groups of 16 bits that stand one after the other: how many they are, and their number.
#[derive(Clone, Copy)]
struct Groups {
    count: u32,
    number: u128,
}

fn read_decimal_octet(text: &[u8]) -> Option<u32>
    ensures value { result ≡ decimal_octet text.now }
    ensures fits { IfSome result (λ n. n < 256) }
{
    match read_decimal(text, 255) {
        None => None,
        Some(n) => Some(n as u32),
    }
}

#[tactic(auto, unfolding(spec_flow_text::specs::Addresses::decimal_octet_before_dot))]
fn read_decimal_octet_before_dot(text: &[u8]) -> Option<(u32, &[u8])>
    ensures value { option_map (λ p. (p.0, p.1.now)) result ≡ decimal_octet_before_dot text.now }
    ensures fits { IfSome result (λ p. p.0 < 256) }
{
    let (octet, rest) = cut_at(text, b'.')?;
    let n = read_decimal_octet(octet)?;
    Some((n, rest))
}

/// An IPv4 address in dotted decimal (RFC 3986, section 3.2.2): four octets without leading zeros, with dots between
/// them.
#[tactic(auto, unfolding(spec_flow_text::specs::Addresses::ipv4))]
pub fn read_ipv4(text: &[u8]) -> Option<u32>
    ensures value { result ≡ ipv4 text.now }
    ensures fits { IfSome result (λ n. n < 2 ^ 32) }
{
    let (a, rest) = read_decimal_octet_before_dot(text)?;
    let (b, rest) = read_decimal_octet_before_dot(rest)?;
    let (c, rest) = read_decimal_octet_before_dot(rest)?;
    let d = read_decimal_octet(rest)?;
    Some(((a * 256 + b) * 256 + c) * 256 + d)
}

#[tactic(auto, unfolding(spec_flow_text::specs::Addresses::group))]
fn read_group(text: &[u8]) -> Option<u128>
    ensures value { result ≡ group text.now }
    ensures fits { IfSome result (λ n. n < 65536) }
{
    if text.len() > 4 {
        return None;
    }
    read_digits(text, 16, 0xffff)
}

// An IPv4 address, as the two groups that it stands for.
#[tactic(auto, unfolding(spec_flow_text::specs::Addresses::groups_of_ipv4))]
fn read_ipv4_groups(text: &[u8]) -> Option<Groups>
    ensures value { result ≡ option_map counted (groups_of_ipv4 text.now) }
    ensures within { IfSome result (AreWithin 2) }
{
    let address = read_ipv4(text)?;
    Some(Groups {
        count: 2,
        number: u128::from(address),
    })
}

// The groups of a text without a colon: one, or the two of an IPv4 address, where that may stand there and there is room
// for two.
#[tactic(auto, unfolding(spec_flow_text::specs::Addresses::last_groups))]
fn read_last_groups(text: &[u8], with_ipv4: bool, room: u32) -> Option<Groups>
    requires { 0 < room }
    ensures value { result ≡ option_map counted (last_groups with_ipv4 room text.now) }
    ensures within { IfSome result (AreWithin room) }
{
    match read_group(text) {
        Some(number) => Some(Groups { count: 1, number }),
        None => {
            if with_ipv4 && room >= 2 {
                read_ipv4_groups(text)
            } else {
                None
            }
        }
    }
}

// A group before others.
fn before(first: u128, others: Groups) -> Groups
    requires first { first < 65536 }
    requires within { AreWithin 7 others }
    ensures value { (all : List ℕ) → others ≡ counted all → result ≡ counted (first ∷ all) }
    ensures within { AreWithin (others.count + 1) result }
{
    Groups {
        count: others.count + 1,
        number: first * GROUP_BASE.pow(others.count) + others.number,
    }
}

// Groups with colons between them, at least one and at most so many.
fn read_groups(text: &[u8], with_ipv4: bool, room: u32) -> Option<Groups>
    requires { room ≤ 8 }
    ensures value { result ≡ option_map counted (groups with_ipv4 room text.now) }
    ensures within { IfSome result (AreWithin room) }
{
    if room == 0 {
        return None;
    }
    match cut_at(text, b':') {
        None => read_last_groups(text, with_ipv4, room),
        Some((front, rest)) => {
            let first = read_group(front)?;
            let others = read_groups(rest, with_ipv4, room - 1)?;
            Some(before(first, others))
        }
    }
}

// Groups beside `::`, of which there may be none.
fn read_groups_or_none(text: &[u8], with_ipv4: bool) -> Option<Groups>
    ensures value { result ≡ option_map counted (groups_or_none with_ipv4 7 text.now) }
    ensures within { IfSome result (AreWithin 7) }
{
    if text.is_empty() {
        Some(Groups {
            count: 0,
            number: 0,
        })
    } else {
        read_groups(text, with_ipv4, GROUPS - 1)
    }
}

#[tactic(auto, unfolding(spec_flow_text::specs::Addresses::eight_groups))]
fn read_eight_groups(text: &[u8]) -> Option<u128>
    ensures { result ≡ option_map number_of_groups (eight_groups text.now) }
{
    let all = read_groups(text, true, GROUPS)?;
    if all.count == GROUPS {
        Some(all.number)
    } else {
        None
    }
}

// The parts of a text round the first `::` in it.
fn cut_at_elision(text: &[u8]) -> Option<(&[u8], &[u8])>
    ensures { option_map (λ p. (p.0.now, p.1.now)) result ≡ split_at_elision text.now }
{
    let mut at = 0;
    'places: while at < text.len() {
        let (front, rest) = text.split_at(at);
        match after_start(b"::", rest) {
            Some(back) => return Some((front, back)),
            None => at += 1,
        }
    }
    None
}

// The number of groups with zeros between them.
#[tactic(auto, unfolding(spec_flow_text::specs::Addresses::groups_round_zeros))]
fn number_round_zeros(front: Groups, back: Groups) -> Option<u128>
    requires front { AreWithin 7 front }
    requires back { AreWithin 7 back }
    ensures { (fronts backs : List ℕ) → front ≡ counted fronts → back ≡ counted backs
        → result ≡ option_map number_of_groups (groups_round_zeros fronts backs) }
{
    if front.count + back.count >= GROUPS {
        return None;
    }
    if front.count == 0 {
        return Some(back.number);
    }
    Some(front.number * GROUP_BASE.pow(GROUPS - front.count) + back.number)
}

#[tactic(auto, unfolding(spec_flow_text::specs::Addresses::elided_groups))]
fn read_elided_groups(text: &[u8]) -> Option<u128>
    ensures { result ≡ option_map number_of_groups (elided_groups text.now) }
{
    let (front, back) = cut_at_elision(text)?;
    let front = read_groups_or_none(front, false)?;
    let back = read_groups_or_none(back, true)?;
    number_round_zeros(front, back)
}

/// An IPv6 address of 128 bits (RFC 4291, section 2.2): eight groups of one to four hexadecimal digits with colons
/// between them. One `::` may stand for groups of zeros, one or more, and an IPv4 address for the last two groups. A
/// zone isn't read.
#[tactic(auto, unfolding(spec_flow_text::specs::Addresses::ipv6))]
pub fn read_ipv6(text: &[u8]) -> Option<u128>
    ensures value { result ≡ ipv6 text.now }
    ensures fits { IfSome result (λ n. n < 2 ^ 128) }
{
    match read_eight_groups(text) {
        Some(number) => Some(number),
        None => read_elided_groups(text),
    }
}

/// The mask of a prefix of an IPv4 address.
pub(crate) fn ipv4_prefix(length: u32) -> u32
    requires { length ≤ 32 }
    ensures { result ≡ leading_bits 32 length }
{
    if length == 0 {
        0
    } else {
        u32::MAX - ((1 << (32 - length)) - 1)
    }
}

/// The mask of a prefix of an IPv6 address.
pub(crate) fn ipv6_prefix(length: u32) -> u128
    requires { length ≤ 128 }
    ensures { result ≡ leading_bits 128 length }
{
    if length == 0 {
        0
    } else {
        u128::MAX - ((1 << (128 - length)) - 1)
    }
}

/// A mask of an IPv4 address: the length of a prefix in decimal digits, from 0 to 32, or an address.
#[tactic(auto, unfolding(spec_flow_text::specs::Addresses::ipv4_mask, spec_flow_text::specs::Addresses::prefix_length))]
pub fn read_ipv4_mask(text: &[u8]) -> Option<u32>
    ensures value { result ≡ ipv4_mask text.now }
    ensures fits { IfSome result (λ n. n < 2 ^ 32) }
{
    match read_digits(text, 10, 32) {
        Some(length) => Some(ipv4_prefix(length as u32)),
        None => read_ipv4(text),
    }
}

/// A mask of an IPv6 address: the length of a prefix in decimal digits, from 0 to 128, or an address.
#[tactic(auto, unfolding(spec_flow_text::specs::Addresses::ipv6_mask, spec_flow_text::specs::Addresses::prefix_length))]
pub fn read_ipv6_mask(text: &[u8]) -> Option<u128>
    ensures value { result ≡ ipv6_mask text.now }
    ensures fits { IfSome result (λ n. n < 2 ^ 128) }
{
    match read_digits(text, 10, 128) {
        Some(length) => Some(ipv6_prefix(length as u32)),
        None => read_ipv6(text),
    }
}
