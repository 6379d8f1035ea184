ghost use Rattle.std.specs.Prelude.{◌≡◌, ◌^◌, ◌<◌, ◌≤◌, ◌==◌, ◌∷◌, [], position, IfSome, length};
ghost use Rattle.std.specs.Option.{option_map};
ghost use Rattle.std.specs.List.{list_all};
ghost use Rattle.std.specs.Char.{is_digit};
ghost use Rattle.spec_flow_text.specs.Characters.{colon};
ghost use Rattle.spec_flow_text.specs.Numbers.{split_once, strip_prefix, are_digits, digits_upto, is_hexadecimal, has_leading_zero, decimal_upto, number_upto, last_port, nonzero, octet, octet_before_colon, mac};
ghost use Rattle.text_numbers.specs.Digits.{number_of_digits};

use memchr::memchr;
use std::str;

/// The greatest number of a port of a switch.
pub const LAST_PORT: u16 = 65_279;

// The place of the first byte of this value.
fn place_of(text: &[u8], byte: u8) -> Option<usize>
    ensures { result ≡ position (λ c. c == byte) text.now }
{
    memchr(byte, text)
}

/// The parts of a text round the first place of a byte.
pub fn cut_at(text: &[u8], byte: u8) -> Option<(&[u8], &[u8])>
    ensures { option_map (λ p. (p.0.now, p.1.now)) result ≡ split_once byte text.now }
{
    match place_of(text, byte) {
        None => None,
        Some(i) => {
            let (front, _) = text.split_at(i);
            let (_, rest) = text.split_at(i + 1);
            Some((front, rest))
        }
    }
}

/// A text without its start.
pub fn after_start<'a>(start: &[u8], text: &'a [u8]) -> Option<&'a [u8]>
    ensures { option_map (λ rest. rest.now) result ≡ strip_prefix start.now text.now }
{
    text.strip_prefix(start)
}

fn all_digits(text: &[u8], base: u32) -> bool
    requires low { 2 ≤ base }
    requires high { base ≤ 16 }
    ensures { result ≡ list_all (λ c. is_digit c base) text.now }
{
    text.iter().all(|c| char::from(*c).is_digit(base))
}

fn has_digits(text: &[u8], base: u32) -> bool
    requires low { 2 ≤ base }
    requires high { base ≤ 16 }
    ensures { result ≡ are_digits base text.now }
{
    !text.is_empty() && all_digits(text, base)
}

// The number that any digits of a base write, where it is at most so much.
#[tactic(auto, unfolding(spec_flow_text::specs::Numbers::digits_upto))]
fn read_many_digits(text: &[u8], base: u32, most: u128) -> Option<u128>
    requires low { 2 ≤ base }
    requires high { base ≤ 16 }
    ensures value { result ≡ digits_upto base most text.now }
    ensures fits { IfSome result (λ n. n ≤ most) }
{
    if !has_digits(text, base) {
        return None;
    }
    let Ok(text) = str::from_utf8(text) else {
        return None;
    };
    match u128::from_str_radix(text, base) {
        Err(_) => None,
        Ok(value) => { if value <= most { Some(value) } else { None } }
    }
}

// So few digits of a base of at most 16 write a number of 60 bits.
const FEW_DIGITS: usize = 15;

// The number that a few digits of a base write.
fn number_of_few(text: &[u8], base: u32) -> Option<u64>
    requires low { 2 ≤ base }
    requires high { base ≤ 16 }
    requires few { length text.now ≤ 15 }
    ensures { result ≡ number_of_digits base text.now }
{
    let mut number = 0;
    'digits: for byte in text {
        let digit = char::from(*byte).to_digit(base)?;
        number = number * u64::from(base) + u64::from(digit);
    }
    Some(number)
}

// The number that a few digits of a base write, where it is at most so much.
#[tactic(auto, unfolding(spec_flow_text::specs::Numbers::digits_upto))]
fn read_few_digits(text: &[u8], base: u32, most: u128) -> Option<u128>
    requires low { 2 ≤ base }
    requires high { base ≤ 16 }
    requires few { length text.now ≤ 15 }
    ensures value { result ≡ digits_upto base most text.now }
    ensures fits { IfSome result (λ n. n ≤ most) }
{
    if text.is_empty() {
        return None;
    }
    let number = u128::from(number_of_few(text, base)?);
    if number <= most { Some(number) } else { None }
}

/// The number that digits of a base write, where it is at most so much. The digits above 9 may be of either case.
pub fn read_digits(text: &[u8], base: u32, most: u128) -> Option<u128>
    requires low { 2 ≤ base }
    requires high { base ≤ 16 }
    ensures value { result ≡ digits_upto base most text.now }
    ensures fits { IfSome result (λ n. n ≤ most) }
{
    if text.len() <= FEW_DIGITS {
        read_few_digits(text, base, most)
    } else {
        read_many_digits(text, base, most)
    }
}

fn starts_hexadecimal(text: &[u8]) -> bool
    ensures { result ≡ is_hexadecimal text.now }
{
    text.len() >= 2 && text[0] == b'0' && text[1] == b'x'
}

fn leads_with_zero(text: &[u8]) -> bool
    ensures { result ≡ has_leading_zero text.now }
{
    !text.is_empty() && text[0] == b'0' && text.len() != 1
}

/// A number in decimal, without leading zeros, at most so much.
#[tactic(auto, unfolding(spec_flow_text::specs::Numbers::decimal_upto))]
pub fn read_decimal(text: &[u8], most: u128) -> Option<u128>
    ensures value { result ≡ decimal_upto most text.now }
    ensures fits { IfSome result (λ n. n ≤ most) }
{
    if leads_with_zero(text) {
        return None;
    }
    read_digits(text, 10, most)
}

/// A number in decimal, or in hexadecimal after `0x`, at most so much.
#[tactic(auto, unfolding(spec_flow_text::specs::Numbers::number_upto))]
pub fn read_number(text: &[u8], most: u128) -> Option<u128>
    ensures value { result ≡ number_upto most text.now }
    ensures fits { IfSome result (λ n. n ≤ most) }
{
    if starts_hexadecimal(text) {
        let (_, digits) = text.split_at(2);
        return read_digits(digits, 16, most);
    }
    read_decimal(text, most)
}

/// A number that is one of a port, from 1 to `LAST_PORT`.
pub fn as_port(number: u128) -> Option<u16>
    requires { number ≤ last_port }
    ensures value { result ≡ nonzero number }
    ensures fits { IfSome result (λ n. n ≤ last_port) }
{
    if number == 0 {
        None
    } else {
        Some(number as u16)
    }
}

#[tactic(auto, unfolding(spec_flow_text::specs::Numbers::octet))]
fn read_octet(text: &[u8]) -> Option<u64>
    ensures value { result ≡ octet text.now }
    ensures fits { IfSome result (λ n. n < 256) }
{
    if text.len() > 2 {
        return None;
    }
    match read_digits(text, 16, 255) {
        None => None,
        Some(n) => Some(n as u64),
    }
}

// The octet that two digits write.
#[tactic(auto, using(crate::proofs::Octets::two_digits, crate::proofs::Octets::no_high_digit, crate::proofs::Octets::no_low_digit))]
fn read_two_digits(high: u8, low: u8) -> Option<u64>
    ensures value { result ≡ octet (high ∷ low ∷ []) }
    ensures fits { IfSome result (λ n. n < 256) }
{
    let high = char::from(high).to_digit(16)?;
    let low = char::from(low).to_digit(16)?;
    Some(u64::from(high * 16 + low))
}

// Two bytes before a colon, and what stands after it.
fn two_before_colon(text: &[u8]) -> Option<(u8, u8, &[u8])>
    ensures { IfSome result (λ p. text.now ≡ p.0 ∷ p.1 ∷ colon ∷ p.2.now) }
{
    match text {
        [high, low, b':', rest @ ..] => Some((*high, *low, rest)),
        _ => None,
    }
}

// An octet of however many digits before a colon.
#[tactic(auto, unfolding(spec_flow_text::specs::Numbers::octet_before_colon))]
fn read_any_octet_before_colon(text: &[u8]) -> Option<(u64, &[u8])>
    ensures value { option_map (λ p. (p.0, p.1.now)) result ≡ octet_before_colon text.now }
    ensures fits { IfSome result (λ p. p.0 < 256) }
{
    let (group, rest) = cut_at(text, b':')?;
    let n = read_octet(group)?;
    Some((n, rest))
}

// An octet before a colon. Mostly it has two digits, and then no colon is searched.
fn read_octet_before_colon(text: &[u8]) -> Option<(u64, &[u8])>
    ensures value { option_map (λ p. (p.0, p.1.now)) result ≡ octet_before_colon text.now }
    ensures fits { IfSome result (λ p. p.0 < 256) }
{
    if let Some((high, low, rest)) = two_before_colon(text) {
        if let Some(n) = read_two_digits(high, low) {
            return Some((n, rest));
        }
    }
    read_any_octet_before_colon(text)
}

/// An Ethernet address of 48 bits: six octets in hexadecimal, of one or two digits, with colons between them.
#[tactic(auto, unfolding(spec_flow_text::specs::Numbers::mac))]
pub fn read_mac(text: &[u8]) -> Option<u64>
    ensures value { result ≡ mac text.now }
    ensures fits { IfSome result (λ n. n < 2 ^ 48) }
{
    let (a, rest) = read_octet_before_colon(text)?;
    let (b, rest) = read_octet_before_colon(rest)?;
    let (c, rest) = read_octet_before_colon(rest)?;
    let (d, rest) = read_octet_before_colon(rest)?;
    let (e, rest) = read_octet_before_colon(rest)?;
    let f = read_octet(rest)?;
    Some(((((a * 256 + b) * 256 + c) * 256 + d) * 256 + e) * 256 + f)
}
