ghost use Rattle.std.specs.Prelude.{◌≡◌, ◌^◌, ◌<◌, ◌≤◌, ◌++◌, ◌∷◌, [], OnOk, OnErr, string_bytes};
ghost use Rattle.std.specs.Char.{digit_char};
ghost use Rattle.std.specs.Fmt.{decimal};
ghost use Rattle.spec_flow_text.specs.Characters.{dot, colon};
ghost use Rattle.spec_flow_text.specs.NumbersPrinted.{hexadecimal_digits, hexadecimal, octet_digits, hexadecimal4, mac_text, ipv4_text, group_at, ipv6_text, prefix_length_of, ipv4_mask_text, ipv6_mask_text};
ghost use Rattle.text_numbers.specs.Added.{Adds};

use crate::addresses::{GROUP_BASE, ipv4_prefix, ipv6_prefix};
use itoa::Buffer;
use std::alloc::AllocError;

/// Adds a word.
pub fn print_word(out: &mut String, word: &str) -> Result<(), AllocError>
    ensures { Adds out.old out.new word.now result }
{
    out.push_str(word)
}

/// Adds a number in decimal.
#[tactic(auto, using(crate::proofs::DecimalDigits::one_digit))]
pub fn print_decimal(out: &mut String, number: u128) -> Result<(), AllocError>
    ensures { Adds out.old out.new (decimal number) result }
{
    if number < 10 {
        return print_digit(out, number as u32);
    }
    let mut buffer = Buffer::new();
    out.push_str(buffer.format(number))
}

fn print_digit(out: &mut String, digit: u32) -> Result<(), AllocError>
    requires { digit < 16 }
    ensures { Adds out.old out.new (digit_char digit ∷ []) result }
{
    out.push(char::from_digit(digit, 16).unwrap())
}

#[tactic(auto, using(crate::proofs::HexadecimalDigits::digits_last))]
fn print_hexadecimal_digits(out: &mut String, number: u128) -> Result<(), AllocError>
    ensures { Adds out.old out.new (hexadecimal_digits number) result }
{
    if number < 16 {
        return print_digit(out, number as u32);
    }
    print_hexadecimal_digits(out, number / 16)?;
    print_digit(out, (number % 16) as u32)
}

/// Adds `0x` and the hexadecimal digits of a number, in lower case and without leading zeros.
#[tactic(auto, unfolding(spec_flow_text::specs::NumbersPrinted::hexadecimal))]
pub fn print_hexadecimal(out: &mut String, number: u128) -> Result<(), AllocError>
    ensures { Adds out.old out.new (hexadecimal number) result }
{
    print_word(out, "0x")?;
    print_hexadecimal_digits(out, number)
}

fn print_octet_digits(out: &mut String, octet: u8) -> Result<(), AllocError>
    ensures { Adds out.old out.new (octet_digits octet) result }
{
    print_digit(out, u32::from(octet / 16))?;
    print_digit(out, u32::from(octet % 16))
}

/// Adds `0x` and the four hexadecimal digits of a number, in lower case.
#[tactic(auto, unfolding(spec_flow_text::specs::NumbersPrinted::hexadecimal4))]
pub fn print_hexadecimal4(out: &mut String, number: u16) -> Result<(), AllocError>
    ensures { Adds out.old out.new (hexadecimal4 number) result }
{
    print_word(out, "0x")?;
    print_octet_digits(out, (number / 256) as u8)?;
    print_octet_digits(out, (number % 256) as u8)
}

fn print_octet_after_colon(out: &mut String, octet: u8) -> Result<(), AllocError>
    ensures { Adds out.old out.new (colon ∷ octet_digits octet) result }
{
    print_word(out, ":")?;
    print_octet_digits(out, octet)
}

/// Adds an Ethernet address, the low 48 bits of a number: six octets of two hexadecimal digits in lower case, with
/// colons between them.
#[tactic(auto, unfolding(spec_flow_text::specs::NumbersPrinted::mac_text))]
pub fn print_mac(out: &mut String, address: u64) -> Result<(), AllocError>
    ensures { Adds out.old out.new (mac_text address) result }
{
    let [_, _, a, b, c, d, e, f] = address.to_be_bytes();
    print_octet_digits(out, a)?;
    print_octet_after_colon(out, b)?;
    print_octet_after_colon(out, c)?;
    print_octet_after_colon(out, d)?;
    print_octet_after_colon(out, e)?;
    print_octet_after_colon(out, f)
}

fn print_octet_after_dot(out: &mut String, octet: u8) -> Result<(), AllocError>
    ensures { Adds out.old out.new (dot ∷ decimal octet) result }
{
    print_word(out, ".")?;
    print_decimal(out, u128::from(octet))
}

/// Adds an IPv4 address in dotted decimal.
#[tactic(auto, unfolding(spec_flow_text::specs::NumbersPrinted::ipv4_text))]
pub fn print_ipv4(out: &mut String, address: u32) -> Result<(), AllocError>
    ensures { Adds out.old out.new (ipv4_text address) result }
{
    let [a, b, c, d] = address.to_be_bytes();
    print_decimal(out, u128::from(a))?;
    print_octet_after_dot(out, b)?;
    print_octet_after_dot(out, c)?;
    print_octet_after_dot(out, d)
}

// A group of an IPv6 address, counted from the last one.
fn print_group(out: &mut String, address: u128, place: u32) -> Result<(), AllocError>
    requires { place < 8 }
    ensures { Adds out.old out.new (hexadecimal_digits (group_at place address)) result }
{
    print_hexadecimal_digits(out, address / GROUP_BASE.pow(place) % GROUP_BASE)
}

fn print_group_after_colon(out: &mut String, address: u128, place: u32) -> Result<(), AllocError>
    requires { place < 8 }
    ensures { Adds out.old out.new (colon ∷ hexadecimal_digits (group_at place address)) result }
{
    print_word(out, ":")?;
    print_group(out, address, place)
}

/// Adds an IPv6 address: eight groups of hexadecimal digits in lower case, without leading zeros, with colons between
/// them. No `::` is written.
#[tactic(auto, unfolding(spec_flow_text::specs::NumbersPrinted::ipv6_text))]
pub fn print_ipv6(out: &mut String, address: u128) -> Result<(), AllocError>
    ensures { Adds out.old out.new (ipv6_text address) result }
{
    print_group(out, address, 7)?;
    print_group_after_colon(out, address, 6)?;
    print_group_after_colon(out, address, 5)?;
    print_group_after_colon(out, address, 4)?;
    print_group_after_colon(out, address, 3)?;
    print_group_after_colon(out, address, 2)?;
    print_group_after_colon(out, address, 1)?;
    print_group_after_colon(out, address, 0)
}

// The length of the prefix that has this mask.
fn ipv4_prefix_length(mask: u32) -> Option<u32>
    ensures { result ≡ prefix_length_of 32 mask }
{
    let mut length = 32;
    'lengths: while length > 0 {
        if ipv4_prefix(length) == mask {
            return Some(length);
        }
        length -= 1;
    }
    if mask == 0 { Some(0) } else { None }
}

fn ipv6_prefix_length(mask: u128) -> Option<u32>
    ensures { result ≡ prefix_length_of 128 mask }
{
    let mut length = 128;
    'lengths: while length > 0 {
        if ipv6_prefix(length) == mask {
            return Some(length);
        }
        length -= 1;
    }
    if mask == 0 { Some(0) } else { None }
}

/// Adds a mask of an IPv4 address: the length where it is that of a prefix, and else an address.
#[tactic(auto, unfolding(spec_flow_text::specs::NumbersPrinted::ipv4_mask_text))]
pub fn print_ipv4_mask(out: &mut String, mask: u32) -> Result<(), AllocError>
    ensures { Adds out.old out.new (ipv4_mask_text mask) result }
{
    match ipv4_prefix_length(mask) {
        Some(length) => print_decimal(out, u128::from(length)),
        None => print_ipv4(out, mask),
    }
}

/// Adds a mask of an IPv6 address: the length where it is that of a prefix, and else an address.
#[tactic(auto, unfolding(spec_flow_text::specs::NumbersPrinted::ipv6_mask_text))]
pub fn print_ipv6_mask(out: &mut String, mask: u128) -> Result<(), AllocError>
    ensures { Adds out.old out.new (ipv6_mask_text mask) result }
{
    match ipv6_prefix_length(mask) {
        Some(length) => print_decimal(out, u128::from(length)),
        None => print_ipv6(out, mask),
    }
}
