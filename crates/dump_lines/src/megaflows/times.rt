ghost use Rattle.std.specs.Prelude.{◌≡◌, ◌<◌, ◌≤◌, ◌-◌, ◌/◌, ◌%◌, ◌^◌, ◌++◌, [], ◌∷◌, map, OnOk, OnErr, string_bytes};
ghost use Rattle.std.specs.Char.{digit_char};
ghost use Rattle.spec_run.specs.Megaflows.{nanoseconds_text, time_text};
ghost use Rattle.text_numbers.specs.Added.{Adds};

use std::alloc::AllocError;
use text_numbers::{print_decimal, print_word};

// A second in nanoseconds.
const SECOND: u64 = 1_000_000_000;

const TEN: u32 = 10;

// The digit at a place of a part of a second, counted from the last one.
fn print_digit_at(out: &mut String, place: u32, nanoseconds: u64) -> Result<(), AllocError>
    requires { place < 9 }
    ensures { Adds out.old out.new (digit_char (nanoseconds / 10 ^ place % 10) ∷ []) result }
{
    let digit = nanoseconds / u64::from(TEN).pow(place) % u64::from(TEN);
    out.push(char::from_digit(digit as u32, TEN).unwrap())
}

// The digits at a place and at the two behind it.
fn print_three_digits(out: &mut String, place: u32, nanoseconds: u64) -> Result<(), AllocError>
    requires within { 2 ≤ place }
    requires below { place < 9 }
    ensures { Adds out.old out.new
        (map (λ p. digit_char (nanoseconds / 10 ^ p % 10)) (place ∷ (place - 1) ∷ (place - 2) ∷ [])) result }
{
    print_digit_at(out, place, nanoseconds)?;
    print_digit_at(out, place - 1, nanoseconds)?;
    print_digit_at(out, place - 2, nanoseconds)
}

// The nine digits of a part of a second.
fn print_nanoseconds(out: &mut String, nanoseconds: u64) -> Result<(), AllocError>
    ensures { Adds out.old out.new (nanoseconds_text nanoseconds) result }
{
    print_three_digits(out, 8, nanoseconds)?;
    print_three_digits(out, 5, nanoseconds)?;
    print_three_digits(out, 2, nanoseconds)
}

/// Adds a time in nanoseconds: its seconds, and the nine digits of the part of a second.
pub fn print_time(out: &mut String, time: u64) -> Result<(), AllocError>
    ensures { Adds out.old out.new (time_text time) result }
{
    print_decimal(out, u128::from(time / SECOND))?;
    print_word(out, ".")?;
    print_nanoseconds(out, time % SECOND)
}
