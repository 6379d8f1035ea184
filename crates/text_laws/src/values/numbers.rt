ghost use Rattle.std.specs.Prelude.{◌≡◌, ℕ, ◌^◌, ◌<◌, ◌≤◌, Some};
ghost use Rattle.std.specs.Fmt.{decimal};
ghost use Rattle.spec_flow_text.specs.Numbers.{number_upto};
ghost use Rattle.spec_flow_text.specs.NumbersPrinted.{hexadecimal, hexadecimal4};

/// A number of 128 bits that is printed in decimal reads back, where it is within the limit.
pub fn decimal_reads_back()
    ensures { (most n : ℕ) → n ≤ most → n < 2 ^ 128 → number_upto most (decimal n) ≡ Some n }
{}

/// A number of 128 bits that is printed in hexadecimal digits reads back, where it is within the limit.
pub fn hexadecimal_reads_back()
    ensures { (most n : ℕ) → n ≤ most → n < 2 ^ 128 → number_upto most (hexadecimal n) ≡ Some n }
{}

/// A number of 16 bits that is printed in four hexadecimal digits reads back, where it is within the limit.
pub fn hexadecimal4_reads_back()
    ensures { (most n : ℕ) → n ≤ most → n < 2 ^ 16 → number_upto most (hexadecimal4 n) ≡ Some n }
{}
