ghost use Rattle.std.specs.Prelude.{◌≡◌, ◌≤◌, ◌-◌, ◌^◌};
ghost use Rattle.spec_base.specs.Bits.{leading_bits};
ghost use Rattle.spec_xlate.specs.Lookup as xlate;

/// The k least bits.
fn low_ones(k: u32) -> u128
    requires { k ≤ 128 }
    ensures { result ≡ 2 ^ k - 1 }
{
    if k == 0 { 0 } else { u128::MAX >> (128 - k) }
}

/// The n leading bits of a number of a width.
pub(crate) fn leading(width: u32, n: u32) -> u128
    requires within { n ≤ width }
    requires wide { width ≤ 128 }
    ensures { result ≡ leading_bits width n }
{
    low_ones(width) - low_ones(width - n)
}

/// The length of the prefix that these bits are, or 0.
#[tactic(auto, unfolding(spec_xlate::specs::Lookup::length_up_to))]
pub(crate) fn prefix_length(width: u32, bits: u128) -> u32
    requires { width ≤ 128 }
    ensures length { result ≡ xlate.prefix_length width bits }
    ensures within { result ≤ width }
{
    if bits == 0 {
        return 0;
    }
    let mut length = 0;
    for n in 0..width {
        if bits == leading(width, n + 1) {
            length = n + 1;
        }
    }
    length
}
