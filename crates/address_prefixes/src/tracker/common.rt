ghost use Rattle.std.specs.Prelude.{◌≡◌, ◌≤◌, ◌<◌, ◌^◌};
ghost use Rattle.address_prefixes.specs.Prefixes.{in_common};

/// How many leading bits two numbers of a width have in common.
pub(crate) fn in_common(width: u32, x: u128, y: u128) -> u32
    requires wide { width ≤ 128 }
    requires x { x < 2 ^ width }
    requires y { y < 2 ^ width }
    ensures { result ≡ in_common width x y }
{
    let from_first_difference = u128::BITS - (x ^ y).leading_zeros();
    width - from_first_difference
}
