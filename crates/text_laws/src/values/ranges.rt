ghost use Rattle.std.specs.Prelude.{◌≡◌, ℕ, ◌^◌, ◌<◌, ◌≤◌, List, Some};
ghost use Rattle.spec_flow_text.specs.Numbers.{number_upto, mac};
ghost use Rattle.spec_flow_text.specs.Addresses.{ipv4, ipv6, ipv4_mask, ipv6_mask};

/// A number that is read is within the limit.
pub fn numbers_are_within()
    ensures { (most : ℕ) (text : List ℕ) (n : ℕ) → number_upto most text ≡ Some n → n ≤ most }
{}

/// An address that is read has the bits of its kind: 48 for Ethernet, 32 for IPv4, 128 for IPv6.
pub fn addresses_are_within()
    ensures mac { (text : List ℕ) (n : ℕ) → mac text ≡ Some n → n < 2 ^ 48 }
    ensures ipv4 { (text : List ℕ) (n : ℕ) → ipv4 text ≡ Some n → n < 2 ^ 32 }
    ensures ipv6 { (text : List ℕ) (n : ℕ) → ipv6 text ≡ Some n → n < 2 ^ 128 }
{}

/// So has a mask of an IP address.
pub fn masks_are_within()
    ensures ipv4 { (text : List ℕ) (mask : ℕ) → ipv4_mask text ≡ Some mask → mask < 2 ^ 32 }
    ensures ipv6 { (text : List ℕ) (mask : ℕ) → ipv6_mask text ≡ Some mask → mask < 2 ^ 128 }
{}
