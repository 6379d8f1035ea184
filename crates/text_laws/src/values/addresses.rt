ghost use Rattle.std.specs.Prelude.{◌≡◌, ℕ, ◌^◌, ◌<◌, Some};
ghost use Rattle.spec_flow_text.specs.Numbers.{mac};
ghost use Rattle.spec_flow_text.specs.Addresses.{ipv4, ipv6, ipv4_mask, ipv6_mask};
ghost use Rattle.spec_flow_text.specs.NumbersPrinted.{mac_text, ipv4_text, ipv6_text, ipv4_mask_text, ipv6_mask_text};

/// A printed Ethernet address reads back.
pub fn mac_reads_back()
    ensures { (n : ℕ) → n < 2 ^ 48 → mac (mac_text n) ≡ Some n }
{}

/// A printed IPv4 address reads back.
pub fn ipv4_reads_back()
    ensures { (n : ℕ) → n < 2 ^ 32 → ipv4 (ipv4_text n) ≡ Some n }
{}

/// A printed IPv6 address reads back.
pub fn ipv6_reads_back()
    ensures { (n : ℕ) → n < 2 ^ 128 → ipv6 (ipv6_text n) ≡ Some n }
{}

/// A printed mask of an IPv4 address reads back, whether it is a prefix or not.
pub fn ipv4_mask_reads_back()
    ensures { (mask : ℕ) → mask < 2 ^ 32 → ipv4_mask (ipv4_mask_text mask) ≡ Some mask }
{}

/// A printed mask of an IPv6 address reads back, whether it is a prefix or not.
pub fn ipv6_mask_reads_back()
    ensures { (mask : ℕ) → mask < 2 ^ 128 → ipv6_mask (ipv6_mask_text mask) ≡ Some mask }
{}
