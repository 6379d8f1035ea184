ghost use Rattle.std.specs.Prelude.{◌≡◌, ℕ, ◌^◌, ◌<◌, true};
ghost use Rattle.std.specs.List.{list_all};
ghost use Rattle.std.specs.Fmt.{decimal};
ghost use Rattle.spec_flow_text.specs.Characters.{is_value_character};
ghost use Rattle.spec_flow_text.specs.NumbersPrinted.{hexadecimal, hexadecimal4, mac_text, ipv4_text, ipv6_text, ipv4_mask_text, ipv6_mask_text};

/// A printed number has digits and letters alone.
pub fn numbers_have_value_characters()
    ensures decimal { (n : ℕ) → n < 2 ^ 128 → list_all is_value_character (decimal n) ≡ true }
    ensures hexadecimal { (n : ℕ) → n < 2 ^ 128 → list_all is_value_character (hexadecimal n) ≡ true }
    ensures hexadecimal4 { (n : ℕ) → n < 2 ^ 16 → list_all is_value_character (hexadecimal4 n) ≡ true }
{}

/// A printed address has digits, letters, colons and dots alone.
pub fn addresses_have_value_characters()
    ensures mac { (n : ℕ) → list_all is_value_character (mac_text n) ≡ true }
    ensures ipv4 { (n : ℕ) → list_all is_value_character (ipv4_text n) ≡ true }
    ensures ipv6 { (n : ℕ) → list_all is_value_character (ipv6_text n) ≡ true }
{}

/// So has a printed mask of an address.
pub fn masks_have_value_characters()
    ensures ipv4 { (mask : ℕ) → list_all is_value_character (ipv4_mask_text mask) ≡ true }
    ensures ipv6 { (mask : ℕ) → list_all is_value_character (ipv6_mask_text mask) ≡ true }
{}
