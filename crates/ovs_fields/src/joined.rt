//! Numbers joined to words, as they are fed to hash functions.
ghost use Rattle.std.specs.Prelude.{◌≡◌, ◌+◌, ◌*◌, ◌^◌};
ghost use Rattle.ovs_fields.specs.Feeding.{joined_words};

/// Both numbers in one, the first in its higher half.
#[inline]
pub fn join_8(high: u8, low: u8) -> u16
    ensures { result ≡ joined_words 8 high low }
{
    u16::from(high) * (1 << 8) + u16::from(low)
}

/// Both numbers in one, the first in its higher half.
#[inline]
pub fn join_16(high: u16, low: u16) -> u32
    ensures { result ≡ joined_words 16 high low }
{
    u32::from(high) * (1 << 16) + u32::from(low)
}

/// Both numbers in one, the first in its higher half.
#[inline]
pub fn join_32(high: u32, low: u32) -> u64
    ensures { result ≡ joined_words 32 high low }
{
    u64::from(high) * (1 << 32) + u64::from(low)
}

/// Both numbers in one, the first in its higher half.
#[inline]
pub fn join_64(high: u64, low: u64) -> u128
    ensures { result ≡ joined_words 64 high low }
{
    u128::from(high) * (1 << 64) + u128::from(low)
}
