ghost use Rattle.std.specs.Prelude.{◌≡◌, Ok, length as count};
ghost use Rattle.spec_keys.specs.Keys.{IsKey};
ghost use Rattle.ovs_fields.specs.Packed.{numbers};
ghost use Rattle.spec_frames.specs.Key.{key_of};
ghost use Rattle.spec_case.specs.Run.{frame_at};
ghost use Rattle.spec_case.specs.Blocks.{block_of};
ghost use Rattle.run_case.specs.Places.{HasPort, HasPlace};

use crate::case::Case;
use ovs_fields::Key;
use std::alloc::AllocError;
use std::marker::PhantomData;

/// A frame of the run, and what its bytes and its trace say of it.
///
/// Its type keeps that it is a frame of the run, with the key, length, time and block of that frame, and that the key is
/// within the widths of the fields.
pub struct Keyed<C: Case> {
    /// The ingress port.
    pub port: u16,
    /// The place in that port's trace, from 1.
    pub place: u32,
    pub key: Key,
    /// How many bytes were captured, at most 262,144.
    pub length: u32,
    /// Nanoseconds since the beginning of 1970 (UTC).
    pub time: u64,
    /// The block of the place, from 0.
    pub block: u32,
    pub(crate) of: PhantomData<C>,
    pub ghost has_port: { HasPort C.run.ports port },
    pub ghost has_place: { HasPlace C.run port place },
    pub ghost key_is: { numbers key ≡ key_of port (frame_at C.run port place).bytes },
    pub ghost has_key: { IsKey (key_of port (frame_at C.run port place).bytes) },
    pub ghost length_is: { length ≡ count (frame_at C.run port place).bytes },
    pub ghost time_is: { time ≡ (frame_at C.run port place).time },
    pub ghost block_is: { block ≡ block_of C.run port place },
}

impl<C: Case> Clone for Keyed<C> {
    fn clone(&self) -> Result<Keyed<C>, AllocError>
        ensures { result ≡ Ok self.now }
    {
        Ok(*self)
    }
}

impl<C: Case> Copy for Keyed<C> {}
