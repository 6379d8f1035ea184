//! A law of masks that decide translations, as the contract of a function that does nothing.
ghost use Rattle.std.specs.Prelude.{◌≡◌, List, ℕ, IsTrue};
ghost use Rattle.spec_keys.specs.Fields.{register_fields};
ghost use Rattle.spec_keys.specs.Keys.{agree, IsKey, IsClean};
ghost use Rattle.spec_xlate.specs.Translation.{Switch};
ghost use Rattle.spec_xlate.specs.Consulted.{without};
ghost use Rattle.spec_tools.specs.Classes.{done};
ghost use Rattle.table_diff.specs.Deciding.{tells_all};

/// A mask that decides each step of a translation decides it for every frame whose key agrees on the mask, but for
/// registers.
pub fn deciding_mask_is_sound()
    ensures { (sw : Switch) (a b mask : List ℕ)
        → IsKey a → IsKey b → IsClean a → IsClean b
        → IsTrue (tells_all mask sw a) → IsTrue (agree b a (without register_fields mask)) → done sw b ≡ done sw a }
{}
