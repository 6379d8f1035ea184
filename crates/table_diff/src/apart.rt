//! Whether a packet meets no rule that was changed, and for which other packets that holds.
ghost use Rattle.std.specs.Prelude.{◌≡◌, ℕ, List, true, false, map, IsTrue, IfSome};
ghost use Rattle.spec_keys.specs.Keys.{agree, overlap, IsClean};
ghost use Rattle.spec_tables.specs.Rules as tables;
ghost use Rattle.spec_tools.specs.Classes.{IsFrameKey};
ghost use Rattle.table_laws.specs.Members.{Among};
ghost use Rattle.ovs_fields.specs.Packed.{numbers, bits};
ghost use Rattle.rule_tables.specs.Views.{match_view};
ghost use Rattle.rule_changes.specs.Changes.{IsApart};

use crate::choosing::add_difference;
use crate::cube::Cube;
use ovs_fields::{Key, Mask, agree, and};
use rule_changes::Changes;
use rule_tables::Match;
use xlate_pipeline::without_registers;

/// Adds a bit of those that are kept by which a packet differs from a match, where none is there, and answers whether
/// there is one.
fn tell(mask: &mut Mask, key: &Key, matching: &Match, kept: &Mask) -> bool {
    let stated = and(&matching.mask, kept);
    if agree(key, &matching.key, &stated) {
        return false;
    }
    if agree(key, &matching.key, &and(mask, &stated)) {
        add_difference(mask, key, &matching.key, &stated);
    }
    true
}

/// Bits that may tell a packet of a cube apart from all changed rules, if there are such.
fn proposed(changes: &Changes, cube: &Cube) -> Option<Mask> {
    let mut mask = cube.mask;
    'matches: for matching in &changes.aside {
        if !tell(&mut mask, &cube.key, matching, &changes.kept) {
            return None;
        }
    }
    Some(mask)
}

/// Whether bits tell a packet apart from all of these matches.
fn tells_apart(key: &Key, told: &Mask, aside: &[Match]) -> bool
    ensures { result ≡ true → (m : tables.Match) → Among m (map match_view aside.now)
        → overlap (numbers key.now) (bits told.now) m.key m.mask ≡ false }
{
    'matches: for matching in aside {
        if agree(key, &matching.key, &and(told, &matching.mask)) {
            return false;
        }
    }
    true
}

/// Bits by which all packets that have them too meet no changed rule, if there are such.
pub(crate) fn apart(changes: &Changes, cube: &Cube) -> Option<Mask>
    ensures apart { IfSome result (λ mask. (key : List ℕ) → IsFrameKey key
        → IsTrue (agree key (numbers cube.now.key) (bits mask)) → IsApart changes.now key) }
    ensures clean { IfSome result (λ mask. IsClean (bits mask)) }
{
    let mask = proposed(changes, cube)?;
    if !tells_apart(&cube.key, &and(&mask, &changes.kept), &changes.aside) {
        return None;
    }
    Some(without_registers(&mask))
}
