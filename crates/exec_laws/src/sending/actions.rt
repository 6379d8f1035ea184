ghost use Rattle.std.specs.Prelude.{◌≡◌, ℕ, IsTrue, List, All};
ghost use Rattle.spec_keys.specs.Keys.{IsKey};
ghost use Rattle.spec_actions.specs.Sound.{AreSound};
ghost use Rattle.spec_xlate.specs.Translation.{Switch, pipe};
ghost use Rattle.table_laws.specs.Applied.{is_proper};
ghost use Rattle.exec_laws.specs.Become.{HasTagTypes, outputs_of};
ghost use Rattle.exec_laws.specs.Outputs.{translation_outputs};
ghost use Rattle.exec_laws.specs.Made.{KeepsTheRest, IsMadeOf, PushTags, is_way_out};

/// The datapath actions of a translation are those of its outputs in order, each after a commit of the key that is then
/// the current one, from the key of the output before it and at first from the packet's. They are none where the
/// translation ended as a whole. This holds of any rules, sound or not, of any key, and under every limit.
pub fn each_output_follows_a_commit()
    ensures { (sw : Switch) (key : List ℕ) → (pipe sw key).actions ≡ outputs_of key (translation_outputs sw key) }
{}

/// Each output of a translation has a key that flow actions can make of the packet's, where the rules push tags of the types
/// that tags have: one within the widths of the fields, whose tags are proper and of such types, with the packet's values in
/// what no action can write for such a packet. The rules need not be sound in anything else. Of any rules it holds that tags
/// are proper, that those values stay, and that an output goes out at a port of the switch, or at the one where the packet
/// came in.
pub fn outputs_are_made_of_the_packet()
    ensures keys { (sw : Switch) (key : List ℕ) → PushTags sw → IsKey key → IsTrue (is_proper key) → HasTagTypes key
        → All (λ o. IsMadeOf key o.key) (translation_outputs sw key) }
    ensures tags { (sw : Switch) (key : List ℕ) → IsKey key → IsTrue (is_proper key)
        → All (λ o. IsTrue (is_proper o.key)) (translation_outputs sw key) }
    ensures others { (sw : Switch) (key : List ℕ) → IsKey key → IsTrue (is_proper key)
        → All (λ o. KeepsTheRest key o.key) (translation_outputs sw key) }
    ensures ports { (sw : Switch) (key : List ℕ) → IsKey key → IsTrue (is_proper key)
        → All (λ o. IsTrue (is_way_out sw key o.port)) (translation_outputs sw key) }
{}

/// Sound rules push tags of the types that tags have.
pub fn sound_rules_push_tags()
    ensures { (sw : Switch) → ((table : ℕ) → All (λ r. AreSound r.actions) (sw.tables table)) → PushTags sw }
{}
