//! What a lookup in the tables of the last version found.
ghost use Rattle.std.specs.Prelude.{◌≡◌, None, MatchOption};
ghost use Rattle.std.specs.Option.{option_map};
ghost use Rattle.spec_tables.specs.Rules.{rules_in, winner};
ghost use Rattle.ovs_fields.specs.Packed.{numbers};
ghost use Rattle.dump_lines.specs.Live.{live_in};
ghost use Rattle.pipe_model.specs.Runnable.{AreRunnable};
ghost use Rattle.pipe_model.specs.Winning.{IsWinner};

use ovs_fields::Key;
use pipe_model::Found;
use rule_tables::VersionedRules;

/// The rule that a scan for a key in a table of the last version found, with its actions.
pub fn found<'a>(
    rules: &'a VersionedRules,
    table: u8,
    key: &Key,
    won: Option<u32>,
) -> Option<Found<'a>>
    requires runnable { AreRunnable (live_in rules.now) }
    requires winner { won ≡ option_map (λ r. r.number) (winner (rules_in table (live_in rules.now)) (numbers key.now)) }
    ensures { let rules = rules_in table (live_in rules.now) in
        MatchOption result (winner rules (numbers key.now) ≡ None)
        (λ found. IsWinner rules (numbers key.now) found.number found.actions.now) }
{
    // The contract alone speaks of them.
    let _ = table;
    let _ = key;
    match won {
        None => None,
        Some(number) => Some(Found {
            number,
            actions: rules.actions(rules.version(), number),
        }),
    }
}
