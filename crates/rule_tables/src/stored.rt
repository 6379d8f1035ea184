ghost use Rattle.std.specs.Prelude.{◌≡◌, ◌<◌, ◌≤◌, ◌^◌, length, map, count_by, None, vec_len, vec_capacity};
ghost use Rattle.std.specs.Option.{ForSome};
ghost use Rattle.rule_tables.specs.Ends.{with_ending, AreEnds};
ghost use Rattle.rule_tables.specs.RulePlaces.{room_in, ArePlaced};
ghost use Rattle.rule_tables.specs.Signed.{signature_in};
ghost use Rattle.rule_tables.specs.Stored.{acts_on, ended_by, with_end, signatures_in, IsWanted};

use crate::actions::Actions;
use crate::edit::Edit;
use crate::ending::Ending;
use crate::places::RulePlaces;
use crate::rule::Rule;
use crate::signatures::Signature;

/// What a modify made: after it the rules that its edit picks have the actions of the edit, and its cookie where it has
/// one.
#[derive(Drop)]
pub(crate) struct Modification {
    /// The number of the edit.
    pub(crate) number: u32,
    pub(crate) edit: Edit,
}

/// A rule with its actions as its edit added it, the end of its life, and where what it was given is told.
#[derive(Drop)]
pub(crate) struct StoredRule {
    pub(crate) rule: Rule,
    pub(crate) actions: Actions,
    /// The number of the edit that ended its life, if one did. The edit that began it is that of the rule's number.
    pub(crate) gone: Option<u32>,
    /// The place in the log of what it was given last, if it was given anything.
    pub(crate) given: Option<usize>,
}

impl StoredRule {
    ghost use Rattle.spec_tables.specs.Edits.{rule_of};
    ghost use Rattle.rule_tables.specs.Views.{rule_view};
    ghost use Rattle.rule_tables.specs.Stored.{is_given, is_alive};

    /// The rule that the edit of a number adds. It takes no memory.
    pub(crate) fn new(number: u32, edit: Edit) -> StoredRule
        ensures rule { rule_view result.rule result.actions ≡ rule_of number edit }
        ensures number { result.rule.number ≡ number }
        ensures gone { result.gone ≡ None }
        ensures given { result.given ≡ None }
    {
        StoredRule {
            rule: Rule {
                number,
                table: edit.table.unwrap_or(0),
                priority: edit.priority,
                cookie: edit.cookie.unwrap_or(0),
                matching: edit.matching,
            },
            actions: edit.actions,
            gone: None,
            given: None,
        }
    }

    /// Whether the rule is live after so many edits.
    pub(crate) fn is_live(&self, after: u32) -> bool
        ensures { result ≡ is_alive after self.now }
    {
        self.rule.number <= after
            && match self.gone {
                None => true,
                Some(gone) => after < gone,
            }
    }

    /// Whether an edit acts on the rule: it is live after the last edit, and this edit picks it.
    pub(crate) fn is_acted_on(&self, edit: &Edit) -> bool
        ensures { result ≡ acts_on edit.now self.now }
    {
        self.gone.is_none() && edit.picks(&self.rule)
    }

    /// The same, where the signature of each rule that the edit picks includes one, and the rule has this signature.
    pub(crate) fn is_found(&self, signature: &Signature, edit: &Edit, wanted: &Signature) -> bool
        ensures { signature.now ≡ signature_in self.now.rule → IsWanted wanted.now edit.now
            → result ≡ acts_on edit.now self.now }
    {
        signature.includes(wanted) && self.is_acted_on(edit)
    }

    /// Whether the rule has been given a modification by so many edits.
    pub(crate) fn is_given(&self, modification: &Modification, after: u32) -> bool
        ensures { result ≡ is_given after self.now modification.now }
    {
        self.rule.number < modification.number
            && modification.number <= after
            && modification.edit.picks(&self.rule)
    }
}

/// On how many rules an edit acts.
pub(crate) fn count_acted_on(rules: &[StoredRule], edit: &Edit, signatures: &[Signature]) -> usize
    requires { signatures.now ≡ signatures_in rules.now }
    ensures { result ≡ count_by (acts_on edit.now) rules.now }
{
    let wanted = edit.wanted();
    let mut count = 0;
    let mut place = 0;
    'rules: for stored in rules {
        if stored.is_found(&signatures[place], edit, &wanted) {
            count += 1;
        }
        place += 1;
    }
    count
}

/// Ends the life of the rule at a place, if there is one, and logs it. There is room for that.
pub(crate) fn end_rule(
    rules: &mut [StoredRule],
    ends: &mut Vec<Ending>,
    place: Option<u32>,
    gone: u32,
)
    requires within { ForSome place (λ i. i < length rules.old) }
    requires room { ForSome place (λ i. vec_len ends.old < vec_capacity ends.old) }
    ensures rules { rules.new ≡ with_end place gone rules.old }
    ensures ends { ends.new.items ≡ with_ending place gone ends.old.items }
    ensures capacity { vec_capacity ends.new ≡ vec_capacity ends.old }
{
    if let Some(place) = place {
        rules[place as usize].gone = Some(gone);
        ends.push_reserved(Ending { place, edit: gone });
    }
}

/// Ends the lives of the rules that an edit acts on, logs that, gives up their places, and answers how many they are. There
/// is room for the ends of all lives.
pub(crate) fn end_rules(
    rules: &mut [StoredRule],
    places: &mut RulePlaces,
    ends: &mut Vec<Ending>,
    edit: &Edit,
    gone: u32,
    signatures: &[Signature],
) -> usize
    requires placed { ArePlaced places.old rules.old }
    requires signed { signatures.now ≡ signatures_in rules.old }
    requires ended { AreEnds ends.old.items rules.old gone }
    requires few { length rules.old < 2 ^ 32 }
    requires room { length rules.old ≤ vec_capacity ends.old }
    ensures rules { rules.new ≡ map (ended_by edit.now gone) rules.old }
    ensures ended { AreEnds ends.new.items rules.new gone }
    ensures capacity { vec_capacity ends.new ≡ vec_capacity ends.old }
    ensures placed { ArePlaced places.new rules.new }
    ensures spare { room_in places.old ≤ room_in places.new }
    ensures count { result ≡ count_by (acts_on edit.now) rules.old }
{
    let wanted = edit.wanted();
    let mut count = 0;
    let mut place = 0;
    'rules: for stored in rules.iter_mut() {
        if stored.is_found(&signatures[place], edit, &wanted) {
            places.remove(&stored.rule, place as u32);
            stored.gone = Some(gone);
            ends.push_reserved(Ending {
                place: place as u32,
                edit: gone,
            });
            count += 1;
        }
        place += 1;
    }
    count
}
