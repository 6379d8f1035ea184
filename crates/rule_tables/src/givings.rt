ghost use Rattle.std.specs.Prelude.{◌≡◌, ◌+◌, ◌<◌, ◌≤◌, true, Some, is_some, if◌then◌else◌, [], ◌∷◌, ◌++◌, length, count_by, vec_len, vec_capacity};
ghost use Rattle.std.specs.List.{fold};
ghost use Rattle.std.specs.Option.{option_map, ForSome};
ghost use Rattle.rule_tables.specs.Stored.{is_modify, acts_on, actions_in, cookie_in, last_given, given_cookie, later_given, is_alive, signatures_in, AreApart};
ghost use Rattle.rule_tables.specs.RulePlaces.{ArePlaced};
ghost use Rattle.rule_tables.specs.Givings.{is_place, most_givings, IsLedTo, AreGiven, IsLogOf, IsLogged};

use crate::edit::Edit;
use crate::places::RulePlaces;
use crate::signatures::Signature;
use crate::stored::{Modification, StoredRule};
use spec_actions::OfAction;
use spec_tables::EditWord;
use std::alloc::Global;

/// The most givings of a log, which take 24 MB. A bundle can make many times as many before anyone counts.
const MOST_GIVINGS: usize = 1_048_576;

/// That a rule was given a modification.
#[derive(Clone, Copy)]
pub(crate) struct Giving {
    /// The place of the modification.
    pub(crate) modification: usize,
    /// The place in the log of what the same rule was given before, if it was given anything.
    pub(crate) before: Option<usize>,
}

/// What rules were given of the first modifications, in the order of these.
#[derive(Drop)]
pub(crate) struct GivingLog {
    pub(crate) givings: Vec<Giving>,
    /// How many modifications it tells of. Those past them are tested one by one.
    pub(crate) modifications: usize,
}

impl GivingLog {
    /// A log that tells of none. It takes no memory.
    pub(crate) fn new(alloc: Global) -> GivingLog
        ensures givings { result.givings.items ≡ [] }
        ensures len { vec_len result.givings ≡ 0 }
        ensures modifications { result.modifications ≡ 0 }
    {
        GivingLog {
            givings: Vec::new(alloc),
            modifications: 0,
        }
    }

    /// Gives the modification of an edit, which comes next to others, to the rules that it acts on, of which there are so
    /// many. Where the log doesn't tell of all the others, or has no room, it doesn't tell of this one either.
    pub(crate) fn give(
        &mut self,
        rules: &mut [StoredRule],
        places: &RulePlaces,
        edit: &Edit,
        others: &[Modification],
        count: usize,
        signatures: &[Signature],
    )
        requires modify { is_modify edit.now.word ≡ true }
        requires placed { ArePlaced places.now rules.old }
        requires apart { AreApart rules.old }
        requires count { count ≡ count_by (acts_on edit.now) rules.old }
        requires few { vec_len self.old.givings ≤ most_givings }
        requires signed { signatures.now ≡ signatures_in rules.old }
        ensures { IsLogged edit.now (length others.now) self.old self.new rules.old rules.new }
    {
        let place = others.len();
        if self.modifications != place {
            return;
        }
        if !has_room(&mut self.givings, count) {
            return;
        }
        give_modification(rules, places, &mut self.givings, edit, place, signatures);
        self.modifications = place + 1;
    }
}

/// Takes the memory for as many more givings, and tells whether the log may have them and there is as much.
fn has_room(givings: &mut Vec<Giving>, count: usize) -> bool
    requires { vec_len givings.old ≤ most_givings }
    ensures items { givings.new.items ≡ givings.old.items }
    ensures len { vec_len givings.new ≡ vec_len givings.old }
    ensures few { result ≡ true → vec_len givings.new + count ≤ most_givings }
    ensures room { result ≡ true → vec_len givings.new + count ≤ vec_capacity givings.new }
{
    if MOST_GIVINGS - givings.len() < count {
        return false;
    }
    givings.reserve(count).is_ok()
}

/// The cookie that a rule has after so many edits, after which it is live.
pub(crate) fn cookie_in(
    stored: &StoredRule,
    log: &GivingLog,
    modifications: &[Modification],
    after: u32,
) -> u64
    requires live { is_alive after stored.now ≡ true }
    requires given { IsLogOf log.now modifications.now stored.now }
    ensures { result ≡ cookie_in modifications.now after stored.now }
{
    let (logged, others) = modifications.split_at(log.modifications);
    let cookie = logged_cookie(stored, &log.givings, logged, after);
    later_cookie(stored, cookie, others, after)
}

/// The actions that a rule has after so many edits, after which it is live.
pub(crate) fn actions_in<'a>(
    stored: &'a StoredRule,
    log: &GivingLog,
    modifications: &'a [Modification],
    after: u32,
) -> &'a [OfAction]
    requires live { is_alive after stored.now ≡ true }
    requires given { IsLogOf log.now modifications.now stored.now }
    ensures { result.now ≡ actions_in modifications.now after stored.now }
{
    match last_given(stored, log, modifications, after) {
        Some(modification) => modification.edit.actions.as_slice(),
        None => stored.actions.as_slice(),
    }
}

/// The last of the modifications that a rule was given by so many edits, after which it is live.
fn last_given<'a>(
    stored: &StoredRule,
    log: &GivingLog,
    modifications: &'a [Modification],
    after: u32,
) -> Option<&'a Modification>
    requires live { is_alive after stored.now ≡ true }
    requires given { IsLogOf log.now modifications.now stored.now }
    ensures { option_map (λ m. m.now) result ≡ last_given modifications.now after stored.now }
{
    let (logged, others) = modifications.split_at(log.modifications);
    let last = last_logged(stored, &log.givings, logged, after);
    later_given(stored, last, others, after)
}

/// The cookie by the modifications of which the log tells.
fn logged_cookie(
    stored: &StoredRule,
    givings: &[Giving],
    modifications: &[Modification],
    after: u32,
) -> u64
    requires live { is_alive after stored.now ≡ true }
    requires given { IsLedTo givings.now modifications.now stored.now }
    ensures { result ≡ cookie_in modifications.now after stored.now }
{
    let mut next = stored.given;
    'back: while let Some(place) = next {
        let giving = givings[place];
        let modification = &modifications[giving.modification];
        if modification.number <= after {
            if let Some(cookie) = modification.edit.cookie {
                return cookie;
            }
        }
        next = giving.before;
    }
    stored.rule.cookie
}

/// The last one of those of which the log tells.
fn last_logged<'a>(
    stored: &StoredRule,
    givings: &[Giving],
    modifications: &'a [Modification],
    after: u32,
) -> Option<&'a Modification>
    requires live { is_alive after stored.now ≡ true }
    requires given { IsLedTo givings.now modifications.now stored.now }
    ensures { option_map (λ m. m.now) result ≡ last_given modifications.now after stored.now }
{
    let mut next = stored.given;
    'back: while let Some(place) = next {
        let giving = givings[place];
        let modification = &modifications[giving.modification];
        if modification.number <= after {
            return Some(modification);
        }
        next = giving.before;
    }
    None
}

/// The cookie past these modifications too, where it was this one before them.
fn later_cookie(stored: &StoredRule, before: u64, modifications: &[Modification], after: u32) -> u64
    ensures { result ≡ fold (given_cookie after stored.now) before modifications.now }
{
    let mut cookie = before;
    'modifications: for modification in modifications {
        if stored.is_given(modification, after) {
            cookie = modification.edit.cookie.unwrap_or(cookie);
        }
    }
    cookie
}

/// The last one past these modifications too, where it was this one before them.
fn later_given<'a>(
    stored: &StoredRule,
    before: Option<&'a Modification>,
    modifications: &'a [Modification],
    after: u32,
) -> Option<&'a Modification>
    ensures { option_map (λ m. m.now) result ≡ fold (later_given after stored.now) (option_map (λ m. m.now) before.entry) modifications.now }
{
    let mut last = before;
    'modifications: for modification in modifications {
        if stored.is_given(modification, after) {
            last = Some(modification);
        }
    }
    last
}

/// Gives a modification to the rules that its edit acts on. There is room in the log for as many.
pub(crate) fn give_modification(
    rules: &mut [StoredRule],
    places: &RulePlaces,
    givings: &mut Vec<Giving>,
    edit: &Edit,
    modification: usize,
    signatures: &[Signature],
)
    requires modify { is_modify edit.now.word ≡ true }
    requires placed { ArePlaced places.now rules.old }
    requires apart { AreApart rules.old }
    requires room { vec_len givings.old + count_by (acts_on edit.now) rules.old ≤ vec_capacity givings.old }
    requires signed { signatures.now ≡ signatures_in rules.old }
    ensures given { AreGiven (λ i. acts_on edit.now) modification givings.old.items givings.new.items
        rules.old rules.new }
    ensures count { vec_len givings.new ≡ vec_len givings.old + count_by (acts_on edit.now) rules.old }
{
    match edit.word {
        EditWord::Modify => give_to_each(rules, givings, edit, modification, signatures),
        _ => {
            let place = places.find(rules, edit);
            give_to(rules, givings, place, modification);
        }
    }
}

/// Notes that a rule was given a modification. There is room for it.
fn give(stored: &mut StoredRule, givings: &mut Vec<Giving>, modification: usize)
    requires { vec_len givings.old < vec_capacity givings.old }
    ensures rule { stored.new ≡ record stored.old { given = Some (length givings.old.items) } }
    ensures items { givings.new.items
        ≡ givings.old.items ++ (record { modification = modification; before = stored.old.given }) ∷ [] }
    ensures len { vec_len givings.new ≡ vec_len givings.old + 1 }
    ensures capacity { vec_capacity givings.new ≡ vec_capacity givings.old }
{
    let place = givings.len();
    let before = stored.given;
    givings.push_reserved(Giving {
        modification,
        before,
    });
    stored.given = Some(place);
}

/// Gives a modification to the rule at a place, if there is one.
fn give_to(
    rules: &mut [StoredRule],
    givings: &mut Vec<Giving>,
    place: Option<u32>,
    modification: usize,
)
    requires within { ForSome place (λ i. i < length rules.old) }
    requires room { ForSome place (λ i. vec_len givings.old < vec_capacity givings.old) }
    ensures given { AreGiven (λ i s. is_place place i) modification givings.old.items givings.new.items
        rules.old rules.new }
    ensures count { vec_len givings.new ≡ vec_len givings.old + (if is_some place then 1 else 0) }
{
    if let Some(place) = place {
        give(&mut rules[place as usize], givings, modification);
    }
}

/// Gives a modification to the rules that its edit acts on.
fn give_to_each(
    rules: &mut [StoredRule],
    givings: &mut Vec<Giving>,
    edit: &Edit,
    modification: usize,
    signatures: &[Signature],
)
    requires room { vec_len givings.old + count_by (acts_on edit.now) rules.old ≤ vec_capacity givings.old }
    requires signed { signatures.now ≡ signatures_in rules.old }
    ensures given { AreGiven (λ i. acts_on edit.now) modification givings.old.items givings.new.items
        rules.old rules.new }
    ensures count { vec_len givings.new ≡ vec_len givings.old + count_by (acts_on edit.now) rules.old }
{
    let wanted = edit.wanted();
    let mut place = 0;
    'rules: for stored in rules.iter_mut() {
        if stored.is_found(&signatures[place], edit, &wanted) {
            give(stored, givings, modification);
        }
        place += 1;
    }
}
