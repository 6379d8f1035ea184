//! Rules, edits and versions of the flow tables, after ovs-ofctl(8).
//!
//! A *rule* has a match, a priority and actions, and stands in a table. *Edits* add, change and remove rules, and a rule
//! has the number of the edit that added it. A *bundle* is one edit or more that become true together: version v of the
//! tables is what the edits of the first v bundles make of none.
//!
//! - `Rules`: matches, rules, and the *winner* of a table for a key: the matching rule of the greatest priority, of
//!   equal ones that of the least number.
//! - `Edits`: what each kind of edit does, and the rules after some of them.
//! - `Bundles`: the versions.
//! - `Live`: a rule by its number, as it was added and in a version.
//! - `Changes`: how many rules edits change.
//! - `SyncPoint`: a time that stands between two bundles.
#![tactic(auto)]

mod edit_word;
mod sync_point;

pub use edit_word::EditWord;
pub use sync_point::SyncPoint;
