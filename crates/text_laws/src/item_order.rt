//! The law that the order of a flow's items counts for nothing, above the grammar of `spec_flow_text`: the contract of a
//! function that does nothing, so that to call it is to have its facts.
//!
//! # What is promised
//!
//! - A line in which two items that stand side by side change places is read alike: the same match, table, priority and
//!   cookie, and a list of actions from the same place on (`order_of_items_changes_nothing`). One separator stands
//!   between them, and at least one in front of the first and behind the second; each stays where it is. Any other order
//!   of such items is one of such changes after another.
//! - So either order is a fault, or neither is. Which fault it is depends on the order: that of the first bad item, at its
//!   column. `Rows` has a line that shows it.
//!
//! The list of actions itself is no such item (`PlainItems.is_item`): what stands after `actions=` belongs to the list. Nor
//! is a text that is empty, or that has a separator or a number sign in it.
//!
//! # How
//!
//! What an item does depends on its text alone: it adds parts to those that were stated, or it gives a number that was not
//! given before (`Effects`). Whether a part repeats a bit of another goes both ways, so that either order of two items is
//! read where one is. The parts of the second order are those of the first in another order, and a match is made of its
//! parts by an or of their bits (`SwappedParts`).
//!
//! # What is left to others
//!
//! Whether an item repeats another is told by the grammar. Of the order of actions no law holds: they are done in turn.

mod order;

pub use order::order_of_items_changes_nothing;
