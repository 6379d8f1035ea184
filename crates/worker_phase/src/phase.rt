//! The name of a phase.
use std::marker::Brand;

/// Names a phase: the publication of tables and the queue of upcalls that its workers share.
///
/// What comes from a thread, or from behind a lock, is known by its type alone. So the types of what workers hand on have
/// this name, and say that they are of this publication and this queue. What it means is picked where a phase begins.
pub trait Phase {
    ghost use Rattle.atomic_table.specs.Seated.{TableId};

    ghost publication: { TableId };

    ghost queue: { TableId };
}

impl Phase for Brand {
    ghost use Rattle.std.specs.Prelude.{[]};

    ghost publication = { record { words = 0; slots = 0; views_name = 0; atom = 0; block = 0; offset = 0; slot_names = [] } };

    ghost queue = { record { words = 0; slots = 0; views_name = 0; atom = 0; block = 0; offset = 0; slot_names = [] } };
}
