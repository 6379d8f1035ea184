/// How far the frame of a place is. A decided one names its actions by their place among the board's lists of actions.
#[derive(Clone, Copy)]
pub enum Place {
    Waiting,
    Pending,
    Decided { version: u32, list: usize },
}

/// How far a block reaches: the newest version that it allows, and its last place.
#[derive(Clone, Copy)]
pub struct BlockBounds {
    pub hi: u32,
    pub last_place: u32,
}
