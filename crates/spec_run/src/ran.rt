/// The numbers of a schedule that was given.
#[derive(Clone, Copy)]
pub struct Ran {
    /// How many steps it has.
    pub steps: u32,
    /// How many of them were not met.
    pub unmet: u32,
}
