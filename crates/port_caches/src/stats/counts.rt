/// How many packets and bytes a rule was credited with.
#[derive(Clone, Copy, PartialEq, Eq)]
pub struct Counts {
    pub packets: u64,
    pub bytes: u64,
}
