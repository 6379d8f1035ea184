/// How many packets and bytes a rule has had, at all ports together.
#[derive(Clone, Copy)]
pub struct RuleCounts {
    pub packets: u128,
    pub bytes: u128,
}
