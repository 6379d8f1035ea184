use ovs_fields::Mask;
use rule_tables::Match;

/// What was changed between two versions.
#[derive(Drop)]
pub struct Changes {
    /// The matches of the rules that the other version hasn't.
    pub aside: Vec<Match>,
    /// The bits that no action of the old version writes.
    pub kept: Mask,
}
