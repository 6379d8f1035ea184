use dp_actions::ActionList;
use rule_tables::OfAction;

/// What is done to each packet of a class.
#[derive(Drop)]
pub enum Deed {
    /// These datapath actions.
    Datapath(ActionList),
    /// What these flow actions do to it, which is others on the datapath from packet to packet where a field is written.
    Flow(Vec<OfAction>),
}
