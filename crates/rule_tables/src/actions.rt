ghost use Rattle.std.specs.Prelude.{◌≡◌};

use spec_actions::OfAction;
use std::marker::Model;

/// The actions of a rule or an edit, in order.
#[derive(Drop)]
pub struct Actions(Vec<OfAction>);

impl Model for Actions {
    ghost use Rattle.std.specs.Prelude.{List};
    ghost use Rattle.spec_actions.specs.declared.action.OfAction.{OfAction};

    ghost Value = { List OfAction };

    ghost view = { λ a. a.0.items };
}

impl Actions {
    /// The actions of a vector. It takes no memory.
    pub fn new(list: Vec<OfAction>) -> Actions
        ensures { result ≡ list.items }
    {
        Actions(list)
    }

    pub fn as_slice(&self) -> &[OfAction]
        ensures { result.now ≡ self.now }
    {
        self.0.as_slice()
    }

    /// The vector again. It takes no memory.
    pub fn into_vec(self) -> Vec<OfAction>
        ensures { result.items ≡ self }
    {
        self.0
    }
}
