ghost use Rattle.std.specs.Prelude.{◌≡◌, ◌==◌, [], ◌∷◌, ◌++◌, length, take, OnOk, OnErr};

use spec_actions::DpAction;
use std::alloc::AllocError;
use std::marker::Model;

/// Datapath actions, in order.
#[derive(Drop)]
pub struct ActionList(Vec<DpAction>);

impl Model for ActionList {
    ghost use Rattle.std.specs.Prelude.{List};
    ghost use Rattle.spec_actions.specs.declared.action.DpAction.{DpAction};

    ghost Value = { List DpAction };

    ghost view = { λ a. a.0.items };
}

impl ActionList {
    /// The actions of a vector. It takes no memory.
    pub fn new(list: Vec<DpAction>) -> ActionList
        ensures { result ≡ list.items }
    {
        ActionList(list)
    }

    pub fn len(&self) -> usize
        ensures { result ≡ length self.now }
    {
        self.0.len()
    }

    pub fn is_empty(&self) -> bool
        ensures { result ≡ (length self.now == 0) }
    {
        self.0.is_empty()
    }

    pub fn as_slice(&self) -> &[DpAction]
        ensures { result.now ≡ self.now }
    {
        self.0.as_slice()
    }

    /// Adds an action at the end. The only error is out of memory, and then the list is as before.
    pub fn push(&mut self, action: DpAction) -> Result<(), AllocError>
        ensures ok { OnOk result (self.new ≡ self.old ++ action ∷ []) }
        ensures err { OnErr result (self.new ≡ self.old) }
    {
        self.0.push(action)?;
        Ok(())
    }

    /// Keeps so many actions from the front.
    pub fn truncate(&mut self, count: usize)
        ensures { self.new ≡ take count self.old }
    {
        self.0.truncate(count);
    }

    /// The vector again. It takes no memory.
    pub fn into_vec(self) -> Vec<DpAction>
        ensures { result.items ≡ self }
    {
        self.0
    }
}
