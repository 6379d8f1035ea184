ghost use Rattle.std.specs.Prelude.{◌≡◌};

use std::marker::Model;

/// The numbers of the rules that a translation visited, in order, each as often as it was.
#[derive(Drop)]
pub struct Visits(Vec<u32>);

impl Model for Visits {
    ghost use Rattle.std.specs.Prelude.{ℕ, List};

    ghost Value = { List ℕ };

    ghost view = { λ v. v.0.items };
}

impl Visits {
    /// The numbers of a vector. It takes no memory.
    pub fn new(numbers: Vec<u32>) -> Visits
        ensures { result ≡ numbers.items }
    {
        Visits(numbers)
    }

    pub fn as_slice(&self) -> &[u32]
        ensures { result.now ≡ self.now }
    {
        self.0.as_slice()
    }

    /// The vector again. It takes no memory.
    pub fn into_vec(self) -> Vec<u32>
        ensures { result.items ≡ self }
    {
        self.0
    }
}
