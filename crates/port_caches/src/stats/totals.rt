ghost use Rattle.std.specs.Prelude.{◌≡◌, ℕ, All, IfOk, length};
ghost use Rattle.spec_board.specs.Effects.{credited};
ghost use Rattle.port_caches.specs.Sums.{IsRule, IsCountable, nothing, total_of, total_view, totals_view};

use crate::stats::counts::Counts;
use std::alloc::{AllocError, Global};
use std::marker::Model;

/// The packets and bytes that each rule was credited with.
#[derive(Drop)]
pub struct Totals {
    /// Those of each rule, in the order of their numbers.
    counts: Vec<Counts>,
}

impl Model for Totals {
    ghost use Rattle.std.specs.Prelude.{List, ◌<◌, ◌^◌, length};
    ghost use Rattle.spec_board.specs.State.{Total};

    ghost Value = { List Total };

    ghost use Rattle.port_caches.specs.Sums.{totals_view};

    ghost view = { λ t. totals_view t.counts.items };

    ghost invariant = { λ t. length t.counts.items < 2 ^ 32 };
}

impl Totals {
    /// No packets and no bytes for each of so many rules. The only error is out of memory.
    pub fn new(alloc: Global, rules: u32) -> Result<Totals, AllocError>
        ensures rules { IfOk result (λ totals. length totals ≡ rules) }
        ensures nothing { IfOk result (λ totals. (rule : ℕ) → total_of totals rule ≡ nothing) }
    {
        let none = Counts {
            packets: 0,
            bytes: 0,
        };
        let counts = vec![in alloc; none; rules as usize]?;
        Ok(Totals { counts })
    }

    /// How many rules there are. Their numbers are those from 1.
    pub fn rules(&self) -> u32
        ensures { result ≡ length self.now }
    {
        self.counts.len() as u32
    }

    /// Credits each visit's rule with so many packets and bytes, a rule that was visited twice with twice as many. It
    /// takes no memory.
    pub fn credit(&mut self, visits: &[u32], packets: u64, bytes: u64)
        requires rules { All (IsRule self.old) visits.now }
        requires countable { (rule : ℕ) → IsCountable (credited visits.now packets bytes (total_of self.old) rule) }
        ensures credited { (rule : ℕ) → total_of self.new rule ≡ credited visits.now packets bytes (total_of self.old) rule }
        ensures rules { length self.new ≡ length self.old }
    {
        credit_each(&mut self.counts, visits, packets, bytes);
    }

    /// What a rule was credited with.
    pub fn of(&self, rule: u32) -> Counts
        requires { IsRule self.now rule }
        ensures { total_view result ≡ total_of self.now rule }
    {
        self.counts[rule as usize - 1]
    }
}

/// Credits each visit's rule.
fn credit_each(counts: &mut [Counts], visits: &[u32], packets: u64, bytes: u64)
    requires rules { All (IsRule (totals_view counts.old)) visits.now }
    requires countable { (rule : ℕ) → IsCountable (credited visits.now packets bytes (total_of (totals_view counts.old)) rule) }
    ensures { (rule : ℕ) → total_of (totals_view counts.new) rule ≡ credited visits.now packets bytes (total_of (totals_view counts.old)) rule }
{
    for rule in visits {
        let counts = &mut counts[*rule as usize - 1];
        counts.packets += packets;
        counts.bytes += bytes;
    }
}
