ghost use Rattle.std.specs.Prelude.{◌≡◌, ◌≤◌, ℕ, All, length};
ghost use Rattle.port_caches.specs.Sums.{IsRule, total_of};
ghost use Rattle.spec_board.specs.Effects.{credited};
ghost use Rattle.flow_dump.specs.Sums.{Fits, sums_view, with_total, owed_packets, owed_bytes, with_owed};

use megaflow_table::Megaflows;
use port_caches::stats::Totals;
use spec_run::RuleCounts;

// Adds what each rule was credited with.
pub(crate) fn add_totals(counts: &mut [RuleCounts], totals: &Totals)
    requires rules { length counts.old ≡ length totals.now }
    requires fits { (rule : ℕ) → Fits
        (with_total (total_of totals.now rule) (total_of (sums_view counts.old) rule)) }
    ensures { (rule : ℕ) → total_of (sums_view counts.new) rule
        ≡ with_total (total_of totals.now rule) (total_of (sums_view counts.old) rule) }
{
    'rules: for before in 0..totals.rules() {
        let rule = before + 1;
        let total = totals.of(rule);
        let counts = &mut counts[rule as usize - 1];
        counts.packets += u128::from(total.packets);
        counts.bytes += u128::from(total.bytes);
    }
}

// Adds so many packets and bytes for each visit of a rule.
fn add_visits(counts: &mut [RuleCounts], visits: &[u32], packets: u64, bytes: u64)
    requires rules { All (IsRule (sums_view counts.old)) visits.now }
    requires fits { (rule : ℕ)
        → Fits (credited visits.now packets bytes (total_of (sums_view counts.old)) rule) }
    ensures { (rule : ℕ) → total_of (sums_view counts.new) rule
        ≡ credited visits.now packets bytes (total_of (sums_view counts.old)) rule }
{
    for rule in visits {
        let counts = &mut counts[*rule as usize - 1];
        counts.packets += u128::from(packets);
        counts.bytes += u128::from(bytes);
    }
}

// Adds what each megaflow owes, once for each visit of a rule.
pub(crate) fn add_owed(counts: &mut [RuleCounts], flows: &Megaflows)
    requires rules { All (λ e. All (IsRule (sums_view counts.old)) e.visits) flows.now.entries }
    requires fits { (rule : ℕ)
        → Fits (with_owed rule flows.now.entries (total_of (sums_view counts.old) rule)) }
    ensures { (rule : ℕ) → total_of (sums_view counts.new) rule
        ≡ with_owed rule flows.now.entries (total_of (sums_view counts.old) rule) }
{
    let _ = flows.len();
    'flows: for number in flows.numbers() {
        match flows.get(*number) {
            Some(entry) => add_visits(
                counts,
                entry.visits.as_slice(),
                entry.owed_packets,
                entry.owed_bytes,
            ),
            None => unreachable!(),
        }
    }
}
