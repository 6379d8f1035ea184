ghost use Rattle.std.specs.Prelude.{◌≡◌, ◌++◌, [], ◌∷◌, OnOk, OnErr, string_bytes};
ghost use Rattle.spec_run.specs.Megaflows.{once, plus_sign, visited_text, visits_text};
ghost use Rattle.text_numbers.specs.Added.{Adds};
ghost use Rattle.dump_lines.specs.Runs.{runs_text};

use std::alloc::AllocError;
use text_numbers::{print_decimal, print_word};

// So many visits of one rule after each other.
fn print_run(out: &mut String, rule: u32, times: usize) -> Result<(), AllocError>
    ensures { Adds out.old out.new (visited_text (record { rule = rule; times = times })) result }
{
    print_decimal(out, u128::from(rule))?;
    if times == 1 {
        return Ok(());
    }
    print_word(out, "x")?;
    print_decimal(out, times as u128)
}

// A run of visits behind which another one comes.
fn print_run_before(out: &mut String, rule: u32, times: usize) -> Result<(), AllocError>
    ensures { Adds out.old out.new
        (visited_text (record { rule = rule; times = times }) ++ plus_sign ∷ []) result }
{
    print_run(out, rule, times)?;
    print_word(out, "+")
}

// A visit and those that come next, in runs.
fn print_runs(out: &mut String, first: u32, others: &[u32]) -> Result<(), AllocError>
    ensures { Adds out.old out.new (runs_text (once first) others.now) result }
{
    let mut rule = first;
    let mut times = 1;
    'others: for next in others {
        if *next == rule {
            times += 1;
        } else {
            print_run_before(out, rule, times)?;
            rule = *next;
            times = 1;
        }
    }
    print_run(out, rule, times)
}

/// Adds the visits of rules: `R`, or `RxN` for so many after each other, with `+` between them, or `-` where there is none.
pub fn print_visits(out: &mut String, visits: &[u32]) -> Result<(), AllocError>
    ensures { Adds out.old out.new (visits_text visits.now) result }
{
    match visits {
        [] => print_word(out, "-"),
        [first, others @ ..] => print_runs(out, *first, others),
    }
}
