//! That the rules of a run may be shared among threads and go from one to another.
use crate::rules::run_rules::RunRules;
use run_case::Case;
use thread_bounds::crosses_threads;

fn run_rules_cross_threads<C: Case + Send + Sync>(rules: &RunRules<C>) {
    crosses_threads(rules)
}
