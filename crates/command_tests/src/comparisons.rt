//! Whole comparisons. The contract of `run_diff` says what is printed and answered; which classes are told of small changes
//! is shown here.
mod running;
mod tests;
