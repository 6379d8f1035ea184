//! Whole traces. The contract of `run_trace` says what is printed and answered.
mod running;
mod tests;
