//! What may cross threads.
//!
//! # What?
//!
//! A value may go to another thread where its type is `Send`, and be shared among threads where it is `Sync`. That a
//! type is both is proved where a call asks for it. So a crate whose type threads are to share calls `crosses_threads`
//! for it once, in a function that does nothing: else a proof that is missing would show only where threads first
//! meet, above.
#![tactic(auto)]

/// Any value of the type may go to another thread, and be shared with others.
pub fn crosses_threads<T: Send + Sync>(value: &T) {
    let _ = value;
}
