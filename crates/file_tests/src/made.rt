//! A test of the input that a number makes, with ample memory.
//!
//! A contract says what is made where there is memory, so a body that always says that there is none would meet it. Such a
//! body fails here. The test stands in a crate of its own, since a crate with tests is proved twice.

#[cfg(test)]
mod seven;
