//! Tests of reading NetFlow (`netflow_v5`): a datagram of one flow, and each fault once.
//!
//! The bytes are laid out after Cisco's "NetFlow Export Datagram Formats", version 5.

#[cfg(test)]
mod tests;
