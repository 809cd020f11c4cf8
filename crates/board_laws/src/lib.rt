//! What a legal history of several callers says of one of them. There is no code here: each function of `laws` has laws of the
//! definitions as its contract.
//!
//! The definitions stand in `specs/Callers`: the entries of a caller, and what they say of its pins and of its feed.
#![tactic(auto)]

pub mod laws;
