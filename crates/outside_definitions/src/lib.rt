//! What the outside of the program does, as every contract about it says it. There is no code here.
//!
//! The definitions stand in `specs`: `Faults` (counts of faults, and when one rose), `Source` (what is left to read),
//! `Sink` (what was written) and `Opener` (which sources are still to be opened under which name).
#![tactic(auto)]
