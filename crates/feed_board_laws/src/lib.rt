//! Laws that join the lines of a feed and a board: what stands after the accepted lines of a feed is what stands on a board that holds
//! them, so the board may take each next line. There is no code here: each function of `laws` has laws of the definitions as its contract.
#![tactic(auto)]

pub mod laws;
