//! The one fault of a call that takes memory.
//!
//! Each crate whose calls can find no memory left stands on this one, and on no more for its sake.
#![tactic(auto)]

mod memory;

pub use memory::WantOfMemory;
