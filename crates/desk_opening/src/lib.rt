//! Opening the named feeds, and reading their headers.
//!
//! - `opening`: a source for each name, in order. One call of the opener a name; takes memory for the list of sources.
//! - `headers`: the header of each feed, in order. One step of each feed.
//! - `twins`: two feeds of one book.
#![tactic(auto)]

mod begun;
mod headers;
mod opening;
mod twins;

pub use begun::{Begun, HeaderStop, NoHeaders};
pub use headers::{begun_ends, read_headers};
pub use opening::{NotOpened, open_all};
pub use twins::first_twins;
