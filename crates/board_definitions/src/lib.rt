//! The quote board's history, and what it says: the types of its entries, what stands after some of them, and which histories are
//! legal.
//!
//! - `key`, `event`: what an entry is about, and what it does.
//! - `pin`: a pin, and the answers to the request for one.
//! - `law`: which findings may be filed.
//! - `laws`: what holds of every legal history. Each function is empty: its clause is the law.
//!
//! The definitions stand in `specs`: `Entries` (what one entry does), `Sheets` (what stands, and the sheet at a version), `Pins` (due
//! matches and live pins) and `Legal` (legal histories).
#![tactic(auto)]

mod event;
mod key;
mod law;
mod laws;
mod pin;

pub use event::{Entry, Event, FeedStop};
pub use key::{Key, SELECTIONS};
pub use law::Law;
pub use laws::{
    earlier_sheets_stay, live_pins_stay, sheets_are_sheets, worked_histories_have_these_sheets,
};
pub use pin::{Pick, Pin};
