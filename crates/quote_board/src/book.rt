//! What stands on one match, and since when the match is due.

ghost use Rattle.std.specs.Prelude.{◌≡◌, ℕ, false, ◌==◌, ◌&&◌, OnOk, OnErr, if◌then◌else◌};
ghost use Rattle.std.specs.Option.{option_or, is_none, option_map_or};
ghost use Rattle.std.specs.BTreeMap.{values, IsOrdered};
ghost use Rattle.quote_board.specs.Books.{offer_in, waits_for, slot_cmp, SameWaiting};
ghost use Rattle.quote_board.specs.Answers.{IsCopied};

use scan_types::{Name, Offer, WantOfMemory};
use std::alloc::Global;
use std::collections::BTreeMap;

/// The place of an offer on a sheet: by feed, and within a feed by the number of the selection.
#[derive(Clone, Copy, Debug, PartialEq, Eq, PartialOrd, Ord)]
pub(crate) struct Slot {
    /// The number of the feed.
    pub(crate) feed: u8,
    /// The number of the selection, below `MOST_SELECTIONS`.
    pub(crate) number: u8,
}

/// What stands on one match.
#[derive(Drop)]
pub(crate) struct Book {
    /// The offers that stand.
    pub(crate) offers: BTreeMap<Slot, Offer>,
    /// The entry since which the match is due, if it is.
    pub(crate) due: Option<u64>,
}

impl Book {
    /// A match on which nothing stands.
    pub(crate) fn new(alloc: Global) -> Book
        ensures offers { (feed number : ℕ) → offer_in result feed number ≡ None }
        ensures due { result.due ≡ None }
    {
        Book {
            offers: BTreeMap::new(alloc),
            due: None,
        }
    }
}

/// Puts the offer into its slot. The match is due since `place`, unless it was due before.
pub(crate) fn put_offer(
    book: &mut Book,
    waiting: &mut BTreeMap<u64, Name>,
    match_name: Name,
    slot: Slot,
    offer: Offer,
    place: u64,
) -> Result<(), WantOfMemory>
    requires { waits_for waiting.old place ≡ None }
    ensures offers { OnOk result ((feed number : ℕ) → offer_in book.new feed number ≡ (if slot.feed == feed && slot.number == number then Some offer else offer_in book.old feed number)) }
    ensures due { OnOk result (book.new.due ≡ option_or book.old.due (Some place)) }
    ensures waiting { OnOk result ((at : ℕ) → waits_for waiting.new at ≡ (if is_none book.old.due && at == place then Some match_name else waits_for waiting.old at)) }
    ensures err_offers { OnErr result ((feed number : ℕ) → offer_in book.new feed number ≡ offer_in book.old feed number) }
    ensures err_due { OnErr result (book.new.due ≡ book.old.due) }
    ensures err_waiting { OnErr result (SameWaiting waiting.old waiting.new) }
{
    match book.due {
        Some(_) => {
            book.offers.insert(slot, offer)?;
            Ok(())
        }
        None => {
            waiting.insert(place, match_name)?;
            match book.offers.insert(slot, offer) {
                Ok(_) => {
                    book.due = Some(place);
                    Ok(())
                }
                Err(_) => {
                    waiting.remove(&place);
                    Err(WantOfMemory)
                }
            }
        }
    }
}

/// Takes the offer of a slot away. The match is due since `place`, unless it was due before.
pub(crate) fn take_offer(
    book: &mut Book,
    waiting: &mut BTreeMap<u64, Name>,
    match_name: Name,
    slot: Slot,
    place: u64,
) -> Result<(), WantOfMemory>
    ensures offers { OnOk result ((feed number : ℕ) → offer_in book.new feed number ≡ (if slot.feed == feed && slot.number == number then None else offer_in book.old feed number)) }
    ensures due { OnOk result (book.new.due ≡ option_or book.old.due (Some place)) }
    ensures waiting { OnOk result ((at : ℕ) → waits_for waiting.new at ≡ (if is_none book.old.due && at == place then Some match_name else waits_for waiting.old at)) }
    ensures err_offers { OnErr result ((feed number : ℕ) → offer_in book.new feed number ≡ offer_in book.old feed number) }
    ensures err_due { OnErr result (book.new.due ≡ book.old.due) }
    ensures err_waiting { OnErr result (SameWaiting waiting.old waiting.new) }
{
    match book.due {
        Some(_) => {
            book.offers.remove(&slot);
            Ok(())
        }
        None => {
            waiting.insert(place, match_name)?;
            book.offers.remove(&slot);
            book.due = Some(place);
            Ok(())
        }
    }
}

/// The match is due no more.
pub(crate) fn clear_due(book: &mut Book, waiting: &mut BTreeMap<u64, Name>)
    ensures offers { (feed number : ℕ) → offer_in book.new feed number ≡ offer_in book.old feed number }
    ensures due { book.new.due ≡ None }
    ensures waiting { (at : ℕ) → waits_for waiting.new at ≡ (if option_map_or (λ place. place == at) book.old.due false then None else waits_for waiting.old at) }
{
    if let Some(place) = book.due {
        waiting.remove(&place);
        book.due = None;
    }
}

/// Copies offers of the match, in the order of a sheet and from a place on, and returns how many: as many as there are and as fit.
pub(crate) fn copy_offers(book: &Book, from: usize, out: &mut [Offer]) -> usize
    ensures copied { IsCopied (values book.now.offers) from out.old out.new result }
    ensures ordered { IsOrdered slot_cmp book.now.offers }
{
    let mut count = 0;
    for offer in book.offers.values().skip(from) {
        if count == out.len() {
            return count;
        }
        out[count] = *offer;
        count += 1;
    }
    count
}
