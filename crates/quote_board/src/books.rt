//! What stands on each match, by its name, in the order of the first quotes.

ghost use Rattle.std.specs.Prelude.{◌≡◌, ℕ, List, false, ◌==◌, ◌&&◌, OnOk, OnErr, IfOk, IsSome, IfSome, if◌then◌else◌};
ghost use Rattle.std.specs.Option.{option_or, is_none, option_map_or};
ghost use Rattle.std.specs.Str.{bytes_eq};
ghost use Rattle.quote_board.specs.Answers.{IsCopied};
ghost use Rattle.quote_board.specs.Books.{offer_of, due_of, offers_on, waits_for, slot_cmp, SameWaiting};
ghost use Rattle.std.specs.BTreeMap.{IsOrdered};
ghost use Rattle.indexmap.specs.IndexMap.{get as entry_of};

use crate::book::{Book, Slot, clear_due, copy_offers, put_offer, take_offer};
use indexmap::IndexMap;
use scan_types::{Name, Offer, WantOfMemory};
use std::alloc::Global;
use std::collections::BTreeMap;

/// Puts the offer into its slot on the match. The match is due since `place`, unless it was due before.
pub(crate) fn quote_on(
    books: &mut IndexMap<Name, Book>,
    waiting: &mut BTreeMap<u64, Name>,
    alloc: Global,
    match_name: Name,
    slot: Slot,
    offer: Offer,
    place: u64,
) -> Result<(), WantOfMemory>
    requires { waits_for waiting.old place ≡ None }
    ensures offers { OnOk result ((m : List ℕ) (feed number : ℕ) → offer_of books.new m feed number ≡ (if bytes_eq match_name m && (slot.feed == feed && slot.number == number) then Some offer else offer_of books.old m feed number)) }
    ensures due { OnOk result ((m : List ℕ) → due_of books.new m ≡ (if bytes_eq match_name m then option_or (due_of books.old m) (Some place) else due_of books.old m)) }
    ensures waiting { OnOk result ((at : ℕ) → waits_for waiting.new at ≡ (if is_none (due_of books.old match_name) && at == place then Some match_name else waits_for waiting.old at)) }
    ensures err_offers { OnErr result ((m : List ℕ) (feed number : ℕ) → offer_of books.new m feed number ≡ offer_of books.old m feed number) }
    ensures err_due { OnErr result ((m : List ℕ) → due_of books.new m ≡ due_of books.old m) }
    ensures err_waiting { OnErr result (SameWaiting waiting.old waiting.new) }
{
    let book = books.entry(match_name)?.or_insert(Book::new(alloc));
    put_offer(book, waiting, match_name, slot, offer, place)
}

/// Takes the offer of a slot away that stands on the match. The match is due since `place`, unless it was due before.
pub(crate) fn withdraw_on(
    books: &mut IndexMap<Name, Book>,
    waiting: &mut BTreeMap<u64, Name>,
    match_name: Name,
    slot: Slot,
    place: u64,
) -> Result<(), WantOfMemory>
    requires { IsSome (offer_of books.old match_name slot.feed slot.number) }
    ensures offers { OnOk result ((m : List ℕ) (feed number : ℕ) → offer_of books.new m feed number ≡ (if bytes_eq match_name m && (slot.feed == feed && slot.number == number) then None else offer_of books.old m feed number)) }
    ensures due { OnOk result ((m : List ℕ) → due_of books.new m ≡ (if bytes_eq match_name m then option_or (due_of books.old m) (Some place) else due_of books.old m)) }
    ensures waiting { OnOk result ((at : ℕ) → waits_for waiting.new at ≡ (if is_none (due_of books.old match_name) && at == place then Some match_name else waits_for waiting.old at)) }
    ensures err_offers { OnErr result ((m : List ℕ) (feed number : ℕ) → offer_of books.new m feed number ≡ offer_of books.old m feed number) }
    ensures err_due { OnErr result ((m : List ℕ) → due_of books.new m ≡ due_of books.old m) }
    ensures err_waiting { OnErr result (SameWaiting waiting.old waiting.new) }
{
    match books.get_mut(&match_name) {
        Some(book) => take_offer(book, waiting, match_name, slot, place),
        None => unreachable!(),
    }
}

/// The match is due no more.
pub(crate) fn settle(
    books: &mut IndexMap<Name, Book>,
    waiting: &mut BTreeMap<u64, Name>,
    match_name: Name,
)
    ensures offers { (m : List ℕ) (feed number : ℕ) → offer_of books.new m feed number ≡ offer_of books.old m feed number }
    ensures due { (m : List ℕ) → due_of books.new m ≡ (if bytes_eq match_name m then None else due_of books.old m) }
    ensures waiting { (at : ℕ) → waits_for waiting.new at ≡ (if option_map_or (λ place. place == at) (due_of books.old match_name) false then None else waits_for waiting.old at) }
{
    if let Some(book) = books.get_mut(&match_name) {
        clear_due(book, waiting);
    }
}

/// The offers on the match, in the order of a sheet.
pub(crate) fn copy_sheet(
    books: &IndexMap<Name, Book>,
    alloc: Global,
    match_name: Name,
) -> Result<Vec<Offer>, WantOfMemory>
    ensures offers { IfOk result (λ offers. offers.items ≡ offers_on books.now match_name) }
    ensures ordered { OnOk result (IfSome (entry_of bytes_eq books.now match_name) (λ book. IsOrdered slot_cmp book.offers)) }
{
    match books.get(&match_name) {
        None => Ok(Vec::new(alloc)),
        Some(book) => Ok(book.offers.values().copied().collect(alloc)?),
    }
}

/// Copies offers on the match, in the order of a sheet and from a place on, and returns how many: as many as there are and as fit.
pub(crate) fn copy_newest(
    books: &IndexMap<Name, Book>,
    match_name: &Name,
    from: usize,
    out: &mut [Offer],
) -> usize
    ensures copied { IsCopied (offers_on books.now match_name.now) from out.old out.new result }
    ensures ordered { IfSome (entry_of bytes_eq books.now match_name.now) (λ book. IsOrdered slot_cmp book.offers) }
{
    match books.get(match_name) {
        None => 0,
        Some(book) => copy_offers(book, from, out),
    }
}
