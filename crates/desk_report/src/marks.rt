//! Where each match was last changed, and where a finding was filed for it after that.
ghost use Rattle.std.specs.Prelude.{◌≡◌, ◌<◌, ℕ, List, length, Some, None, OnOk, IfOk, option_map, if◌then◌else◌};
ghost use Rattle.std.specs.List.Sorted.{IsSorted};
ghost use Rattle.std.specs.Cmp.Lexicographic.{slice_cmp};
ghost use Rattle.std.specs.Ordering.{nat_cmp};
ghost use Rattle.std.specs.Str.{bytes_eq};
ghost use Rattle.indexmap.specs.IndexMap.{keys};
ghost use Rattle.desk_report.specs.Marks.{pinned_name, mark_in, mark_step, mark_at, mark_filed, filed_step};

use board_definitions::{Entry, Event};
use indexmap::IndexMap;
use scan_types::{Name, WantOfMemory};
use std::alloc::Global;

/// What the history says of a match that was quoted.
#[derive(Clone, Copy, Drop)]
pub(crate) struct Mark {
    /// The place of the last entry that quotes or withdraws an offer on the match.
    pub(crate) changed: u64,
    /// The place of the last entry after it that files a finding of a later pin.
    pub(crate) filed: Option<u64>,
}

// The match that the entry at this place pins, if it does.
fn pinned_name(history: &[Entry], version: u64) -> Option<Name>
    ensures { result ≡ pinned_name history.now version }
{
    match history.get(version as usize) {
        None => None,
        Some(entry) => match &entry.event {
            Event::Pinned { match_name } => Some(*match_name),
            _ => None,
        },
    }
}

// Marks the match so.
fn put(marks: &mut IndexMap<Name, Mark>, match_name: Name, mark: Mark) -> Result<(), WantOfMemory>
    ensures { OnOk result ((q : List ℕ) → mark_in marks.new q ≡ (if bytes_eq match_name q then Some mark else mark_in marks.old q)) }
{
    marks.insert(match_name, mark)?;
    Ok(())
}

// The mark after a finding of a pin of this version is filed at this place.
fn filed(mark: Mark, version: u64, place: u64) -> Mark
    ensures { result ≡ mark_filed version place mark }
{
    if mark.changed < version {
        Mark {
            changed: mark.changed,
            filed: Some(place),
        }
    } else {
        mark
    }
}

// A match that has a mark is changed at this place.
fn change(marks: &mut IndexMap<Name, Mark>, match_name: Name, place: u64)
    ensures { (q : List ℕ) → mark_in marks.new q ≡ (if bytes_eq match_name q then option_map (λ _. record { changed = place; filed = None }) (mark_in marks.old q) else mark_in marks.old q) }
{
    if let Some(mark) = marks.get_mut(&match_name) {
        *mark = Mark {
            changed: place,
            filed: None,
        };
    }
}

// A finding of a pin of this version and match is filed at this place.
fn file(marks: &mut IndexMap<Name, Mark>, match_name: Name, version: u64, place: u64)
    ensures { (q : List ℕ) → mark_in marks.new q ≡ (if bytes_eq match_name q then option_map (mark_filed version place) (mark_in marks.old q) else mark_in marks.old q) }
{
    if let Some(mark) = marks.get_mut(&match_name) {
        *mark = filed(*mark, version, place);
    }
}

// A finding of a pin of this version is filed at this place.
fn file_pin(marks: &mut IndexMap<Name, Mark>, history: &[Entry], version: u64, place: u64)
    ensures { (q : List ℕ) → mark_in marks.new q ≡ filed_step history.now version place q (mark_in marks.old q) }
{
    if let Some(match_name) = pinned_name(history, version) {
        file(marks, match_name, version, place);
    }
}

// One more entry, at this place.
fn note(
    marks: &mut IndexMap<Name, Mark>,
    history: &[Entry],
    place: u64,
    entry: &Entry,
) -> Result<(), WantOfMemory>
    ensures { OnOk result ((q : List ℕ) → mark_in marks.new q ≡ mark_step history.now place entry.now.event q (mark_in marks.old q)) }
{
    match &entry.event {
        Event::Quoted { key, .. } => {
            let mark = Mark {
                changed: place,
                filed: None,
            };
            put(marks, key.match_name, mark)?;
        }
        Event::Withdrawn { key, .. } => change(marks, key.match_name, place),
        Event::Filed { version, .. } => file_pin(marks, history, *version, place),
        _ => {}
    }
    Ok(())
}

// The mark of each match that is quoted in the history, in the order of the first quotes.
fn noted(alloc: Global, history: &[Entry]) -> Result<IndexMap<Name, Mark>, WantOfMemory>
    ensures { IfOk result (λ marks. (q : List ℕ) → mark_in marks q ≡ mark_at history.now (length history.now) q) }
{
    let mut marks = IndexMap::new(alloc);
    for (place, entry) in history.iter().enumerate() {
        note(&mut marks, history, place as u64, entry)?;
    }
    Ok(marks)
}

/// The mark of each match that is quoted in the history, rising by the bytes of their names.
///
/// Costs one look-up of the match for each entry, and a sort of the matches.
pub(crate) fn marks_of(
    alloc: Global,
    history: &[Entry],
) -> Result<IndexMap<Name, Mark>, WantOfMemory>
    ensures marks { IfOk result (λ marks. (q : List ℕ) → mark_in marks q ≡ mark_at history.now (length history.now) q) }
    ensures rising { IfOk result (λ marks. IsSorted (slice_cmp nat_cmp) (keys marks)) }
{
    let mut marks = noted(alloc, history)?;
    marks.sort_keys()?;
    Ok(marks)
}
