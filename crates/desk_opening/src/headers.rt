//! The headers of the opened feeds.
ghost use Rattle.std.specs.Prelude.{ℕ, List, Option, None, map, length, [], ◌≡◌, ◌≢◌, ◌+◌, ◌<◌, ◌≤◌, All, IfOk, IfErr, if◌then◌else◌};
ghost use Rattle.std.specs.VecDeque.{deque_len};
ghost use Rattle.board_definitions.specs.declared.event.FeedStop.TheVariants as stops;
ghost use Rattle.desk_definitions.specs.Opening.{IsOpened, AreOpened};
ghost use Rattle.desk_definitions.specs.Reads.{AreBegun, AreReadSo};
ghost use Rattle.desk_opening.specs.Headers.{IsHeaderRead, AreHeadersRead, HasNone, StopsSo, IsNoReadFault, begun_end, begun_ends, begun_read};

use crate::begun::{Begun, HeaderStop, NoHeader, NoHeaders};
use board_definitions::FeedStop;
use desk_definitions::FeedEnd;
use desk_io::Source;
use feed_definitions::{Refusals, Step};
use feed_lines::FeedReader;
use scan_types::WantOfMemory;
use std::alloc::Global;
use std::collections::VecDeque;

/// Reads the header of each feed, in order, up to the first that has none.
///
/// Makes one step of each feed. Takes memory for the list of feeds, and for the bytes of each reader.
pub fn read_headers<S: Source + Drop>(
    alloc: Global,
    mut sources: VecDeque<S>,
) -> Result<VecDeque<Begun<S>>, NoHeaders<S>>
    requires { deque_len sources ≤ 8 }
    ensures each { IfOk result (λ begun. deque_len begun ≡ deque_len sources) }
    ensures headers { (told : ℕ → Option (List ℕ)) → AreOpened S.left S.faults told 0 sources.items →
        IfOk result (λ begun. AreHeadersRead S.left told 0 begun.items) }
    ensures stop { (told : ℕ → Option (List ℕ)) → AreOpened S.left S.faults told 0 sources.items →
        IfErr result (λ no. StopsSo S.left S.faults told (length sources.items) no.stop no.ends.items) }
    ensures promised { All S.never_fails sources.items → IfErr result (λ no. IsNoReadFault no.stop) }
    ensures promise_kept { All S.never_fails sources.items → IfOk result (λ begun. All (λ feed. S.never_fails feed.reader.source) begun.items) }
    ensures fresh { All (λ source. S.faults source ≡ 0) sources.items → IfOk result (λ begun. All (λ feed. S.faults feed.reader.source ≡ 0) begun.items) }
    ensures counted { All (λ source. S.faults source ≡ 0) sources.items →
        IfErr result (λ no. All (λ end. end.stop ≢ stops.ReadFault → S.faults end.source ≡ 0) no.ends.items) }
{
    let Ok(mut begun) = VecDeque::with_capacity(alloc, sources.len()) else {
        return Err(without_memory(Vec::new(alloc)));
    };
    while let Some(source) = sources.pop_front() {
        match read_header(alloc, source, begun.len() as u8) {
            Ok(next) => {
                let Ok(()) = begun.push_back(next) else {
                    return Err(without_memory(Vec::new(alloc)));
                };
            }
            Err(last) => return Err(stopped(alloc, begun, last)),
        }
    }
    Ok(begun)
}

// These feeds were begun when no memory was left.
fn without_memory<S: Source + Drop>(ends: Vec<FeedEnd<S>>) -> NoHeaders<S>
    ensures ends { result.ends.items ≡ ends.items }
    ensures stop { result.stop ≡ HeaderStop.NoMemory }
{
    NoHeaders {
        ends,
        stop: HeaderStop::NoMemory,
    }
}

// The feeds whose headers were read, and then the one that has none.
fn stopped<S: Source + Drop>(
    alloc: Global,
    begun: VecDeque<Begun<S>>,
    last: NoHeader<S>,
) -> NoHeaders<S>
    requires { deque_len begun ≤ 8 }
    ensures stop { (told : ℕ → Option (List ℕ)) (count : ℕ) → AreHeadersRead S.left told 0 begun.items → length begun.items < count →
        HasNone S.left S.faults (told (length begun.items)) (length begun.items) last.stop last.end → StopsSo S.left S.faults told count result.stop result.ends.items }
    ensures promised { IsNoReadFault last.stop → IsNoReadFault result.stop }
    ensures counted { All (λ feed. S.faults feed.reader.source ≡ 0) begun.items → (last.end.stop ≢ stops.ReadFault → S.faults last.end.source ≡ 0) →
        All (λ end. end.stop ≢ stops.ReadFault → S.faults end.source ≡ 0) result.ends.items }
{
    let Ok(mut ends) = begun_ends(alloc, begun) else {
        return without_memory(Vec::new(alloc));
    };
    let NoHeader { end, stop } = last;
    let Ok(()) = ends.push(end) else {
        return without_memory(ends);
    };
    NoHeaders { ends, stop }
}

/// The feeds whose headers were read, as they are left if no more is read of them: with one line, and the stop `NoMemory`.
pub fn begun_ends<S: Source + Drop>(
    alloc: Global,
    begun: VecDeque<Begun<S>>,
) -> Result<Vec<FeedEnd<S>>, WantOfMemory>
    requires { deque_len begun ≤ 8 }
    ensures are { IfOk result (λ ends. ends.items ≡ begun_ends 0 begun.items) }
    ensures begun { (told : ℕ → Option (List ℕ)) → AreHeadersRead S.left told 0 begun.items →
        IfOk result (λ ends. AreBegun S.left S.faults told 0 ends.items (map begun_read begun.items)) }
    ensures read { (told : ℕ → Option (List ℕ)) → AreHeadersRead S.left told 0 begun.items →
        IfOk result (λ ends. AreReadSo S.left S.faults told 0 ends.items (map begun_read begun.items)) }
{
    listed_ends(alloc, begun)
}

// The ends, one after another.
fn listed_ends<S: Source + Drop>(
    alloc: Global,
    mut begun: VecDeque<Begun<S>>,
) -> Result<Vec<FeedEnd<S>>, WantOfMemory>
    requires { deque_len begun ≤ 8 }
    ensures { IfOk result (λ ends. ends.items ≡ begun_ends 0 begun.items) }
{
    let mut ends = Vec::with_capacity(alloc, begun.len() + 1)?;
    while let Some(next) = begun.pop_front() {
        ends.push(begun_end(alloc, next, ends.len() as u8))?;
    }
    Ok(ends)
}

// A feed whose header was read, and no more.
fn begun_end<S: Source + Drop>(alloc: Global, begun: Begun<S>, feed: u8) -> FeedEnd<S>
    ensures { result ≡ begun_end feed begun }
{
    let Begun { header, reader } = begun;
    FeedEnd {
        feed,
        header: Some(header),
        lines: 1,
        refusals: Refusals::new(alloc),
        stop: FeedStop::NoMemory,
        source: reader.into_source(),
    }
}

// A feed that has no header, as it is left.
fn without_header<S: Source + Drop>(
    alloc: Global,
    reader: FeedReader<S>,
    feed: u8,
    stop: FeedStop,
) -> FeedEnd<S>
    ensures number { result.feed ≡ feed }
    ensures header { result.header ≡ None }
    ensures lines { result.lines + (if reader.ended then 1 else 0) ≡ reader.answers }
    ensures refusals { result.refusals ≡ [] }
    ensures stop { result.stop ≡ stop }
    ensures source { result.source ≡ reader.source }
{
    FeedEnd {
        feed,
        header: None,
        lines: reader.lines(),
        refusals: Refusals::new(alloc),
        stop,
        source: reader.into_source(),
    }
}

// Reads the header of a feed.
fn read_header<S: Source + Drop>(
    alloc: Global,
    source: S,
    feed: u8,
) -> Result<Begun<S>, NoHeader<S>>
    ensures header { (told : Option (List ℕ)) → IsOpened S.left S.faults told source → IfOk result (λ begun. IsHeaderRead S.left told feed begun.header begun.reader) }
    ensures stop { (told : Option (List ℕ)) → IsOpened S.left S.faults told source → IfErr result (λ no. HasNone S.left S.faults told feed no.stop no.end) }
    ensures promised { S.never_fails source → IfErr result (λ no. IsNoReadFault no.stop) }
    ensures promise_kept { S.never_fails source → IfOk result (λ begun. S.never_fails begun.reader.source) }
    ensures fresh { S.faults source ≡ 0 → IfOk result (λ begun. S.faults begun.reader.source ≡ 0) }
    ensures counted { S.faults source ≡ 0 → IfErr result (λ no. no.end.stop ≢ stops.ReadFault → S.faults no.end.source ≡ 0) }
{
    let mut reader = FeedReader::new(alloc, source, feed);
    match reader.next() {
        Ok(Step::Header(header)) => Ok(Begun { header, reader }),
        Ok(Step::BadHeader(refusal)) => Err(NoHeader {
            end: without_header(alloc, reader, feed, FeedStop::BadHeader),
            stop: HeaderStop::BadHeader(refusal),
        }),
        Ok(Step::ReadFault) => Err(NoHeader {
            end: without_header(alloc, reader, feed, FeedStop::ReadFault),
            stop: HeaderStop::ReadFault,
        }),
        Ok(Step::Line(_)) => unreachable!(),
        Ok(Step::Refused(_)) => unreachable!(),
        Ok(Step::Skipped) => unreachable!(),
        Ok(Step::End) => unreachable!(),
        Ok(Step::Cut) => unreachable!(),
        Err(_) => Err(NoHeader {
            end: without_header(alloc, reader, feed, FeedStop::NoMemory),
            stop: HeaderStop::NoMemory,
        }),
    }
}
