use crate::{FeedPart, FeedParts, MatchPart, MatchParts, Refusals, Report, write_report};
use board_definitions::FeedStop;
use desk_io::MemSink;
use feed_definitions::Header;
use finding_definitions::{Finding, Stakes};
use scan_types::{Name, Odds, Offer, Selection, Sheet, VoidRule};
use std::alloc::Global;
use std::process::Abort;
use std::test::Fail;

// A name of these bytes.
fn name(rt: &impl Abort, text: &[u8]) -> Name {
    Name::read(text).expect(rt, "a name")
}

// A feed of a book, of which so many lines were read to the end.
fn feed(alloc: Global, book: Name, lines: u32) -> FeedPart {
    FeedPart {
        header: Header {
            book,
            rule: VoidRule::Void,
        },
        lines,
        refusals: Refusals::new(alloc),
        stop: FeedStop::End,
    }
}

// A sheet of three offers, each of so many thousandths, up to the same limit.
fn sheet(rt: &impl Abort, alloc: Global) -> Result<Sheet, Fail> {
    let mut sheet = Sheet::new(alloc);
    let terms = [
        (0, Selection::Home, 2_100),
        (0, Selection::Away, 4_500),
        (1, Selection::Draw, 4_000),
    ];
    for (number, selection, thousandths) in terms {
        let odds = Odds::new(thousandths).expect(rt, "odds");
        let offer = Offer::new(number, selection, odds, 100_000, VoidRule::Void);
        let offer = offer.expect(rt, "an offer");
        assert!(rt; sheet.fits(&offer));
        sheet.push(offer)?;
    }
    Ok(sheet)
}

const ONE_ARBITRAGE: &[u8] = b"arbscan report 1
pivots 4096
feed 0 alpha void lines 3 refused 0 end
feed 1 beta void lines 2 refused 0 end
match m1 offers 3
offer 0 1x2 home 2.100 100000
offer 0 1x2 away 4.500 100000
offer 1 1x2 draw 4.000 100000
finding arb 3 100000 46666 52500
end
";

#[test]
fn writes_an_arbitrage(rt: HostRuntime) -> Result<(), Fail> {
    let alloc = rt.alloc();
    let part = MatchPart {
        match_name: name(&rt, b"m1"),
        sheet: sheet(&rt, alloc)?,
        finding: Finding::Arb(Stakes::of(vec![in alloc; 100_000, 46_666, 52_500]?)),
    };
    let alpha = feed(alloc, name(&rt, b"alpha"), 3);
    let beta = feed(alloc, name(&rt, b"beta"), 2);
    let report = Report {
        pivots: 4_096,
        feeds: FeedParts::of(vec![in alloc; alpha, beta]?),
        matches: MatchParts::of(vec![in alloc; part]?),
    };
    let mut sink = MemSink::new(alloc, 512, 7, Vec::new(alloc))?;
    assert_eq!(rt; write_report(&report, &mut sink), Ok(()));
    assert!(rt; sink.bytes() == ONE_ARBITRAGE);
    Ok(())
}
