//! Runs of the desk over files in memory. Expected texts and statuses are those of the rules, worked out by hand.

ghost use Rattle.std.specs.Prelude.{◌≤◌};

use super::*;
use desk_io::{MemFile, MemOpener, MemSink, Opener};
use std::alloc::Global;
use std::test::Fail;

const ALPHA: &str =
    "feed 1 alpha void\nquote m1 1x2 home 2.100 100000\nquote m1 1x2 away 4.500 100000\n";

const BETA: &str = "feed 1 beta void\nquote m1 1x2 draw 4.000 100000\n";

const REPORT: &str = "arbscan report 1
pivots 4096
feed 0 alpha void lines 3 refused 0 end
feed 1 beta void lines 2 refused 0 end
match m1 offers 3
offer 0 1x2 home 2.100 100000
offer 0 1x2 away 4.500 100000
offer 1 1x2 draw 4.000 100000
finding arb 3 100000 46666 52500
end
";

/// The report if the third read of the second feed fails, of 20 bytes a read: its header was read, and no whole line behind it.
const BROKEN_REPORT: &str = "arbscan report 1
pivots 4096
feed 0 alpha void lines 3 refused 0 end
feed 1 beta void lines 1 refused 0 fault
match m1 offers 2
offer 0 1x2 home 2.100 100000
offer 0 1x2 away 4.500 100000
finding coherent 1 full 0 0 1
end
";

const FAIR: &str =
    "feed 1 alpha void\r\nquote m1 1x2 home 3 1000\r\nquote m1 1x2 draw 3.0 1000\r\nquote m1 1x2 away 3.000 1000";

const FAIR_REPORT: &str = "arbscan report 1
pivots 4096
feed 0 alpha void lines 4 refused 0 end
match m1 offers 3
offer 0 1x2 home 3.000 1000
offer 0 1x2 draw 3.000 1000
offer 0 1x2 away 3.000 1000
finding coherent 3 full 0 0 1 full 0 1 1 full 1 0 1
end
";

const TWO_PIVOTS_REPORT: &str = "arbscan report 1
pivots 2
feed 0 alpha void lines 4 refused 0 end
match m1 offers 3
offer 0 1x2 home 3.000 1000
offer 0 1x2 draw 3.000 1000
offer 0 1x2 away 3.000 1000
finding out-of-pivots 1 2
end
";

const HEADER: &str = "feed 1 alpha void\n";

const HEADER_REPORT: &str = "arbscan report 1
pivots 4096
feed 0 alpha void lines 1 refused 0 end
end
";

const WITHDRAWN: &str = "feed 1 alpha void\nquote m1 1x2 home 2.1 10\nwithdraw m1 1x2 home\n";

const WITHDRAWN_REPORT: &str = "arbscan report 1
pivots 4096
feed 0 alpha void lines 3 refused 0 end
match m1 offers 0
finding coherent 1 full 0 0 1
end
";

const BAD_LINE: &str = "feed 1 alpha void\nquote m1 ah -0.30 home 1.9 100\n";

const BAD_LINE_REPORT: &str = "arbscan report 1
pivots 4096
feed 0 alpha void lines 2 refused 1 end
refused 0 2 13 BadLine
end
";

const ODDS: &str = "feed 1 alpha void
quote m1 1x2 home 1.000 100
quote m1 1x2 home 1000.001 100
quote m1 1x2 home 2.0
quote m1 1x2 home 1.001 100
quote m1 1x2 draw 1000.000 100
";

const ODDS_REPORT: &str = "arbscan report 1
pivots 4096
feed 0 alpha void lines 6 refused 3 end
refused 0 2 19 OddsRange
refused 0 3 19 OddsRange
refused 0 4 22 Missing
match m1 offers 2
offer 0 1x2 home 1.001 100
offer 0 1x2 draw 1000.000 100
finding coherent 2 full 0 0 1 full 0 1 999
end
";

const NOT_QUOTED: &str = "feed 1 alpha void\nwithdraw m1 1x2 home\n";

const NOT_QUOTED_REPORT: &str = "arbscan report 1
pivots 4096
feed 0 alpha void lines 2 refused 1 end
refused 0 2 10 NotQuoted
end
";

const CUT_REPORT: &str = "arbscan report 1
pivots 4096
feed 0 alpha void lines 16384 refused 0 cut
end
";

const NO_COMMAND: &str = "error: the words are no command\n";

const NO_HEADER: &str = "error: feed 0 header column 1 Missing\n";

const ONE_NAME: &str = "error: feeds 0 and 1 have one book name\n";

const FIRST_NOT_OPENED: &str = "error: feed 0 cannot be opened\n";

const SECOND_NOT_OPENED: &str = "error: feed 1 cannot be opened\n";

const SECOND_NOT_READ: &str = "error: feed 1 cannot be read\n";

/// How the files are read, and the numbers of the calls that fail: an opening, a read of file `b`, a write. No call has the number 0.
#[derive(Clone, Copy)]
struct Outside {
    piece: usize,
    opening: u32,
    read: u32,
    write: u32,
}

const SOUND: Outside = Outside {
    piece: 4096,
    opening: 0,
    read: 0,
    write: 0,
};

/// A file of which the read with this number fails.
fn file(alloc: Global, name: &str, text: &str, piece: usize, read: u32) -> Option<MemFile>
    requires { 1 ≤ piece }
{
    let name = String::from_str(alloc, name).ok()?;
    let bytes = text.as_bytes().to_vec(alloc).ok()?;
    Some(MemFile::of(name, bytes, piece, vec![in alloc; read].ok()?))
}

/// The words as the program gets them.
fn words(alloc: Global, line: &[&str]) -> Option<Vec<String>> {
    let mut words = Vec::new(alloc);
    for word in line {
        words.push(String::from_str(alloc, word).ok()?).ok()?;
    }
    Some(words)
}

/// The opener of files `a` and `b`.
fn files(alloc: Global, a: &str, b: &str, outside: Outside) -> Option<MemOpener>
    requires { 1 ≤ outside.piece }
{
    let files = vec![in alloc;
        file(alloc, "a", a, outside.piece, 0)?,
        file(alloc, "b", b, outside.piece, outside.read)?,
    ]
    .ok()?;
    Some(MemOpener::new(files, vec![in alloc; outside.opening].ok()?))
}

/// The sink of a run, of which the write with this number fails.
fn sink(alloc: Global, write: u32) -> Option<MemSink> {
    MemSink::new(alloc, 4096, 7, vec![in alloc; write].ok()?).ok()
}

/// The status of a run over files `a` and `b`, and what was written.
fn run(alloc: Global, line: &[&str], a: &str, b: &str, outside: Outside) -> Option<(u8, Vec<u8>)>
    requires { 1 ≤ outside.piece }
{
    let mut opener = files(alloc, a, b, outside)?;
    let mut sink = sink(alloc, outside.write)?;
    let end = desk(alloc, &words(alloc, line)?, &mut opener, &mut sink);
    Some((end.status, sink.bytes().to_vec(alloc).ok()?))
}

/// Whether a run over files `a` and `b` ends with this status and text.
fn gives(alloc: Global, line: &[&str], a: &str, b: &str, outside: Outside, want: (u8, &str)) -> bool
    requires { 1 ≤ outside.piece }
{
    match run(alloc, line, a, b, outside) {
        Some((status, text)) => status == want.0 && text.as_slice() == want.1.as_bytes(),
        None => false,
    }
}

/// A feed of so many lines: a header, and then comments.
fn long_feed(alloc: Global, lines: u32) -> Option<String> {
    let mut text = String::from_str(alloc, HEADER).ok()?;
    for _ in 1..lines {
        text.push_str("#\n").ok()?;
    }
    Some(text)
}

/// Which runs over one file, read in pieces of this size, give what they should. The long one has a line too many.
fn in_pieces(alloc: Global, piece: usize, long: &str) -> [bool; 9]
    requires { 1 ≤ piece }
{
    let outside = Outside { piece, ..SOUND };
    let once = ["once", "a"].as_slice();
    [
        gives(alloc, once, HEADER, "", outside, (0, HEADER_REPORT)),
        gives(alloc, once, WITHDRAWN, "", outside, (0, WITHDRAWN_REPORT)),
        gives(alloc, once, BAD_LINE, "", outside, (0, BAD_LINE_REPORT)),
        gives(alloc, once, ODDS, "", outside, (0, ODDS_REPORT)),
        gives(alloc, once, FAIR, "", outside, (0, FAIR_REPORT)),
        gives(alloc, once, NOT_QUOTED, "", outside, (0, NOT_QUOTED_REPORT)),
        gives(alloc, once, long, "", outside, (8, CUT_REPORT)),
        gives(alloc, once, "", "", outside, (6, NO_HEADER)),
        gives(
            alloc,
            &["once", "a", "b"],
            HEADER,
            HEADER,
            outside,
            (6, ONE_NAME),
        ),
    ]
}

#[test]
fn pieces_of_any_size_give_one_report(rt: HostRuntime) -> Result<(), Fail> {
    let alloc = rt.alloc();
    let long = long_feed(alloc, 16_385).ok_or("room")?;
    assert_eq!(rt; in_pieces(alloc, 1, &long), [true; 9]);
    assert_eq!(rt; in_pieces(alloc, 7, &long), [true; 9]);
    assert_eq!(rt; in_pieces(alloc, 4096, &long), [true; 9]);
    Ok(())
}

#[test]
fn each_run_has_its_status_and_text(rt: HostRuntime) -> Result<(), Fail> {
    let alloc = rt.alloc();
    let both = ["once", "a", "b"].as_slice();
    let given = [
        gives(alloc, both, ALPHA, BETA, SOUND, (0, REPORT)),
        gives(
            alloc,
            &["once", "--pivots=2", "a"],
            FAIR,
            "",
            SOUND,
            (0, TWO_PIVOTS_REPORT),
        ),
        gives(alloc, &[], ALPHA, BETA, SOUND, (2, NO_COMMAND)),
        gives(alloc, &["once"], ALPHA, BETA, SOUND, (2, NO_COMMAND)),
        gives(
            alloc,
            &["once", "--pivots", "0", "a"],
            ALPHA,
            BETA,
            SOUND,
            (2, NO_COMMAND),
        ),
        // The second feed is opened before the first, which has no line, is read.
        gives(
            alloc,
            &["once", "a", "c"],
            "",
            BETA,
            SOUND,
            (3, SECOND_NOT_OPENED),
        ),
    ];
    assert_eq!(rt; given, [true; 6]);
    Ok(())
}

#[test]
fn a_failed_call_has_its_status_and_text(rt: HostRuntime) -> Result<(), Fail> {
    let alloc = rt.alloc();
    let both = ["once", "a", "b"].as_slice();
    let given = [
        gives(
            alloc,
            both,
            ALPHA,
            BETA,
            Outside {
                opening: 1,
                ..SOUND
            },
            (3, FIRST_NOT_OPENED),
        ),
        gives(
            alloc,
            both,
            ALPHA,
            BETA,
            Outside {
                opening: 2,
                ..SOUND
            },
            (3, SECOND_NOT_OPENED),
        ),
        gives(
            alloc,
            both,
            ALPHA,
            BETA,
            Outside {
                piece: 20,
                read: 1,
                ..SOUND
            },
            (4, SECOND_NOT_READ),
        ),
        gives(
            alloc,
            both,
            ALPHA,
            BETA,
            Outside {
                piece: 20,
                read: 3,
                ..SOUND
            },
            (4, BROKEN_REPORT),
        ),
        gives(
            alloc,
            both,
            ALPHA,
            BETA,
            Outside { write: 1, ..SOUND },
            (5, ""),
        ),
        gives(
            alloc,
            &["once"],
            ALPHA,
            BETA,
            Outside { write: 1, ..SOUND },
            (5, ""),
        ),
        gives(
            alloc,
            both,
            ALPHA,
            BETA,
            Outside { write: 3, ..SOUND },
            (5, "arbscan report"),
        ),
    ];
    assert_eq!(rt; given, [true; 7]);
    Ok(())
}

#[test]
fn the_end_has_all_entries_and_other_feeds_stay_closed(rt: HostRuntime) -> Result<(), Fail> {
    let alloc = rt.alloc();
    let mut opener = files(alloc, ALPHA, BETA, SOUND).ok_or("room")?;
    let mut sink = sink(alloc, 0).ok_or("room")?;
    let words = words(alloc, &["once", "a"]).ok_or("room")?;
    let end = desk(alloc, &words, &mut opener, &mut sink);
    // Two quotes and an end of feed 0, and then a pin and a finding.
    assert_eq!(rt; (end.status, end.history.len(), end.feeds.len()), (0, 5, 1));
    assert!(rt; opener.open_feed("a").is_err());
    assert!(rt; opener.open_feed("b").is_ok());
    Ok(())
}
