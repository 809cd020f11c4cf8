//! The expected answers are those that the form of a feed gives by hand.
use crate::{FeedReader, Step};
use desk_io::MemSource;
use std::alloc::Global;
use std::test::Fail;

/// What kind of step it is, with the column of a refusal or the number of a line's selection.
fn short(step: &Step) -> (u32, u32) {
    match step {
        Step::Header(_) => (1, 0),
        Step::BadHeader(refusal) => (2, refusal.place.column),
        Step::Line(line) => (3, u32::from(line.selection.number())),
        Step::Refused(refusal) => (4, refusal.place.column),
        Step::Skipped => (5, 0),
        Step::End => (6, 0),
        Step::Cut => (7, 0),
        Step::ReadFault => (8, 0),
    }
}

/// The first ten answers to this text, at most `piece` bytes a read. The reads with these numbers fail.
fn answers(
    alloc: Global,
    text: &[u8],
    piece: usize,
    failing: &[u32],
) -> Result<[(u32, u32); 10], Fail> {
    let source = MemSource::new(text.to_vec(alloc)?, piece.max(1), failing.to_vec(alloc)?);
    let mut reader = FeedReader::new(alloc, source, 0);
    let mut answers = [(0, 0); 10];
    for answer in &mut answers {
        if !reader.over() {
            *answer = short(&reader.next()?);
        }
    }
    Ok(answers)
}

// The third read of 20 bytes fails: the first 40 bytes hold the header's line and no whole second line.
#[test]
fn a_feed_has_the_same_answers_in_any_pieces(rt: HostRuntime) -> Result<(), Fail> {
    let text =
        b"feed 1 alpha score\r\n# so\nquote m1 1x2 home 2.100 100000\nquote m1 ah -0.30 home 1.9 100\n\twithdraw m1 1x2 home\r\nwithdraw m1 1x2 home\nquote m2 total 2.5 under 2 1 x\nquote m2 ah +0.25 away 1.9 100";
    let wanted = [
        (1, 0),
        (5, 0),
        (3, 0),
        (4, 13),
        (3, 0),
        (4, 10),
        (4, 30),
        (3, 65),
        (6, 0),
        (0, 0),
    ];
    assert_eq!(rt; answers(rt.alloc(), text, 1, &[])?, wanted);
    assert_eq!(rt; answers(rt.alloc(), text, 7, &[])?, wanted);
    assert_eq!(rt; answers(rt.alloc(), text, 4_096, &[])?, wanted);
    let failed = answers(rt.alloc(), text, 20, &[3])?;
    assert_eq!(rt;
        [failed[0], failed[1], failed[2], failed[3]],
        [(1, 0), (5, 0), (8, 0), (0, 0)]
    );
    assert_eq!(rt; answers(rt.alloc(), b"", 1, &[])?[0], (2, 1));
    Ok(())
}
