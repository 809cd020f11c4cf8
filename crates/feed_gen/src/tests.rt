ghost use Rattle.std.specs.Prelude.{◌≤◌};
ghost use Rattle.scan_types.specs.declared.limits.TheConstants.{MOST_LINES};
ghost use Rattle.feed_gen.specs.declared.limits.TheConstants.{MOST_MADE_MATCHES};

use crate::generate;
use desk_io::MemSink;
use std::alloc::Global;
use std::test::Fail;

static SHORT: &[u8] = b"feed 1 book0 void\nquote m000 1x2 draw 3.450 71000\n";

static LONGER: &[u8] =
    b"feed 1 book5 decided\nquote m000 1x2 home 2.210 37000\nquote m000 ah -0.25 away 1.980 6000\nquote m000 total 2.50 over 1.870 35000\nquote m001 1x2 away 3.300 91000\nwithdraw m000 ah -0.25 away\nquote m000 1x2 away 3.350 32000\n";

// The feed of these numbers, written in pieces.
fn made(alloc: Global, seed: u64, feed: u8, matches: u32, lines: u32) -> Result<MemSink, Fail>
    requires feed { feed ≤ 7 }
    requires some_matches { 1 ≤ matches }
    requires few_matches { matches ≤ MOST_MADE_MATCHES }
    requires some_lines { 1 ≤ lines }
    requires few_lines { lines ≤ MOST_LINES }
{
    let mut sink = MemSink::new(alloc, 512, 7, Vec::new(alloc))?;
    generate(seed, feed, matches, lines, &mut sink)?;
    Ok(sink)
}

// The first by hand, the second by an independent program: its sixth line withdraws what the third quotes.
#[test]
fn makes_the_stated_feeds(rt: HostRuntime) -> Result<(), Fail> {
    let short = made(rt.alloc(), 1, 0, 1, 2)?;
    assert!(rt; short.bytes() == SHORT);
    let wrapped = made(rt.alloc(), 18_446_744_073_709_548_648, 5, 2, 7)?;
    assert!(rt; wrapped.bytes() == LONGER);
    Ok(())
}
