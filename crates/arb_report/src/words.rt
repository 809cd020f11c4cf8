//! The words of a report that no bet has.
ghost use Rattle.std.specs.Prelude.{◌≡◌, ◌≤◌, length};
ghost use Rattle.report_definitions.specs.Words.{stop_text, cause_text};

use board_definitions::FeedStop;
use feed_definitions::Cause;

// The word of how a feed ended.
pub(crate) fn stop_word(stop: FeedStop) -> &'static [u8]
    ensures value { result.now ≡ stop_text stop }
    ensures short { length result.now ≤ 6 }
{
    match stop {
        FeedStop::End => b"end",
        FeedStop::Cut => b"cut",
        FeedStop::ReadFault => b"fault",
        FeedStop::NoMemory => b"memory",
        FeedStop::BadHeader => b"",
    }
}

// The word of why a line was refused.
pub(crate) fn cause_word(cause: Cause) -> &'static [u8]
    ensures value { result.now ≡ cause_text cause }
    ensures short { length result.now ≤ 14 }
{
    match cause {
        Cause::Missing => b"Missing",
        Cause::Extra => b"Extra",
        Cause::UnknownWord => b"UnknownWord",
        Cause::BadName => b"BadName",
        Cause::BadLine => b"BadLine",
        Cause::LineRange => b"LineRange",
        Cause::BadOdds => b"BadOdds",
        Cause::OddsRange => b"OddsRange",
        Cause::BadLimit => b"BadLimit",
        Cause::LimitRange => b"LimitRange",
        Cause::TooLong => b"TooLong",
        Cause::NotAscii => b"NotAscii",
        Cause::TooManyMatches => b"TooManyMatches",
        Cause::TooManyOffers => b"TooManyOffers",
        Cause::NotQuoted => b"NotQuoted",
    }
}
