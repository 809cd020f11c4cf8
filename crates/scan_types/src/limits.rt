//! The largest sizes, each with its reason. A limit is cited by its name, in code and in contracts.

/// Bytes of a book's or a match's name, 1 to so many: a name is copied by value and needs no memory of its own.
pub const MOST_NAME_BYTES: usize = 32;

/// Feeds of one run, one per bookmaker: the number of a feed is one digit, and a sheet stays small.
pub const MOST_FEEDS: usize = 8;

/// Lines of one feed that are read, the header included. All limits on a feed count that feed alone, so what is
/// accepted of it depends on its own bytes.
pub const MOST_LINES: u32 = 16_384;

/// Bytes of one feed that are read.
pub const MOST_FEED_BYTES: usize = 4_194_304;

/// Bytes of one line of a feed before its line feed: the longest line that is accepted has fewer.
pub const MOST_LINE_BYTES: usize = 200;

/// Different match names in the accepted lines of one feed.
pub const MOST_MATCHES: usize = 256;

/// Offers that one feed may have standing on one match.
pub const MOST_STANDING: usize = 32;

/// Offers on a sheet: `MOST_STANDING` of each of `MOST_FEEDS` feeds.
pub const MOST_OFFERS: usize = 256;

/// Different selections: 3 results, twice 41 handicap lines and twice 29 total lines.
pub const MOST_SELECTIONS: usize = 143;

/// The least odds, in thousandths: a winning bet returns more than its stake.
pub const LEAST_ODDS: u32 = 1_001;

/// The greatest odds, in thousandths. With `MOST_LIMIT` it keeps a payment below 2^64.
pub const MOST_ODDS: u32 = 1_000_000;

/// The largest stake limit, in minor units of the currency: nine digits, and all payments of a sheet fit 64 bits.
pub const MOST_LIMIT: u32 = 100_000_000;

/// The largest score of one side in a settlement call or a measure, 2^40: sums of goals in quarters fit 64 bits.
pub const MOST_SCORE: u64 = 1_099_511_627_776;

/// Entries of a measure, from 1 on: one for each row that a program can have, and more.
pub const MOST_MEASURE_ENTRIES: usize = 1_024;

/// The largest part, divisor and weight of a certificate, 2^60 - 1: no sum over a sheet and a measure leaves 127 bits.
pub const MOST_PART: u64 = 1_152_921_504_606_846_975;

/// Pivots that one run of a program may take, from 1 on.
pub const MOST_PIVOTS: u32 = 65_536;

/// Pivots that one run of a program may take if the command names no other number.
pub const DEFAULT_PIVOTS: u32 = 4_096;

/// Threads that judge sheets, from 1 on.
pub const MOST_SOLVERS: usize = 16;

/// Threads that judge sheets if the command names no other number.
pub const DEFAULT_SOLVERS: usize = 4;

/// Bytes of one line of a report that is read, without its line feed.
pub const MOST_REPORT_LINE_BYTES: usize = 65_536;

/// Bytes of a report that is read.
pub const MOST_REPORT_BYTES: usize = 67_108_864;
