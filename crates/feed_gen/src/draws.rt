//! Numbers drawn one after another from a seed.
ghost use Rattle.std.specs.Prelude.{◌≡◌, ◌<◌};
ghost use Rattle.feed_gen.specs.Generated.{drawn, first_state, next_state};

const MULTIPLIER: u64 = 6_364_136_223_846_793_005;

const INCREMENT: u64 = 1_442_695_040_888_963_407;

// The state before the first draw of a feed.
pub(crate) fn first_state(seed: u64, feed: u8) -> u64
    ensures { result ≡ first_state seed feed }
{
    seed.wrapping_add(u64::from(feed))
}

// The state after one more draw: Knuth's step.
pub(crate) fn next_state(state: u64) -> u64
    ensures { result ≡ next_state state }
{
    state.wrapping_mul(MULTIPLIER).wrapping_add(INCREMENT)
}

// What a draw that led to this state gives, below a bound.
pub(crate) fn drawn(state: u64, bound: u32) -> u32
    requires { 0 < bound }
    ensures value { result ≡ drawn state bound }
    ensures below { result < bound }
{
    ((state >> 33) % u64::from(bound)) as u32
}
