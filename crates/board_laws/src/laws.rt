ghost use Rattle.board_laws.specs.Laws.{OthersKeepPins, HasOnePin, CallsTellOfPins, FeedsAreTheirCallers, CallsTellOfEnds};

use board_definitions::Law;

/// In a legal history a live pin stays live while its own caller adds nothing, whatever others add.
pub fn others_keep_pins<W: Law>()
    ensures { OthersKeepPins W.allows }
{}

/// In a legal history a caller has at most one live pin, and none once its own entries hold none.
pub fn calls_tell_of_pins<W: Law>()
    ensures one { HasOnePin W.allows }
    ensures none { CallsTellOfPins W.allows }
{}

/// In a legal history each entry of a feed is its own caller's, so these tell whether the feed has ended.
pub fn feeds_are_their_callers<W: Law>()
    ensures entries { FeedsAreTheirCallers W.allows }
    ensures ends { CallsTellOfEnds W.allows }
{}
