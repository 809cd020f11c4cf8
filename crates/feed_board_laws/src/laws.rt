ghost use Rattle.feed_board_laws.specs.Laws.{SameStands, StepsAreAccepted, BoardTakesLines, LineIsHeld, OtherLinesStay};

/// What stands after the lines of a feed stands after their entries.
pub fn lines_stand_as_entries()
    ensures { SameStands }
{}

/// Each accepted line of a feed text comes after those before it, has a limit in range, and is not refused by what stands after them.
pub fn steps_are_accepted()
    ensures { StepsAreAccepted }
{}

/// A board that holds the accepted lines of a feed so far, which has not ended, may take the next accepted line, and then it holds that
/// line too. The lines of the other feeds stay.
pub fn a_board_takes_the_lines_of_a_feed()
    ensures takes { BoardTakesLines }
    ensures held { LineIsHeld }
    ensures others { OtherLinesStay }
{}
