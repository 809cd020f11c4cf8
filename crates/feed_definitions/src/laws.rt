//! What holds of the feed text itself, whatever code reads it. Each function is empty: its clause is the law.

ghost use Rattle.feed_definitions.specs.Laws.{StepsStay, StepsAreOfLines, EndingFollows, CutStays, BadHeaderStays, BadHeaderEnds};

/// The steps of the lines ended so far stay, however the text goes on and whether or not reading fails. So a reader can return them
/// before it has the whole text.
pub fn steps_before_stay()
    ensures { StepsStay }
{}

/// The step of a line is a function of this line and of the steps before it.
pub fn a_step_is_of_its_line()
    ensures { StepsAreOfLines }
{}

/// Behind the steps of all lines, one step says how the feed ends, and nothing follows.
pub fn the_ending_follows_the_lines()
    ensures { EndingFollows }
{}

/// Once a limit of size is passed, all steps stay, however the text goes on and whether or not reading fails.
pub fn a_cut_stays()
    ensures { CutStays }
{}

/// Once line 1 is ended and no header, all steps stay.
pub fn a_bad_header_stays()
    ensures { BadHeaderStays }
{}

/// Nothing follows line 1 if that is no header.
pub fn a_bad_header_ends_the_feed()
    ensures { BadHeaderEnds }
{}
