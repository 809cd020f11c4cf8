//! What holds of the words themselves. Each function is empty: its clause is the law.
ghost use Rattle.desk_words.specs.WorkedLines.{AreRead, worked_lines};
ghost use Rattle.desk_words.specs.Laws.{NoCommandHasACause, WellFormedWordsAreACommand};

/// Well-formed words are a command: the one that they spell.
pub fn well_formed_words_are_a_command()
    ensures { WellFormedWordsAreACommand }
{}

/// Words are no command just if `clap` does not take them, the number of pivots is out of form or range, or too many feeds are named.
pub fn no_command_has_a_cause()
    ensures { NoCommandHasACause }
{}

/// Each line of a table, worked out by hand, gives the command that stands beside it.
pub fn worked_lines_are_read()
    ensures { AreRead worked_lines }
{}
