//! Laws over journals. Each function does nothing, and its contract is a law.

ghost use Rattle.nd_journal.specs.JournalLaws.{CutLinesAreBegun, JournalsHaveOneAnswer};

/// A journal's bytes have one answer: one history, or one number of a bad line, and not both.
pub fn one_answer()
    ensures { JournalsHaveOneAnswer }
{}

/// Whatever a crash leaves of an entry's line may stand behind the last newline of a journal.
pub fn cut_lines()
    ensures { CutLinesAreBegun }
{}
