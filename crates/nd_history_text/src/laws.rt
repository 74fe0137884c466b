//! Laws over the texts of histories.

ghost use Rattle.nd_history_text.specs.TextLaws.{OneHistory, ReadsBack};

/// What [`write_history`](crate::write_history) writes of a history is one of its texts, so
/// [`read_history`](crate::read_history) gives the history back. The function does nothing; its
/// contract is the law.
pub fn read_back()
    ensures { ReadsBack }
{}

/// A text is that of one history. The function does nothing; its contract is the law.
pub fn one_history()
    ensures { OneHistory }
{}
