//! The whole lines of a text, and what stands behind them.

ghost use Rattle.std.specs.Prelude.{◌≡◌, ◌+◌, ◌<◌, length};
ghost use Rattle.nd_journal.specs.WholeLines.{AreWholeTo, unfinished, whole_lines};

/// The text without the bytes behind its last newline: nothing where it has none.
pub fn whole_lines(text: &[u8]) -> &[u8]
    ensures { result.now ≡ whole_lines text.now }
{
    let (whole, _) = cut_behind(text);
    whole
}

/// The text up to its last newline, and the bytes behind that.
#[tactic(auto, using(crate::proofs::LinesKept::cuttings))]
pub(crate) fn cut_behind(text: &[u8]) -> (&[u8], &[u8])
    ensures whole { result.0.now ≡ whole_lines text.now }
    ensures rest { result.1.now ≡ unfinished text.now }
{
    let mut end = 0;
    for at in 0..text.len() {
        end = end_behind(text, at, end);
    }
    text.split_at(end)
}

/// How many bytes the whole lines have up to the byte with number `at`, where those before it have `end`.
#[tactic(auto, using(crate::proofs::LinesKept::cuttings))]
fn end_behind(text: &[u8], at: usize, end: usize) -> usize
    requires there { at < length text.now }
    requires so_far { AreWholeTo text.now at end }
    ensures { AreWholeTo text.now (at + 1) result }
{
    if text[at] == b'\n' { at + 1 } else { end }
}
