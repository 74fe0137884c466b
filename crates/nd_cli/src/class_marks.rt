//! Marks of classes, which tell most classes apart.

ghost use Rattle.std.specs.Prelude.{◌<◌, length};

use nd_eligible::Need;
use std::hash::{FoldHasher, Hasher};

/// For how many needs at once marks are made.
const AHEAD: usize = 32;

/// The marks of the classes of some needs that stand one after another. They are made together, so that the texts
/// of several needs are on their way from memory at a time.
#[derive(Drop)]
pub(crate) struct ClassMarks {
    marks: [u64; AHEAD],
    /// The number of the first of these needs.
    from: usize,
}

impl ClassMarks {
    /// Marks of no need: no list has so many.
    pub(crate) fn new() -> ClassMarks {
        ClassMarks {
            marks: [0; AHEAD],
            from: usize::MAX,
        }
    }

    /// A number that needs of one class have in common, and others seldom: that of the need with this number.
    /// Where needs are asked for in order, some perhaps left out, each is looked at once at most. Whoever picks the
    /// needs can pick many with one mark, so it decides nothing.
    pub(crate) fn mark(&mut self, needs: &[Need], number: usize) -> u64
        requires { number < length needs.now }
    {
        match number.checked_sub(self.from) {
            Some(place) if place < AHEAD => self.marks[place],
            _ => self.make(needs, number),
        }
    }

    /// Makes the marks of the needs from this number on, and answers that of the first.
    fn make(&mut self, needs: &[Need], from: usize) -> u64
        requires { from < length needs.now }
    {
        for (mark, need) in self.marks.iter_mut().zip(&needs[from..]) {
            *mark = mark_of(need);
        }
        self.from = from;
        self.marks[0]
    }
}

/// The mark of a need's class. It is made of the ends of a few texts, and so takes no longer for a need of many
/// features or of long texts.
fn mark_of(need: &Need) -> u64 {
    let mut mark = FoldHasher::default();
    mark_text(&mut mark, need.system.as_slice());
    let features = need.features.as_slice();
    if let Some(first) = features.first() {
        mark_text(&mut mark, first.as_slice());
    }
    if let Some(last) = features.last() {
        mark_text(&mut mark, last.as_slice());
    }
    mark.write_usize(features.len());
    mark.finish()
}

/// Of a text longer than twice this many bytes, so many at either end are marked.
const END: usize = 16;

/// Marks a text: all of a short one, and the ends of a long one.
fn mark_text(mark: &mut FoldHasher, text: &[u8]) {
    if text.len() <= 2 * END {
        mark.write(text);
        return;
    }
    mark.write(&text[..END]);
    mark.write(&text[text.len() - END..]);
}
