//! Words and lines of words, which go to a writer over a page.

ghost use Rattle.std.specs.Prelude.{◌∷◌, ◌++◌, []};
ghost use Rattle.std.specs.Fmt.{decimal};
ghost use Rattle.nd_history_text.specs.Lines.{spaced};
ghost use Rattle.nd_history_text.specs.Rows.{row, share, text_of, texts_of};
ghost use Rattle.nd_devices.specs.Sending.{IsPut};

use itoa::Buffer;
use nd_devices::{Fault, Page, Told};
use std::io;

/// A word of a line.
#[derive(Clone, Copy)]
pub enum Word<'a> {
    /// These bytes.
    Text(&'a [u8]),
    /// A number, in decimal.
    Number(usize),
    /// Two numbers, in decimal, with a `/` between.
    Share(u32, u32),
}

/// Puts a line behind what the page holds: its first word, the others with a space before each, and
/// a newline.
///
/// `Fault`: the writer refused. Its mark is then set.
pub fn put_row<W: io::Write>(
    first: &[u8],
    others: &[Word<'_>],
    page: &mut Page,
    out: &mut Told<W>,
) -> Result<(), Fault>
    ensures { IsPut W.contents out.old page.old out.new page.new (row first.now (texts_of others.now)) result }
{
    put_line(first, others, page, out)?;
    page.put(b"\n", out)
}

/// Puts the words of a line behind what the page holds: the first, and the others with a space
/// before each.
fn put_line<W: io::Write>(
    first: &[u8],
    others: &[Word<'_>],
    page: &mut Page,
    out: &mut Told<W>,
) -> Result<(), Fault>
    ensures { IsPut W.contents out.old page.old out.new page.new (first.now ++ spaced (texts_of others.now)) result }
{
    page.put(first, out)?;
    put_words(others, page, out)
}

/// Puts words behind what the page holds, with a space before each.
///
/// `Fault`: the writer refused. Its mark is then set.
pub fn put_words<W: io::Write>(
    words: &[Word<'_>],
    page: &mut Page,
    out: &mut Told<W>,
) -> Result<(), Fault>
    ensures { IsPut W.contents out.old page.old out.new page.new (spaced (texts_of words.now)) result }
{
    for word in words {
        put_word(word, page, out)?;
    }
    Ok(())
}

/// Puts a word behind what the page holds, with a space before it.
///
/// `Fault`: the writer refused. Its mark is then set.
pub fn put_word<W: io::Write>(
    word: &Word<'_>,
    page: &mut Page,
    out: &mut Told<W>,
) -> Result<(), Fault>
    ensures { IsPut W.contents out.old page.old out.new page.new (spaced (text_of word.now ∷ [])) result }
{
    page.put(b" ", out)?;
    put_text(word, page, out)
}

/// Puts the bytes of a word behind what the page holds.
fn put_text<W: io::Write>(word: &Word<'_>, page: &mut Page, out: &mut Told<W>) -> Result<(), Fault>
    ensures { IsPut W.contents out.old page.old out.new page.new (text_of word.now) result }
{
    match word {
        Word::Text(bytes) => page.put(bytes, out),
        Word::Number(number) => put_number(*number, page, out),
        Word::Share(taken, all) => put_share(*taken, *all, page, out),
    }
}

/// Puts two numbers with a `/` between behind what the page holds.
fn put_share<W: io::Write>(
    taken: u32,
    all: u32,
    page: &mut Page,
    out: &mut Told<W>,
) -> Result<(), Fault>
    ensures { IsPut W.contents out.old page.old out.new page.new (share taken all) result }
{
    put_number(taken as usize, page, out)?;
    page.put(b"/", out)?;
    put_number(all as usize, page, out)
}

/// Puts a number behind what the page holds, in decimal.
fn put_number<W: io::Write>(number: usize, page: &mut Page, out: &mut Told<W>) -> Result<(), Fault>
    ensures { IsPut W.contents out.old page.old out.new page.new (decimal number) result }
{
    let mut digits = Buffer::new();
    page.put(digits.format(number).as_bytes(), out)
}
