//! How a history is written.

ghost use Rattle.std.specs.Prelude.{◌≡◌, ◌||◌, not, ◌∷◌, ◌++◌, [], is_err, OnOk, OnErr};
ghost use Rattle.std.specs.Fmt.{decimal};
ghost use Rattle.std.specs.Io.KnownBytes.{Appends};
ghost use Rattle.std.specs.List.{flat_map, list_any};
ghost use Rattle.nd_devices.specs.Written.{WritesPart};
ghost use Rattle.nd_history_text.specs.HistoryTexts.{cause_words, output_words, line_of, history_text, is_told_in, version_of, written_text};
ghost use Rattle.nd_history_text.specs.declared.kinds.Version.TheVariants.{First};
ghost use Rattle.nd_history_text.specs.Lines.{kind_of, others_of, word_of, spaced};
ghost use Rattle.nd_devices.specs.Sending.{IsPut};

use crate::kinds::Version;
use crate::lines::{is_told, kind, opening, word};
use crate::rows::{Word, put_word, put_words};
use nd_devices::{Fault, Page, Told, WriteError};
use nd_history::{Entry, Why};
use nd_path::{PathSet, StorePath};
use std::io;

/// Writes the text of a history: a first line with the version, then a line for each entry, each
/// with its newline. It is version 2 where a machine was drained or enabled, and else version 1. It
/// takes no memory, and hands the text to the writer in pieces of about 4,096 bytes.
///
/// Refusal 1 `Write`: the device refused a write. Its mark is then set, and a part of the text, from
/// its beginning, may be out.
#[tactic(auto, using(nd_devices::proofs::Sent::ends))]
pub fn write_history<W: io::Write>(entries: &[Entry], out: &mut Told<W>) -> Result<(), WriteError>
    ensures written { OnOk result (Appends (W.contents out.old.device) (W.contents out.new.device) (written_text entries.now)) }
    ensures partly { OnErr result (WritesPart (W.contents out.old.device) (W.contents out.new.device) (written_text entries.now)) }
    ensures mark { out.new.is_marked ≡ (out.old.is_marked || is_err result) }
{
    let mut page = Page::new();
    put_history(version(entries), entries, &mut page, out)?;
    page.send(out)?;
    Ok(())
}

/// Writes the lines of these entries, each with its newline, and no first line: what
/// [`write_history`] writes behind the first line. It takes no memory, and hands the text to the
/// writer in pieces of about 4,096 bytes.
///
/// Refusal 1 `Write`: the device refused a write. Its mark is then set, and a part of the lines, from
/// their beginning, may be out.
#[tactic(auto, using(nd_devices::proofs::Sent::ends))]
pub fn write_lines<W: io::Write>(entries: &[Entry], out: &mut Told<W>) -> Result<(), WriteError>
    ensures written { OnOk result (Appends (W.contents out.old.device) (W.contents out.new.device) (flat_map line_of entries.now)) }
    ensures partly { OnErr result (WritesPart (W.contents out.old.device) (W.contents out.new.device) (flat_map line_of entries.now)) }
    ensures mark { out.new.is_marked ≡ (out.old.is_marked || is_err result) }
{
    if entries.is_empty() {
        return Ok(());
    }
    let mut page = Page::new();
    put_lines(entries, &mut page, out)?;
    page.send(out)?;
    Ok(())
}

/// The version in which a history is written.
fn version(entries: &[Entry]) -> Version
    ensures { result ≡ version_of entries.now }
{
    if needs_second(entries) {
        Version::Second
    } else {
        Version::First
    }
}

/// Whether there is an entry that the first version doesn't tell.
fn needs_second(entries: &[Entry]) -> bool
    ensures { result ≡ list_any (λ e. not (is_told_in First e)) entries.now }
{
    entries.iter().any(|entry| !is_told(Version::First, entry))
}

/// Writes the first line and those of the entries.
fn put_history<W: io::Write>(
    version: Version,
    entries: &[Entry],
    page: &mut Page,
    out: &mut Told<W>,
) -> Result<(), Fault>
    ensures { IsPut W.contents out.old page.old out.new page.new (history_text version entries.now) result }
{
    page.put(opening(version), out)?;
    put_lines(entries, page, out)
}

/// Writes the lines of these entries.
fn put_lines<W: io::Write>(
    entries: &[Entry],
    page: &mut Page,
    out: &mut Told<W>,
) -> Result<(), Fault>
    ensures { IsPut W.contents out.old page.old out.new page.new (flat_map line_of entries.now) result }
{
    for entry in entries {
        put_line(entry, page, out)?;
    }
    Ok(())
}

/// Writes an entry's line.
fn put_line<W: io::Write>(entry: &Entry, page: &mut Page, out: &mut Told<W>) -> Result<(), Fault>
    ensures { IsPut W.contents out.old page.old out.new page.new (line_of entry.now) result }
{
    put_entry(entry, page, out)?;
    page.put(b"\n", out)
}

/// Writes the words of an entry's line.
fn put_entry<W: io::Write>(entry: &Entry, page: &mut Page, out: &mut Told<W>) -> Result<(), Fault>
    ensures { IsPut W.contents out.old page.old out.new page.new (word_of (kind_of entry.now) ++ spaced (others_of entry.now)) result }
{
    page.put(word(kind(entry)), out)?;
    put_others(entry, page, out)
}

/// Writes the words behind the first of an entry's line.
fn put_others<W: io::Write>(entry: &Entry, page: &mut Page, out: &mut Told<W>) -> Result<(), Fault>
    ensures { IsPut W.contents out.old page.old out.new page.new (spaced (others_of entry.now)) result }
{
    match entry {
        Entry::Chosen { drv, machine, slot } => {
            let place = [
                Word::Number(*drv as usize),
                Word::Number(*machine as usize),
                Word::Number(*slot as usize),
            ];
            put_words(&place, page, out)
        }
        Entry::NoBuilder { drv } | Entry::Down { drv } => put_number(*drv, page, out),
        Entry::Started { drv, paths } => {
            put_number(*drv, page, out)?;
            put_paths(paths.as_slice(), page, out)
        }
        Entry::Built { drv, refs } => {
            put_number(*drv, page, out)?;
            put_lists(refs.lists(), page, out)
        }
        Entry::Failed { drv, why } => {
            put_number(*drv, page, out)?;
            put_cause(*why, page, out)
        }
        Entry::Stop => Ok(()),
        Entry::Drain { machine } | Entry::Enable { machine } => put_number(*machine, page, out),
    }
}

/// Writes a number as a word.
fn put_number<W: io::Write>(number: u32, page: &mut Page, out: &mut Told<W>) -> Result<(), Fault>
    ensures { IsPut W.contents out.old page.old out.new page.new (spaced (decimal number ∷ [])) result }
{
    put_word(&Word::Number(number as usize), page, out)
}

/// Writes why a lease ended without its outputs.
fn put_cause<W: io::Write>(why: Why, page: &mut Page, out: &mut Told<W>) -> Result<(), Fault>
    ensures { IsPut W.contents out.old page.old out.new page.new (spaced (cause_words why)) result }
{
    match why {
        Why::Status(status) => {
            let words = [Word::Text(b"status"), Word::Number(usize::from(status))];
            put_words(&words, page, out)
        }
        Why::Lost => put_word(&Word::Text(b"lost"), page, out),
        Why::BadReferences => put_word(&Word::Text(b"references"), page, out),
        Why::NoWorker => put_word(&Word::Text(b"noworker"), page, out),
        Why::Memory => put_word(&Word::Text(b"memory"), page, out),
    }
}

/// Writes for each output an `o` and its references.
fn put_lists<W: io::Write>(
    lists: &[PathSet],
    page: &mut Page,
    out: &mut Told<W>,
) -> Result<(), Fault>
    ensures { IsPut W.contents out.old page.old out.new page.new (spaced (flat_map output_words lists.now)) result }
{
    for list in lists {
        put_list(list, page, out)?;
    }
    Ok(())
}

/// Writes an `o` and the references of one output.
fn put_list<W: io::Write>(list: &PathSet, page: &mut Page, out: &mut Told<W>) -> Result<(), Fault>
    ensures { IsPut W.contents out.old page.old out.new page.new (spaced (output_words list.now)) result }
{
    put_word(&Word::Text(b"o"), page, out)?;
    put_paths(list.as_slice(), page, out)
}

/// Writes store paths as words.
fn put_paths<W: io::Write>(
    paths: &[StorePath],
    page: &mut Page,
    out: &mut Told<W>,
) -> Result<(), Fault>
    ensures { IsPut W.contents out.old page.old out.new page.new (spaced paths.now) result }
{
    for path in paths {
        put_word(&Word::Text(path.bytes()), page, out)?;
    }
    Ok(())
}
