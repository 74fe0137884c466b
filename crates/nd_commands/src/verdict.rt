//! The line that an audit writes.

ghost use Rattle.std.specs.Prelude.{◌≡◌, ◌||◌, ◌++◌, ◌∷◌, [], true, false, is_err, OnOk, OnErr};
ghost use Rattle.std.specs.Fmt.{decimal};
ghost use Rattle.std.specs.Io.KnownBytes.{Appends};
ghost use Rattle.nd_devices.specs.Written.{WritesPart};
ghost use Rattle.nd_history.specs.Audit.{rule_name};
ghost use Rattle.nd_commands.specs.Audited.{legal_line, illegal_line, refusal_words, verdict_word};

use itoa::Buffer;
use nd_devices::{Fault, Told};
use nd_history::Rule;
use std::io::Write;

/// Writes that a history of so many entries is legal, and has the writer pass on what it holds back.
#[tactic(auto, using(crate::proofs::Answering::writes), unfolding(crate::specs::Audited::legal_line, nd_hook::specs::ReplyText::line))]
pub(crate) fn write_legal<W: Write>(count: usize, output: &mut Told<W>) -> Result<(), Fault>
    ensures written { OnOk result (Appends (W.contents output.old.device) (W.contents output.new.device) (legal_line count)) }
    ensures partly { OnErr result (WritesPart (W.contents output.old.device) (W.contents output.new.device) (legal_line count)) }
    ensures mark { output.new.is_marked ≡ (output.old.is_marked || is_err result) }
{
    put_legal(count, output)?;
    end_line(output)
}

/// Writes which entry of a history is the first that is not allowed, and by which rule, and has the
/// writer pass on what it holds back.
#[tactic(auto, using(crate::proofs::Answering::writes), unfolding(crate::specs::Audited::illegal_line, nd_hook::specs::ReplyText::line))]
pub(crate) fn write_illegal<W: Write>(
    index: usize,
    rule: Rule,
    output: &mut Told<W>,
) -> Result<(), Fault>
    ensures written { OnOk result (Appends (W.contents output.old.device) (W.contents output.new.device) (illegal_line index rule)) }
    ensures partly { OnErr result (WritesPart (W.contents output.old.device) (W.contents output.new.device) (illegal_line index rule)) }
    ensures mark { output.new.is_marked ≡ (output.old.is_marked || is_err result) }
{
    put_illegal(index, rule, output)?;
    end_line(output)
}

/// Ends a line, and has the writer pass on what it holds back.
#[tactic(auto, using(nd_devices::proofs::Pieces::flushes))]
fn end_line<W: Write>(output: &mut Told<W>) -> Result<(), Fault>
    ensures written { OnOk result (Appends (W.contents output.old.device) (W.contents output.new.device) (10 ∷ [])) }
    ensures partly { OnErr result (WritesPart (W.contents output.old.device) (W.contents output.new.device) (10 ∷ [])) }
    ensures mark { output.new.is_marked ≡ (output.old.is_marked || is_err result) }
{
    output.put_all(b"\n")?;
    output.flush()?;
    Ok(())
}

/// Writes the words for a legal history.
#[tactic(auto, using(nd_devices::proofs::Pieces::writes))]
fn put_legal<W: Write>(count: usize, output: &mut Told<W>) -> Result<(), Fault>
    ensures written { OnOk result (Appends (W.contents output.old.device) (W.contents output.new.device) (verdict_word true ++ decimal count)) }
    ensures partly { OnErr result (WritesPart (W.contents output.old.device) (W.contents output.new.device) (verdict_word true ++ decimal count)) }
    ensures mark { output.new.is_marked ≡ (output.old.is_marked || is_err result) }
{
    output.put_all(word(true))?;
    put_number(count, output)
}

/// Writes the words for a history that isn't legal.
#[tactic(auto, using(nd_devices::proofs::Pieces::writes))]
fn put_illegal<W: Write>(index: usize, rule: Rule, output: &mut Told<W>) -> Result<(), Fault>
    ensures written { OnOk result (Appends (W.contents output.old.device) (W.contents output.new.device) (verdict_word false ++ refusal_words index rule)) }
    ensures partly { OnErr result (WritesPart (W.contents output.old.device) (W.contents output.new.device) (verdict_word false ++ refusal_words index rule)) }
    ensures mark { output.new.is_marked ≡ (output.old.is_marked || is_err result) }
{
    output.put_all(word(false))?;
    put_cause(index, rule, output)
}

/// Writes a place and a rule.
#[tactic(auto, using(nd_devices::proofs::Pieces::writes))]
fn put_cause<W: Write>(index: usize, rule: Rule, output: &mut Told<W>) -> Result<(), Fault>
    ensures written { OnOk result (Appends (W.contents output.old.device) (W.contents output.new.device) (refusal_words index rule)) }
    ensures partly { OnErr result (WritesPart (W.contents output.old.device) (W.contents output.new.device) (refusal_words index rule)) }
    ensures mark { output.new.is_marked ≡ (output.old.is_marked || is_err result) }
{
    put_number(index, output)?;
    output.put_all(spaced_name(rule))
}

/// What a verdict begins with.
#[tactic(auto, unfolding(crate::specs::Audited::verdict_word))]
fn word(is_legal: bool) -> &'static [u8]
    ensures { result.now ≡ verdict_word is_legal }
{
    if is_legal {
        return b"legal ";
    }
    b"illegal "
}

/// Writes a number.
fn put_number<W: Write>(number: usize, output: &mut Told<W>) -> Result<(), Fault>
    ensures written { OnOk result (Appends (W.contents output.old.device) (W.contents output.new.device) (decimal number)) }
    ensures partly { OnErr result (WritesPart (W.contents output.old.device) (W.contents output.new.device) (decimal number)) }
    ensures mark { output.new.is_marked ≡ (output.old.is_marked || is_err result) }
{
    let mut buffer = Buffer::new();
    output.put_all(buffer.format(number).as_bytes())
}

/// The name of a rule, behind a space.
fn spaced_name(rule: Rule) -> &'static [u8]
    ensures { result.now ≡ 32 ∷ rule_name rule }
{
    match rule {
        Rule::Range => b" Range",
        Rule::Ready => b" Ready",
        Rule::Decision => b" Decision",
        Rule::Best => b" Best",
        Rule::Slot => b" Slot",
        Rule::Live => b" Live",
        Rule::Started => b" Started",
        Rule::Paths => b" Paths",
        Rule::References => b" References",
        Rule::Stopped => b" Stopped",
    }
}
