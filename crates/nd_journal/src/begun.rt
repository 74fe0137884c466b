//! The last line of a journal that isn't finished.

ghost use Rattle.std.specs.Prelude.{◌≡◌, true, MatchBool};
ghost use Rattle.std.specs.List.{list_all};
ghost use Rattle.nd_journal.specs.BegunLines.{IsBegunAs, IsBegunLine, IsNoBegunLine, IsNotBegunAs, head_of, is_line_byte, may_have};
ghost use Rattle.nd_journal.specs.WholeLines.{IsBeginning, IsNoBeginning};

use nd_history_text::kinds::Kind;

/// Whether these bytes may be what a crash has left of an entry's line.
#[tactic(auto, using(crate::proofs::LineStarts::lines))]
pub(crate) fn is_begun_line(bytes: &[u8]) -> bool
    ensures { MatchBool result (IsBegunLine bytes.now) (IsNoBegunLine bytes.now) }
{
    if !are_line_bytes(bytes) {
        return false;
    }
    if is_begun_as(Kind::Choice, bytes) {
        return true;
    }
    if is_begun_as(Kind::NoChoice, bytes) {
        return true;
    }
    if is_begun_as(Kind::Start, bytes) {
        return true;
    }
    if is_begun_as(Kind::Return, bytes) {
        return true;
    }
    if is_begun_as(Kind::Finish, bytes) {
        return true;
    }
    if is_begun_as(Kind::Failure, bytes) {
        return true;
    }
    if is_begun_as(Kind::Halt, bytes) {
        return true;
    }
    if is_begun_as(Kind::Drained, bytes) {
        return true;
    }
    is_begun_as(Kind::Enabled, bytes)
}

/// Whether each of these bytes is one that entries' lines have.
fn are_line_bytes(bytes: &[u8]) -> bool
    ensures { result ≡ list_all is_line_byte bytes.now }
{
    bytes.iter().all(|byte| is_line_byte(*byte))
}

/// Whether the byte is one that entries' lines have: a letter, a digit, one of `+-._?=` and `/`, or a space.
fn is_line_byte(byte: u8) -> bool
    ensures { result ≡ is_line_byte byte }
{
    matches!(byte, b'0'..=b'9' | b'A'..=b'Z' | b'a'..=b'z')
        || matches!(byte, b'+' | b'-' | b'.' | b'_' | b'?' | b'=')
        || matches!(byte, b'/' | b' ')
}

/// Whether these bytes, each of which entries' lines have, may be what is left of a line of this kind.
#[tactic(auto, using(crate::proofs::LineStarts::kinds))]
fn is_begun_as(kind: Kind, bytes: &[u8]) -> bool
    requires { list_all is_line_byte bytes.now ≡ true }
    ensures { MatchBool result (IsBegunAs kind bytes.now) (IsNotBegunAs kind bytes.now) }
{
    if !may_have(kind, bytes.len()) {
        return false;
    }
    let head = head_of(kind);
    if begins_with(head, bytes) {
        return true;
    }
    begins_with(bytes, head)
}

/// Whether a line of this kind may have so many bytes before its newline. One with store paths may have any number.
fn may_have(kind: Kind, length: usize) -> bool
    ensures { result ≡ may_have kind length }
{
    match kind {
        Kind::Choice => length <= 39,
        Kind::NoChoice => length <= 20,
        Kind::Start => true,
        Kind::Return => length <= 15,
        Kind::Finish => true,
        Kind::Failure => length <= 28,
        Kind::Halt => length <= 4,
        Kind::Drained => length <= 16,
        Kind::Enabled => length <= 17,
    }
}

/// The first word of a line of this kind, and the space behind it.
#[tactic(auto, unfolding(nd_history_text::specs::Lines::word_of))]
fn head_of(kind: Kind) -> &'static [u8]
    ensures { result.now ≡ head_of kind }
{
    match kind {
        Kind::Choice => b"chosen ",
        Kind::NoChoice => b"nobuilder ",
        Kind::Start => b"started ",
        Kind::Return => b"down ",
        Kind::Finish => b"built ",
        Kind::Failure => b"failed ",
        Kind::Halt => b"stop ",
        Kind::Drained => b"drain ",
        Kind::Enabled => b"enable ",
    }
}

/// Whether the text begins with these bytes.
#[tactic(auto, using(crate::proofs::Reading::firsts))]
pub(crate) fn begins_with(text: &[u8], front: &[u8]) -> bool
    ensures { MatchBool result (IsBeginning front.now text.now) (IsNoBeginning front.now text.now) }
{
    match text.strip_prefix(front) {
        Some(_) => true,
        None => false,
    }
}
