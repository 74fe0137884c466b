//! Reading answers byte by byte, from a reader that remembers whether it refused.

ghost use Rattle.std.specs.Prelude.{◌≡◌, ◌∷◌, ◌⊎◌, [], None, true, false, IfSome, IfOk, IfErr, IsTrue};
ghost use Rattle.std.specs.Io.KnownBytes.{Consumes};
ghost use Rattle.nd_agents.specs.AnswerTexts.{word_line};
ghost use Rattle.nd_agents.specs.Heard.{IsSilent, IsNeither, NeverBegins, ReadsLine, IsUnheard};

use nd_devices::Told;
use std::alloc::Global;
use std::io::Read;

/// The most bytes of an answer's line.
const LONGEST: usize = 16_777_216;

/// Why no byte came.
#[derive(Clone, Copy, Debug, PartialEq, Eq)]
pub enum Silence {
    /// The reader is at its end.
    Ended,
    /// The reader refused, and is marked.
    Refused,
}

/// Why no line came.
#[derive(Clone, Copy, Debug, PartialEq, Eq)]
pub enum Unheard {
    /// The line has more than 16,777,216 bytes, or the reader is at its end before the newline.
    NoLine,
    /// The reader refused, and is marked.
    Refused,
    /// There was no memory for the line.
    Memory,
}

/// The next byte.
fn take_byte<R: Read>(answers: &mut Told<R>) -> Result<u8, Silence>
    ensures taken { IfOk result (λ b. Consumes (R.remaining answers.old.device) (R.remaining answers.new.device) (b ∷ [])) }
    ensures silent { IfErr result (IsSilent R.remaining answers.old answers.new) }
    ensures mark { IfOk result (λ b. answers.new.is_marked ≡ answers.old.is_marked) }
{
    let mut room = [0; 1];
    match answers.take(&mut room) {
        Ok(0) => Err(Silence::Ended),
        Ok(_) => Ok(room[0]),
        Err(_) => Err(Silence::Refused),
    }
}

/// Whether the next bytes are these. The first that differs is read, and none behind it.
fn follow<R: Read>(answers: &mut Told<R>, bytes: &[u8]) -> bool
    ensures yes { result ≡ true → Consumes (R.remaining answers.old.device) (R.remaining answers.new.device) bytes.now }
    ensures no { result ≡ false → (answers.new.is_marked ≡ true) ⊎ NeverBegins (R.remaining answers.old.device) bytes.now }
    ensures mark { result ≡ true → answers.new.is_marked ≡ answers.old.is_marked }
{
    for byte in bytes {
        match take_byte(answers) {
            Ok(taken) => {
                if taken != *byte {
                    return false;
                }
            }
            Err(Silence::Ended) => return false,
            Err(Silence::Refused) => return false,
        }
    }
    true
}

/// The yes or no that the next line is. `None` where it is neither, where the reader is at its end, or where
/// it refused and is marked.
pub(crate) fn hear_word<R: Read>(answers: &mut Told<R>) -> Option<bool>
    ensures heard { IfSome result (λ yes. Consumes (R.remaining answers.old.device) (R.remaining answers.new.device) (word_line yes)) }
    ensures neither { result ≡ None → (answers.new.is_marked ≡ true) ⊎ IsNeither (R.remaining answers.old.device) }
    ensures mark { IfSome result (λ yes. answers.new.is_marked ≡ answers.old.is_marked) }
{
    let first = match take_byte(answers) {
        Ok(first) => first,
        Err(Silence::Ended) => return None,
        Err(Silence::Refused) => return None,
    };
    match first {
        b'y' => {
            if follow(answers, b"es\n") {
                return Some(true);
            }
            None
        }
        b'n' => {
            if follow(answers, b"o\n") {
                return Some(false);
            }
            None
        }
        _ => None,
    }
}

/// The next line, without its newline.
#[tactic(auto, using(crate::proofs::Hearings::unended))]
pub(crate) fn hear_line<R: Read>(alloc: Global, answers: &mut Told<R>) -> Result<Vec<u8>, Unheard>
    ensures heard { IfOk result (λ line. ReadsLine (R.remaining answers.old.device) (R.remaining answers.new.device) line.items) }
    ensures unheard { IfErr result (IsUnheard R.remaining answers.old answers.new) }
    ensures mark { IfOk result (λ line. answers.new.is_marked ≡ answers.old.is_marked) }
{
    let mut line = Vec::new(alloc);
    while line.len() <= LONGEST {
        let byte = match take_byte(answers) {
            Ok(byte) => byte,
            Err(Silence::Ended) => return Err(Unheard::NoLine),
            Err(Silence::Refused) => return Err(Unheard::Refused),
        };
        if byte == b'\n' {
            return Ok(line);
        }
        if line.push(byte).is_err() {
            return Err(Unheard::Memory);
        }
    }
    Err(Unheard::NoLine)
}
