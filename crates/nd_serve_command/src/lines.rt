//! Reading a line.

ghost use Rattle.std.specs.Prelude.{IfOk, MatchOption};
ghost use Rattle.nd_desk.specs.Hearing.{IsLineHeard};
ghost use Rattle.nd_serve_command.specs.Lines.{EndsAt, IsEndless};

use nd_bytes::{ByteString, cut};
use nd_desk::DeskFault;
use std::alloc::Global;
use std::io::{BufRead, Error, ErrorKind};

/// The next line of a reader, without its newline: `None` at its end. What stands behind the last newline is no
/// line, since of a line that isn't finished nobody knows what it was to be.
///
/// Refuses with `Refused` (1) where the reader refused a read, and with `Memory` (2) where an allocation
/// was refused, or a read for want of memory. A part of the line may have been read then.
#[tactic(auto, using(crate::proofs::LineReading::readings))]
pub(crate) fn next_line<R: BufRead>(
    alloc: Global,
    input: &mut R,
) -> Result<Option<ByteString>, DeskFault>
    ensures { IfOk result (λ line. IsLineHeard (R.remaining input.old) (R.remaining input.new) line) }
{
    let mut line = Vec::new(alloc);
    match input.read_until(b'\n', &mut line) {
        Ok(_) => {}
        Err(error) => return Err(fault_of(error)),
    }
    match line_end(line.as_slice()) {
        Some(end) => {
            line.truncate(end);
            Ok(Some(ByteString::new(line)))
        }
        None => Ok(None),
    }
}

/// How many bytes stand before the first newline: `None` where there is none.
fn line_end(text: &[u8]) -> Option<usize>
    ensures { MatchOption result (IsEndless text.now) (EndsAt text.now) }
{
    let (front, rest) = cut(text, b'\n');
    match rest {
        Some(_) => Some(front.len()),
        None => None,
    }
}

/// Why a reader gave no line: it refused, or there was no memory for the line.
fn fault_of(error: Error) -> DeskFault {
    if error.kind() == ErrorKind::OutOfMemory {
        DeskFault::Memory
    } else {
        DeskFault::Refused
    }
}
