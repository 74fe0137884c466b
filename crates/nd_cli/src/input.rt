//! Reading an input of the program whole, within its limit.

ghost use Rattle.std.specs.Prelude.{◌≡◌, ◌≤◌, ◌||◌, vec_len, IfOk, IfErr};
ghost use Rattle.std.specs.Io.KnownBytes.{Consumes, IsAtEnd};
ghost use Rattle.nd_cli.specs.Inputs.{ReadsWhole, IsReadFault, is_read_failure};

use crate::fault::CliFault;
use nd_bytes::ByteString;
use nd_devices::{TakeError, Told};
use std::alloc::Global;
use std::io::Read;

/// The most bytes that an input of the program may have.
pub const LIMIT: usize = 67_108_864;

/// Reads an input to its end, or to one byte past [`LIMIT`], so that its length says whether it is
/// too large. How many reads that takes isn't stated.
///
/// `Read`: the reader refused a read, and is then marked. `Memory`: there was no room for the bytes.
/// Nothing but a refused read sets the mark.
pub fn read_input<R: Read>(alloc: Global, input: &mut Told<R>) -> Result<ByteString, CliFault>
    ensures read { IfOk result (λ bytes. ReadsWhole (R.remaining input.old.device) (R.remaining input.new.device) bytes) }
    ensures fault { IfErr result (λ e. IsReadFault input.new.is_marked e) }
    ensures mark { input.new.is_marked ≡ (input.old.is_marked || is_read_failure result) }
{
    match input.take_all(alloc, LIMIT) {
        Ok(bytes) => Ok(ByteString::new(bytes)),
        Err(TakeError::Fault) => Err(CliFault::Read),
        Err(TakeError::Memory) => Err(CliFault::Memory),
    }
}
