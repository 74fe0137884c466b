//! The command `park`.

ghost use Rattle.std.specs.Prelude.{◌≡◌, ◌||◌, false, is_err, IfOk, IfErr, OnOk, OnErr};
ghost use Rattle.std.specs.Io.KnownBytes.{Appends};
ghost use Rattle.nd_devices.specs.Written.{WritesPart};
ghost use Rattle.nd_cli.specs.Inputs.{is_write_failure};
ghost use Rattle.nd_cli.specs.Listed.{IsParkText, IsUnlisted, ListsPark, IsListFault};

use crate::fault::CliFault;
use crate::options::ParkOptions;
use crate::park::read_setting;
use crate::slot_lines::park_text;
use nd_devices::{Fault, Told};
use std::alloc::Global;
use std::io::Write;

/// Writes a line `M S URI KEY HOSTKEY` for each slot S of each machine M of the park, in their order, with
/// the key and the host key as they stand in the builders list, and `-` for what isn't given; the local
/// machine has `local` for its URI. No bundle is read: the park is that of a bundle of no derivations. The
/// status is 0.
///
/// The first refusal in this order is answered, and nothing is written then: `TooLarge` or `Builders` for the
/// builders list; `TooLarge` or `Info` for the info text; `TooManySlots` where there are more than 1,024
/// slots. `Memory` may come at any point before the lines are written. `Write` leaves a part of them, from
/// their beginning. The writer is marked exactly at `Write`.
pub fn park_engine<W: Write>(
    alloc: Global,
    options: &ParkOptions,
    output: &mut Told<W>,
) -> Result<u8, CliFault>
    requires { output.old.is_marked ≡ false }
    ensures status { IfOk result (λ status. status ≡ 0) }
    ensures answer { OnOk result (ListsPark options.now (W.contents output.old.device) (W.contents output.new.device)) }
    ensures fault { IfErr result (IsListFault options.now W.contents output.old output.new) }
    ensures mark { output.new.is_marked ≡ is_write_failure result }
{
    let text = text_of_park(alloc, options)?;
    let written = write_text(text.as_slice(), output);
    drop(text);
    match written {
        Ok(()) => Ok(0),
        Err(Fault) => Err(CliFault::Write),
    }
}

/// The lines of the park that the options describe.
fn text_of_park(alloc: Global, options: &ParkOptions) -> Result<Vec<u8>, CliFault>
    ensures read { IfOk result (λ text. IsParkText options.now text.items) }
    ensures refused { IfErr result (IsUnlisted options.now) }
{
    let setting = read_setting(alloc, options)?;
    let text = park_text(alloc, &setting.local, &setting.machines);
    drop(setting);
    text
}

/// Writes a text, and has the writer pass it on.
///
/// `Fault`: the writer refused, and is marked. A part of the text, from its beginning, may be out.
#[tactic(auto, using(nd_devices::proofs::Pieces::flushes))]
fn write_text<W: Write>(text: &[u8], output: &mut Told<W>) -> Result<(), Fault>
    ensures written { OnOk result (Appends (W.contents output.old.device) (W.contents output.new.device) text.now) }
    ensures partly { OnErr result (WritesPart (W.contents output.old.device) (W.contents output.new.device) text.now) }
    ensures mark { output.new.is_marked ≡ (output.old.is_marked || is_err result) }
{
    output.put_all(text)?;
    output.flush()
}
