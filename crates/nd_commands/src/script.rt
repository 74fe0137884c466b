//! The script of a simulation.

ghost use Rattle.std.specs.Prelude.{◌≡◌, List, length, IfOk, IfErr};
ghost use Rattle.nd_script.specs.declared.command.Command.{Command};
ghost use Rattle.nd_cli.specs.Inputs.{OkUnlessMemory};
ghost use Rattle.std.specs.List.{All};
ghost use Rattle.nd_history.specs.Choices.{machines_in};
ghost use Rattle.nd_sim.specs.Answers.{IsNamed};
ghost use Rattle.nd_commands.specs.Scripts.{HasScript, IsScriptFault};

use nd_cli::{CliFault, LIMIT, Place};
use nd_ledger::Dispatch;
use nd_script::{Command, ScriptError, parse_script};
use std::alloc::Global;

/// The commands of a script for this dispatch.
///
/// `TooLarge`: it has more than [`LIMIT`] bytes. `Script`: it is refused. `Memory`.
pub(crate) fn read_script(
    alloc: Global,
    dispatch: &Dispatch,
    script: &[u8],
) -> Result<Vec<Command>, CliFault>
    ensures read { IfOk result (λ commands. HasScript dispatch.now.inputs script.now commands.items) }
    ensures named { IfOk result (λ commands. All (IsNamed dispatch.now.inputs) commands.items) }
    ensures refused { IfErr result (IsScriptFault dispatch.now.inputs script.now) }
    ensures exactly { (commands : List Command) → HasScript dispatch.now.inputs script.now commands → OkUnlessMemory result (λ read. read.items ≡ commands) }
{
    if script.len() > LIMIT {
        return Err(CliFault::TooLarge(Place::Script));
    }
    let drvs = dispatch.graph().len();
    let machines = dispatch.machine_count() as usize;
    match parse_script(alloc, script, drvs, machines) {
        Ok(commands) => Ok(commands),
        Err(ScriptError::Memory) => Err(CliFault::Memory),
        Err(refusal) => Err(CliFault::Script(refusal)),
    }
}
