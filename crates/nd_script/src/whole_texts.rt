//! Reading a whole text: a script, or a stand text.

ghost use Rattle.std.specs.Prelude.{◌≡◌, List, IfOk, IfErr};
ghost use Rattle.nd_script.specs.declared.command.Command.{Command};
ghost use Rattle.nd_script.specs.declared.rule.Rule.{Rule};
ghost use Rattle.nd_script.specs.Lines.{OkUnlessMemory};
ghost use Rattle.nd_script.specs.Script.{IsRefused, IsScript};
ghost use Rattle.nd_script.specs.Stand.{IsStand, IsStandRefused};

use crate::command::Command;
use crate::reading::read_text;
use crate::rule::Rule;
use crate::script_error::ScriptError;
use std::alloc::Global;

/// The commands of a script, one for each line, for a graph of `drvs` derivations and a park of
/// `machines` machines, the local one among them. Lines are separated by newlines, one may end the
/// last, and a text of no bytes has none. The words of a line are separated by single spaces:
///
/// `start D`, `startwith D PATH ..`, `built D`, `built D o PATH .. o ..`, `fail D C`, `lose D`,
/// `down D`, `stop`, `drain M`, `enable M`, `ask D`
///
/// with a derivation D below `drvs`, a machine M below `machines` and a status C of 0 to 255, written
/// without needless zeros. Paths may come in any order and may repeat: they are made sets. The form is
/// this project's own.
///
/// Refuses with `BadLine` (1) and the number of the first line that is none of these, counted from 1,
/// and with `Memory` (2) where an allocation is refused.
pub fn parse_script(
    alloc: Global,
    text: &[u8],
    drvs: usize,
    machines: usize,
) -> Result<Vec<Command>, ScriptError>
    ensures found { IfOk result (λ commands. IsScript drvs machines text.now commands.items) }
    ensures refused { IfErr result (IsRefused drvs machines text.now) }
    ensures exactly { (commands : List Command) → IsScript drvs machines text.now commands → OkUnlessMemory result (λ read. read.items ≡ commands) }
{
    read_text(alloc, text, drvs, machines)
}

/// The rules of a stand text, one for each line, of which the lines and words are as in a script
/// ([`parse_script`]):
///
/// `noconnect M`, `nocopy M`, `fail D C`, `lose D`, `built D`, `built D o PATH .. o ..`
///
/// `built D` reports no list at all.
///
/// Refuses with `BadLine` (1) and `Memory` (2) as [`parse_script`] does.
pub fn parse_stand(
    alloc: Global,
    text: &[u8],
    drvs: usize,
    machines: usize,
) -> Result<Vec<Rule>, ScriptError>
    ensures found { IfOk result (λ rules. IsStand drvs machines text.now rules.items) }
    ensures refused { IfErr result (IsStandRefused drvs machines text.now) }
    ensures exactly { (rules : List Rule) → IsStand drvs machines text.now rules → OkUnlessMemory result (λ read. read.items ≡ rules) }
{
    read_text(alloc, text, drvs, machines)
}
