//! What `run` is given.

ghost use Rattle.std.specs.Prelude.{◌≡◌, ℕ, List, Some, false, IfOk, IfErr};
ghost use Rattle.nd_script.specs.declared.rule.Rule.{Rule};
ghost use Rattle.nd_cli.specs.Inputs.{OkUnlessMemory, is_read_failure};
ghost use Rattle.nd_cli.specs.Statuses.{RefusesNoInput};
ghost use Rattle.nd_run_command.specs.Given.{HasRules, IsGiven, IsGivenAccepted, IsStandFault, IsGivenFault};

use nd_cli::{CliFault, LIMIT, ParkOptions, Place, take_park};
use nd_devices::Told;
use nd_ledger::Dispatch;
use nd_script::{Rule, ScriptError, parse_stand};
use std::alloc::Global;
use std::io::Read;
use std::thread::Threads;

/// What `run` is given, once all of it is accepted.
#[derive(Drop)]
pub struct RunInputs {
    /// The derivations and the park, on which nothing is begun yet.
    pub dispatch: Dispatch,
    /// The rules of the stand-ins.
    pub rules: Vec<Rule>,
}

/// Reads the bundle on the input, and what the options name; `stand` is the stand text, which is empty
/// without the option `--stand`. The dispatch has an empty history.
///
/// The first refusal in this order is answered: `Read`; `TooLarge` or `Drvs` for the bundle; `TooLarge`
/// or `Builders` for the builders list; `TooLarge` or `Info` for the info text; `TooLarge` or `Stand`
/// for the stand text. `Memory` may come at any point. The reader is marked exactly at `Read`.
/// Where a reader that is known to have a whole bundle left has one that is accepted, with the other
/// inputs, nothing but `Read` and `Memory` comes.
pub fn run_inputs<R: Read>(
    rt: &(impl Threads + Sync),
    alloc: Global,
    options: &ParkOptions,
    stand: &[u8],
    input: &mut Told<R>,
) -> Result<RunInputs, CliFault>
    requires reader { input.old.is_marked ≡ false }
    ensures read { IfOk result (λ given. IsGiven options.now stand.now R.remaining input.old input.new given.dispatch given.rules.items) }
    ensures exactly { (text : List ℕ) → R.remaining input.old.device ≡ Some text → IsGivenAccepted options.now text stand.now → RefusesNoInput result }
    ensures mark { input.new.is_marked ≡ is_read_failure result }
    ensures fault { IfErr result (IsGivenFault options.now stand.now R.remaining input.old input.new) }
{
    let park = take_park(rt, alloc, options, input)?;
    let machines = park.machines.len() + 1;
    // For the proof: with `?` here, beside the park, the search doesn't find what this exit says of the mark.
    let rules = match read_rules(alloc, stand, park.graph.len(), machines) {
        Ok(rules) => rules,
        Err(fault) => return Err(fault),
    };
    match Dispatch::new(
        alloc,
        park.graph,
        park.machines,
        park.local,
        park.info,
        options.keep_going,
    ) {
        Ok(dispatch) => Ok(RunInputs { dispatch, rules }),
        Err(_) => Err(CliFault::Memory),
    }
}

/// The rules of a stand text, for a graph of `drvs` derivations and a park of `machines` machines.
///
/// `TooLarge`: it has more than [`LIMIT`] bytes. `Stand`: it is refused. `Memory`.
fn read_rules(
    alloc: Global,
    stand: &[u8],
    drvs: usize,
    machines: usize,
) -> Result<Vec<Rule>, CliFault>
    ensures read { IfOk result (λ rules. HasRules stand.now drvs machines rules.items) }
    ensures refused { IfErr result (IsStandFault stand.now drvs machines) }
    ensures exactly { (rules : List Rule) → HasRules stand.now drvs machines rules → OkUnlessMemory result (λ read. read.items ≡ rules) }
{
    if stand.len() > LIMIT {
        return Err(CliFault::TooLarge(Place::Stand));
    }
    match parse_stand(alloc, stand, drvs, machines) {
        Ok(rules) => Ok(rules),
        Err(ScriptError::Memory) => Err(CliFault::Memory),
        Err(refusal) => Err(CliFault::Stand(refusal)),
    }
}
