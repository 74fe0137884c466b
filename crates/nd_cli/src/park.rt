//! What the command line and the bundle describe: the graph, the local machine and the builders, and
//! the references of paths.

ghost use Rattle.std.specs.Prelude.{◌≡◌, ◌≤◌, ◌||◌, ℕ, List, false, length, IfOk, IfErr};
ghost use Rattle.nd_machines.specs.Builders.{Builder};
ghost use Rattle.nd_graph.specs.Graphs.{Nodes};
ghost use Rattle.nd_cli.specs.Asked.{IsAskFault, ReadsPark};
ghost use Rattle.nd_cli.specs.Blocks.{AnswersKnownPark};
ghost use Rattle.nd_cli.specs.Inputs.{OkUnlessMemory, is_read_failure};
ghost use Rattle.nd_cli.specs.Parks.{AnswersAcceptedPark, HasGraph, HasBuilders, HasInfo, HasPark, IsAccepted, IsBundleFault, IsBuildersFault, IsInfoFault, IsParkFault, IsToldAs, local_of};
ghost use Rattle.nd_cli.specs.Setting.{AnswersAcceptedSetting, IsSettingFault};

use crate::blocks::take_graph;
use crate::fault::{CliFault, Place};
use crate::input::LIMIT;
use crate::options::ParkOptions;
use nd_bundle::GraphError;
use nd_closure::{InfoError, RefTable, parse_info};
use nd_devices::Told;
use nd_eligible::Local;
use nd_graph::Graph;
use nd_machines::{FeatureSet, Machine, MachineError, parse_builders};
use std::alloc::{AllocError, Global};
use std::io::Read;
use std::thread::Threads;

/// What a command over a bundle was given, once all of it is accepted.
#[derive(Drop)]
pub struct Park {
    /// The derivations.
    pub graph: Graph,
    /// The builders, in the order of their list.
    pub machines: Vec<Machine>,
    /// The local machine.
    pub local: Local,
    /// The paths that the info text lists, with their references.
    pub info: RefTable,
}

/// What the options of a command over a bundle say beside the bundle, once all of it is accepted.
#[derive(Drop)]
pub(crate) struct Setting {
    /// The builders, in the order of their list.
    pub(crate) machines: Vec<Machine>,
    /// The local machine.
    pub(crate) local: Local,
    /// The paths that the info text lists, with their references.
    pub(crate) info: RefTable,
}

/// What the bundle on the input and the options describe. There are at most 1,024 builders. The input is read to its
/// end, or to one byte past [`LIMIT`], in blocks: its text is never in memory whole.
///
/// The first refusal in this order is answered: `Read`; `TooLarge` or `Drvs` for the bundle; `TooLarge` or
/// `Builders` for the builders list; `TooLarge` or `Info` for the info text. `Memory` may come at any point. The
/// reader is marked exactly at `Read`. Where a reader that is known to have a whole bundle left has one that is
/// accepted, with the other inputs, nothing but `Read` and `Memory` comes.
pub fn take_park<R: Read>(
    rt: &(impl Threads + Sync),
    alloc: Global,
    options: &ParkOptions,
    input: &mut Told<R>,
) -> Result<Park, CliFault>
    ensures read { IfOk result (λ park. ReadsPark options.now (R.remaining input.old.device) (R.remaining input.new.device) park.graph park.machines.items park.info.entries) }
    ensures local { IfOk result (λ park. park.local ≡ local_of options.now) }
    ensures few { IfOk result (λ park. length park.machines.items ≤ 1024) }
    ensures fault { IfErr result (IsAskFault options.now R.remaining input.old input.new false) }
    ensures mark { input.new.is_marked ≡ (input.old.is_marked || is_read_failure result) }
    ensures exactly { AnswersKnownPark options.now (R.remaining input.old.device) result }
{
    let graph = take_graph(rt, alloc, options, input)?;
    park_over(alloc, options, graph)
}

/// The park of the options with the graph of its bundle, whatever text it was read from.
///
/// The first refusal in this order is answered: `TooLarge` or `Builders` for the builders list, `TooLarge` or
/// `Info` for the info text. `Memory` may come at any point.
fn park_over(alloc: Global, options: &ParkOptions, graph: Graph) -> Result<Park, CliFault>
    ensures read { (text : List ℕ) → HasGraph options.now text graph → IfOk result (λ park. HasPark options.now text park.graph park.machines.items park.info.entries) }
    ensures local { IfOk result (λ park. park.local ≡ local_of options.now) }
    ensures few { IfOk result (λ park. length park.machines.items ≤ 1024) }
    ensures refused { (text : List ℕ) → IsAccepted options.now text → IfErr result (IsParkFault options.now text) }
    ensures exactly { (text : List ℕ) → ((nodes : Nodes) → HasGraph options.now text nodes → graph ≡ nodes) → AnswersAcceptedPark options.now text result }
{
    match read_setting(alloc, options) {
        Ok(setting) => Ok(Park {
            graph,
            machines: setting.machines,
            local: setting.local,
            info: setting.info,
        }),
        Err(fault) => {
            // For the proof: the graph is let go by a call, and not in each goal of this exit.
            drop(graph);
            Err(fault)
        }
    }
}

/// What the options say beside the bundle. There are at most 1,024 builders.
///
/// The first refusal in this order is answered: `TooLarge` or `Builders` for the builders list, `TooLarge` or
/// `Info` for the info text. `Memory` may come at any point.
pub(crate) fn read_setting(alloc: Global, options: &ParkOptions) -> Result<Setting, CliFault>
    ensures builders { IfOk result (λ setting. HasBuilders options.now setting.machines.items) }
    ensures references { IfOk result (λ setting. HasInfo options.now setting.info.entries) }
    ensures local { IfOk result (λ setting. setting.local ≡ local_of options.now) }
    ensures few { IfOk result (λ setting. length setting.machines.items ≤ 1024) }
    ensures refused { IfErr result (IsSettingFault options.now) }
    ensures exactly { AnswersAcceptedSetting options.now result }
{
    // For the proof: what was read before a refusal is let go by calls, and not in each goal of that exit.
    let machines = read_builders(alloc, options)?;
    let info = match read_info(alloc, options) {
        Ok(info) => info,
        Err(fault) => {
            drop(machines);
            return Err(fault);
        }
    };
    match read_local(alloc, options) {
        Ok(local) => Ok(Setting {
            machines,
            local,
            info,
        }),
        Err(AllocError) => {
            drop(info);
            drop(machines);
            Err(CliFault::Memory)
        }
    }
}

/// What a refusal of a bundle is told as: `Memory` is no refusal of a bundle.
pub(crate) fn bundle_fault(refusal: GraphError) -> CliFault
    ensures { IsToldAs refusal result }
{
    match refusal {
        GraphError::Memory => CliFault::Memory,
        refusal => CliFault::Drvs(refusal),
    }
}

/// The builders that the options name.
///
/// `TooLarge`: their text has more than [`LIMIT`] bytes. `Builders`: it is refused. `Memory`.
fn read_builders(alloc: Global, options: &ParkOptions) -> Result<Vec<Machine>, CliFault>
    ensures read { IfOk result (λ machines. HasBuilders options.now machines.items) }
    ensures few { IfOk result (λ machines. length machines.items ≤ 1024) }
    ensures refused { IfErr result (IsBuildersFault options.now) }
    ensures exactly { (machines : List Builder) → HasBuilders options.now machines → OkUnlessMemory result (λ read. read.items ≡ machines) }
{
    if options.builders.len() > LIMIT {
        return Err(CliFault::TooLarge(Place::Builders));
    }
    match parse_builders(
        alloc,
        options.builders.as_slice(),
        options.system.as_slice(),
    ) {
        Ok(machines) => Ok(machines),
        Err(MachineError::Memory) => Err(CliFault::Memory),
        Err(refusal) => Err(CliFault::Builders(refusal)),
    }
}

/// The references that the options name.
///
/// `TooLarge`: their text has more than [`LIMIT`] bytes. `Info`: it is refused. `Memory`.
fn read_info(alloc: Global, options: &ParkOptions) -> Result<RefTable, CliFault>
    ensures read { IfOk result (λ info. HasInfo options.now info.entries) }
    ensures refused { IfErr result (IsInfoFault options.now) }
    ensures exactly { (info : List (List ℕ × List (List ℕ))) → HasInfo options.now info → OkUnlessMemory result (λ read. read.entries ≡ info) }
{
    if options.info.len() > LIMIT {
        return Err(CliFault::TooLarge(Place::Info));
    }
    match parse_info(alloc, options.info.as_slice()) {
        Ok(info) => Ok(info),
        Err(InfoError::Memory) => Err(CliFault::Memory),
        Err(refusal) => Err(CliFault::Info(refusal)),
    }
}

/// The settings of the local machine that the options name.
fn read_local(alloc: Global, options: &ParkOptions) -> Result<Local, AllocError>
    ensures { IfOk result (λ local. local ≡ local_of options.now) }
{
    let jobs = options.jobs;
    let system = options.system.try_clone()?;
    let extra = FeatureSet::from_list(alloc, options.extra.as_slice())?;
    let features = FeatureSet::from_list(alloc, options.features.as_slice())?;
    match Local::new(system, extra, features, u32::from(jobs)) {
        Some(local) => Ok(local),
        None => unreachable!(),
    }
}
