//! The graph of a bundle, or its needs, that is read from its input in blocks, so that its text is never in memory whole.

ghost use Rattle.std.specs.Prelude.{◌≡◌, ◌++◌, ◌<◌, ◌||◌, [], false, length, IfOk, IfErr, OnOk};
ghost use Rattle.nd_links.specs.Placing.{ArePlaced};
ghost use Rattle.nd_graph.specs.Graphs.{Nodes};
ghost use Rattle.nd_cli.specs.Asked.{IsAskFault};
ghost use Rattle.nd_cli.specs.Blocks.{AnswersKnownGraph, AnswersKnownNeeds, HasNeedsWithin, ReadsGraph, ReadsNeeds, ReadsPart};
ghost use Rattle.nd_cli.specs.Inputs.{IsReadFault, OkUnlessMemory, ReadsWhole, is_read_failure};
ghost use Rattle.nd_cli.specs.Parks.{HasGraph, IsBundleFault};

use crate::fault::{CliFault, Place};
use crate::input::LIMIT;
use crate::options::ParkOptions;
use crate::park::bundle_fault;
use crate::parts_reader::PartsReader;
use nd_bundle::{BundleReader, Needs, NeedsReader};
use nd_devices::{Fault, Told};
use nd_graph::Graph;
use std::alloc::Global;
use std::io::Read;
use std::mem;
use std::thread::{Threads, join_mut};

/// How many bytes the first block of an input has: fewer, since nothing else is done while it is read.
const FIRST: usize = 2_097_152;

/// How many bytes each other block has. Threads start and end for each.
const BLOCK: usize = 4_194_304;

/// How many bytes one read asks for at most.
const STEP: usize = 65_536;

/// The graph of the bundle on the input, which is read to its end, or to one byte past [`LIMIT`].
///
/// `Read`: the reader refused a read, and is then marked. `TooLarge`: the bundle has more than [`LIMIT`] bytes.
/// `Drvs`: it is refused. `Memory`.
pub(crate) fn take_graph<R: Read>(
    rt: &(impl Threads + Sync),
    alloc: Global,
    options: &ParkOptions,
    input: &mut Told<R>,
) -> Result<Graph, CliFault>
    ensures read { IfOk result (ReadsGraph options.now (R.remaining input.old.device) (R.remaining input.new.device)) }
    ensures fault { IfErr result (IsAskFault options.now R.remaining input.old input.new false) }
    ensures mark { input.new.is_marked ≡ (input.old.is_marked || is_read_failure result) }
    ensures exactly { AnswersKnownGraph options.now (R.remaining input.old.device) result }
{
    let mut reader = BundleReader::new(alloc, options.check_paths);
    let count = feed_input(rt, alloc, input, &mut reader)?;
    graph_of_blocks(rt, options, reader, count)
}

/// The graph of the bundle that the reader was fed, which has `count` bytes.
///
/// `TooLarge`: these are more than [`LIMIT`]. `Drvs`: it is refused. `Memory`.
fn graph_of_blocks(
    rt: &(impl Threads + Sync),
    options: &ParkOptions,
    reader: BundleReader,
    count: usize,
) -> Result<Graph, CliFault>
    requires check { reader.check ≡ options.now.check_paths }
    requires counted { count ≡ length reader.text }
    ensures read { IfOk result (HasGraph options.now reader.text) }
    ensures refused { IfErr result (IsBundleFault options.now reader.text) }
    ensures exactly { (graph : Nodes) → HasGraph options.now reader.text graph → OkUnlessMemory result (λ read. read ≡ graph) }
{
    if count > LIMIT {
        return Err(CliFault::TooLarge(Place::Drvs));
    }
    match reader.finish(rt) {
        Ok(graph) => Ok(graph),
        Err(refusal) => Err(bundle_fault(refusal)),
    }
}

/// The needs of the bundle on the input, which is read to its end, or to one byte past [`LIMIT`].
///
/// Refuses as [`take_graph`].
pub(crate) fn take_needs<R: Read>(
    rt: &(impl Threads + Sync),
    alloc: Global,
    options: &ParkOptions,
    input: &mut Told<R>,
) -> Result<Needs, CliFault>
    ensures read { IfOk result (ReadsNeeds options.now (R.remaining input.old.device) (R.remaining input.new.device)) }
    ensures fault { IfErr result (IsAskFault options.now R.remaining input.old input.new false) }
    ensures mark { input.new.is_marked ≡ (input.old.is_marked || is_read_failure result) }
    ensures exactly { AnswersKnownNeeds options.now (R.remaining input.old.device) result }
{
    let mut reader = NeedsReader::new(alloc, options.check_paths);
    let count = feed_input(rt, alloc, input, &mut reader)?;
    needs_of_blocks(rt, options, reader, count)
}

/// The needs of the bundle that the reader was fed, which has `count` bytes.
///
/// Refuses as [`graph_of_blocks`].
fn needs_of_blocks(
    rt: &(impl Threads + Sync),
    options: &ParkOptions,
    reader: NeedsReader,
    count: usize,
) -> Result<Needs, CliFault>
    requires check { reader.check ≡ options.now.check_paths }
    requires counted { count ≡ length reader.text }
    ensures read { IfOk result (HasNeedsWithin options.now reader.text) }
    ensures refused { IfErr result (IsBundleFault options.now reader.text) }
    ensures exactly { (graph : Nodes) → HasGraph options.now reader.text graph → OkUnlessMemory result (λ needs. ArePlaced needs.table needs.places graph.needs) }
{
    if LIMIT < count {
        return Err(CliFault::TooLarge(Place::Drvs));
    }
    match reader.finish(rt) {
        Ok(needs) => Ok(needs),
        Err(refusal) => Err(bundle_fault(refusal)),
    }
}

/// Feeds the reader the whole input, or [`LIMIT`] bytes and one more, and answers how many these are.
///
/// `Read`: the device refused a read, and is then marked. `Memory`.
#[tactic(auto, using(crate::proofs::Fed::fed_first, crate::proofs::Fed::fed_on, crate::proofs::Fed::fed_whole, crate::proofs::Fed::fed_counted))]
fn feed_input<T: Threads + Sync, R: Read, P: PartsReader>(
    rt: &T,
    alloc: Global,
    input: &mut Told<R>,
    reader: &mut P,
) -> Result<usize, CliFault>
    requires begun { (P.reading reader.old).text ≡ [] }
    ensures check { (P.reading reader.new).check ≡ (P.reading reader.old).check }
    ensures read { IfOk result (λ _. ReadsWhole (R.remaining input.old.device) (R.remaining input.new.device) (P.reading reader.new).text) }
    ensures counted { IfOk result (λ count. count ≡ length (P.reading reader.new).text) }
    ensures fault { IfErr result (IsReadFault input.new.is_marked) }
    ensures mark { input.new.is_marked ≡ (input.old.is_marked || is_read_failure result) }
{
    let mut room = Vec::new(alloc);
    let mut next = Vec::new(alloc);
    let mut size = FIRST;
    fill_room(&mut room, size, input)?;
    let mut count = room.len();
    'feeding: while room.len() == size && count <= LIMIT {
        size = BLOCK;
        let most = size.min(LIMIT + 1 - count);
        feed_beside(rt, room.as_slice(), &mut next, most, input, reader)?;
        mem::swap(&mut room, &mut next);
        count += room.len();
    }
    reader.feed(rt, room.as_slice())?;
    Ok(count)
}

/// Feeds the reader a block, and meanwhile reads the next one into a room: so many bytes, or fewer where the input ends.
///
/// `Read`: the device refused a read, and is then marked. `Memory`.
fn feed_beside<T: Threads + Sync, R: Read, P: PartsReader>(
    rt: &T,
    block: &[u8],
    next: &mut Vec<u8>,
    most: usize,
    input: &mut Told<R>,
    reader: &mut P,
) -> Result<(), CliFault>
    ensures check { (P.reading reader.new).check ≡ (P.reading reader.old).check }
    ensures text { (P.reading reader.new).text ≡ (P.reading reader.old).text ++ block.now }
    ensures read { OnOk result (ReadsPart most (R.remaining input.old.device) (R.remaining input.new.device) next.new.items) }
    ensures fault { IfErr result (IsReadFault input.new.is_marked) }
    ensures mark { input.new.is_marked ≡ (input.old.is_marked || is_read_failure result) }
{
    let (fed, filled) = join_mut(
        rt,
        &mut || reader.feed(rt, block),
        &mut || fill_room(next, most, input),
    );
    filled?;
    fed?;
    Ok(())
}

/// Reads on in the input: so many bytes, or fewer where it ends. The room has these alone then. It grows as they come, so
/// that an input that is shorter costs no more than its own bytes.
///
/// `Read`: the device refused a read, and is then marked. `Memory`.
#[tactic(auto, using(crate::proofs::Fed::reads_part))]
fn fill_room<R: Read>(room: &mut Vec<u8>, most: usize, input: &mut Told<R>) -> Result<(), CliFault>
    ensures read { OnOk result (ReadsPart most (R.remaining input.old.device) (R.remaining input.new.device) room.new.items) }
    ensures fault { IfErr result (IsReadFault input.new.is_marked) }
    ensures mark { input.new.is_marked ≡ (input.old.is_marked || is_read_failure result) }
{
    room.clear();
    room.reserve_exact(most)?;
    let mut step = [0; STEP];
    'filling: while room.len() < most {
        let left = step.len().min(most - room.len());
        match input.take(&mut step[..left]) {
            Ok(0) => return Ok(()),
            Ok(taken) => room.extend_from_slice(&step[..taken])?,
            Err(Fault) => return Err(CliFault::Read),
        }
    }
    Ok(())
}
