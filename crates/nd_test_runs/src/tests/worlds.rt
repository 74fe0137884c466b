//! Random worlds: a small graph, a small park, and stand-ins that fail, lose and refuse. Each is run twice.

use crate::tests::draws::Draws;
use crate::tests::parks::{at, close_refused, close_run, dispatch_where, ran};
use crate::tests::punishing::{input, line};
use nd_closure::Refs;
use nd_history::Entry;
use nd_ledger::Dispatch;
use nd_script::Rule;
use nd_test_fixtures::entries::told;
use nd_test_fixtures::parks::close;
use nd_transports::{RuleBook, StandIn};
use nd_workers::{Ran, Seat};
use std::alloc::Global;
use std::sync::Wait;
use std::thread::Threads;

/// How the build of a derivation ends.
#[derive(Clone, Copy, PartialEq, Eq)]
enum Way {
    /// With its output.
    Builds,
    /// With this status.
    Fails(u8),
    /// The transport is lost.
    Loses,
    /// It reports no list for its output.
    Misreports,
}

/// A derivation: which of the earlier ones it has as inputs, which of the features below `FEATURES` it needs, and none
/// from there on, and how its build ends.
#[derive(Clone, Copy)]
struct Node {
    inputs: u32,
    feature: u32,
    way: Way,
}

/// What a machine's stand-ins refuse.
#[derive(Clone, Copy)]
enum Refusing {
    Nothing,
    Connects,
    Copies,
}

/// A machine: its slots, its speed, which of the features it has, and what is refused there.
#[derive(Clone, Copy)]
struct Machine {
    slots: u32,
    speed: u32,
    features: u32,
    refusing: Refusing,
}

/// A graph, a park, and how a run over them begins.
#[derive(Drop)]
struct World {
    nodes: Vec<Node>,
    machines: Vec<Machine>,
    /// Whether the rest goes on after a failure.
    going_on: bool,
    /// Where choices are made before the run, whose leases are started before it.
    started: Option<u32>,
    /// Whether the workers are handed in from the last place to the first.
    reversed: bool,
}

/// How many features there are.
const FEATURES: u32 = 3;

/// The bit of a number below 32.
fn bit(number: u32) -> u32 {
    if number < 32 { 1 << number } else { 0 }
}

/// Whether a number below 32 is in a set of such.
fn is_in(set: u32, number: u32) -> bool {
    set & bit(number) != 0
}

/// Some of the numbers below `count`, each with one chance in so many.
fn some_of(draws: &mut Draws, count: u32, chances: u32) -> u32 {
    let mut set = 0;
    for number in 0..count {
        if draws.below(chances) == 0 {
            set |= bit(number);
        }
    }
    set
}

/// How a build ends: mostly with its output.
fn way_of(draws: &mut Draws) -> Way {
    match draws.below(12) {
        0 => Way::Fails(1),
        1 => Way::Loses,
        2 => Way::Misreports,
        _ => Way::Builds,
    }
}

/// The derivations of a graph: up to 12.
fn nodes_of(alloc: Global, draws: &mut Draws) -> Option<Vec<Node>> {
    let mut nodes = Vec::new(alloc);
    for number in 0..draws.up_to(12) {
        let node = Node {
            inputs: some_of(draws, number, 4),
            feature: draws.below(4 * FEATURES),
            way: way_of(draws),
        };
        nodes.push(node).ok()?;
    }
    Some(nodes)
}

/// What is refused at a machine.
fn refusing_of(draws: &mut Draws) -> Refusing {
    match draws.below(5) {
        0 => Refusing::Connects,
        1 => Refusing::Copies,
        _ => Refusing::Nothing,
    }
}

/// The machines of a park, one to three of one to three slots, which refuse something where they may.
fn machines_of(alloc: Global, draws: &mut Draws, may_refuse: bool) -> Option<Vec<Machine>> {
    let mut machines = Vec::new(alloc);
    for _ in 0..draws.up_to(3) {
        let machine = Machine {
            slots: draws.up_to(3),
            speed: draws.up_to(2),
            features: some_of(draws, FEATURES, 2),
            refusing: if may_refuse {
                refusing_of(draws)
            } else {
                Refusing::Nothing
            },
        };
        machines.push(machine).ok()?;
    }
    Some(machines)
}

impl World {
    /// The world of a seed. Where its machines may refuse, the rest may not go on after a failure.
    fn new(alloc: Global, seed: u64, may_refuse: bool) -> Option<World> {
        let mut draws = Draws::new(seed);
        let nodes = nodes_of(alloc, &mut draws)?;
        let machines = machines_of(alloc, &mut draws, may_refuse)?;
        let leases = some_of(&mut draws, 12, 2);
        Some(World {
            nodes,
            machines,
            going_on: !may_refuse || draws.below(2) == 0,
            started: if draws.below(2) == 0 {
                Some(leases)
            } else {
                None
            },
            reversed: draws.below(2) == 0,
        })
    }

    /// The bundle.
    fn bundle(&self, alloc: Global) -> Option<String> {
        let mut text = String::new(alloc);
        for (number, node) in self.nodes.iter().enumerate() {
            push_node(alloc, &mut text, (number % 100) as u32, node)?;
        }
        Some(text)
    }

    /// The builders list.
    fn builders(&self, alloc: Global) -> Option<String> {
        let mut text = String::new(alloc);
        for machine in &self.machines {
            push_machine(alloc, &mut text, machine)?;
        }
        Some(text)
    }

    /// The rules of all stand-ins.
    fn rules(&self, alloc: Global) -> Option<RuleBook> {
        let mut rules = Vec::new(alloc);
        for (number, machine) in self.machines.iter().enumerate() {
            push_refusing(&mut rules, 1 + (number % 100) as u32, machine.refusing)?;
        }
        for (number, node) in self.nodes.iter().enumerate() {
            push_way(alloc, &mut rules, (number % 100) as u32, node.way)?;
        }
        RuleBook::new(rules).ok()
    }

    /// The workers of all slots.
    fn seats(&self, alloc: Global) -> Option<Vec<Seat<StandIn>>> {
        let rules = self.rules(alloc)?;
        let mut seats = Vec::new(alloc);
        for (number, machine) in self.machines.iter().enumerate() {
            push_seats(
                alloc,
                &mut seats,
                1 + (number % 100) as u32,
                machine.slots,
                &rules,
            )?;
        }
        if self.reversed {
            seats.reverse();
        }
        Some(seats)
    }

    /// Whether there is one slot alone.
    fn is_narrow(&self) -> bool {
        self.machines.iter().all(|machine| machine.slots == 1) && self.machines.len() == 1
    }

    /// Whether a machine has what a derivation needs.
    fn is_buildable(&self, node: &Node) -> bool {
        node.feature >= FEATURES
            || self
                .machines
                .iter()
                .any(|machine| is_in(machine.features, node.feature))
    }

    /// What becomes of each derivation where the rest goes on after a failure and no machine refuses, in whatever order
    /// they are built: it is built, has failed or is cancelled. A derivation that no machine may build has failed; one
    /// with an input that isn't built is cancelled.
    fn ends(&self, alloc: Global) -> Option<Vec<u8>> {
        let mut ends = Vec::new(alloc);
        let mut unbuilt = 0;
        for (number, node) in self.nodes.iter().enumerate() {
            let end = if node.inputs & unbuilt != 0 {
                CANCELLED
            } else if node.way == Way::Builds && self.is_buildable(node) {
                BUILT
            } else {
                FAILED
            };
            if end != BUILT {
                unbuilt |= bit((number % 32) as u32);
            }
            ends.push(end).ok()?;
        }
        Some(ends)
    }

    /// A dispatch over the world without an entry.
    fn dispatch(&self, alloc: Global) -> Option<Dispatch> {
        let bundle = self.bundle(alloc)?;
        let builders = self.builders(alloc)?;
        dispatch_where(alloc, bundle.as_str(), builders.as_str(), self.going_on)
    }

    /// The dispatch that a run begins with.
    fn opened(&self, alloc: Global) -> Option<Dispatch> {
        let mut opened = self.dispatch(alloc)?;
        if !self.begin(alloc, &mut opened) {
            close(opened);
            return None;
        }
        Some(opened)
    }

    /// Makes the choices before a run, and starts their leases.
    fn begin(&self, alloc: Global, opened: &mut Dispatch) -> bool {
        let Some(started) = self.started else {
            return true;
        };
        if opened.pump().is_err() {
            return false;
        }
        for number in 0..12u32 {
            if is_in(started, number) && !start(alloc, opened, number) {
                return false;
            }
        }
        true
    }
}

/// Puts the line of a derivation.
fn push_node(alloc: Global, text: &mut String, number: u32, node: &Node) -> Option<()> {
    let mut inputs = String::new(alloc);
    for other in 0..number {
        if is_in(node.inputs, other) {
            if !inputs.is_empty() {
                inputs.push_str(",").ok()?;
            }
            inputs.push_str(input(alloc, other)?.as_str()).ok()?;
        }
    }
    let feature = if node.feature < FEATURES {
        feature_of(alloc, node.feature)?
    } else {
        String::new(alloc)
    };
    let line = line(alloc, number, inputs.as_str(), feature.as_str())?;
    text.push_str(line.as_str()).ok()
}

/// The name of a feature.
fn feature_of(alloc: Global, number: u32) -> Option<String> {
    format!(in alloc; "f{number}").ok()
}

/// Puts the entry of a machine.
fn push_machine(alloc: Global, text: &mut String, machine: &Machine) -> Option<()> {
    let (slots, speed) = (machine.slots, machine.speed);
    text.push_str(
        format!(in alloc; "m - - {slots} {speed} none")
            .ok()?
            .as_str(),
    )
    .ok()?;
    for number in 0..FEATURES {
        if is_in(machine.features, number) {
            text.push_str(format!(in alloc; ",f{number}").ok()?.as_str())
                .ok()?;
        }
    }
    text.push_str(";").ok()
}

/// Puts the rule of a machine.
fn push_refusing(rules: &mut Vec<Rule>, machine: u32, refusing: Refusing) -> Option<()> {
    match refusing {
        Refusing::Nothing => Some(()),
        Refusing::Connects => rules.push(Rule::NoConnect(machine)).ok(),
        Refusing::Copies => rules.push(Rule::NoCopy(machine)).ok(),
    }
}

/// Puts the rule of a derivation.
fn push_way(alloc: Global, rules: &mut Vec<Rule>, drv: u32, way: Way) -> Option<()> {
    match way {
        Way::Builds => Some(()),
        Way::Fails(status) => rules.push(Rule::Fail(drv, status)).ok(),
        Way::Loses => rules.push(Rule::Lose(drv)).ok(),
        Way::Misreports => rules
            .push(Rule::Built(drv, Refs::new(Vec::new(alloc))))
            .ok(),
    }
}

/// Puts the workers of a machine.
fn push_seats(
    alloc: Global,
    seats: &mut Vec<Seat<StandIn>>,
    machine: u32,
    slots: u32,
    rules: &RuleBook,
) -> Option<()> {
    for slot in 0..slots {
        let transport = StandIn::new(alloc, machine, rules.try_clone().ok()?);
        let seat = Seat {
            place: at(machine, slot),
            transport,
        };
        seats.push(seat).ok()?;
    }
    Some(())
}

/// Starts the live lease of a derivation, if it has one.
fn start(alloc: Global, opened: &mut Dispatch, drv: u32) -> bool {
    let Some(ticket) = opened.lease(drv) else {
        return true;
    };
    match opened.missing(alloc, &ticket) {
        Ok(paths) => opened.started(alloc, ticket, paths).is_ok(),
        Err(_) => false,
    }
}

/// A derivation that is built.
const BUILT: u8 = b'b';

/// A derivation that has failed, or that nothing may build.
const FAILED: u8 = b'f';

/// A derivation that is neither, where nothing waits and nothing is leased.
const CANCELLED: u8 = b'c';

/// What a run came to: the lines of its history, and what became of each derivation.
#[derive(Drop)]
struct Outcome {
    lines: Vec<u8>,
    ends: Vec<u8>,
}

/// How an entry ended its derivation.
fn end_by(entry: &Entry) -> Option<(u32, u8)> {
    match entry {
        Entry::Built { drv, .. } => Some((*drv, BUILT)),
        Entry::NoBuilder { drv } | Entry::Failed { drv, .. } => Some((*drv, FAILED)),
        _ => None,
    }
}

/// What became of so many derivations by these entries.
fn ends_by(alloc: Global, count: usize, history: &[Entry]) -> Option<Vec<u8>> {
    let mut ends = vec![in alloc; CANCELLED; count].ok()?;
    for entry in history {
        if let Some((drv, end)) = end_by(entry) {
            *ends.get_mut(drv as usize)? = end;
        }
    }
    Some(ends)
}

/// Whether a dispatch admits these entries.
fn admits_all(alloc: Global, dispatch: &mut Dispatch, history: &[Entry]) -> bool {
    for entry in history {
        let Ok(copy) = entry.try_clone() else {
            return false;
        };
        if dispatch.admit(alloc, copy).is_err() {
            return false;
        }
    }
    true
}

/// Whether a history is one of this world, and ends where nothing waits and nothing is leased.
fn is_whole(alloc: Global, world: &World, history: &[Entry]) -> bool {
    let Some(mut dispatch) = world.dispatch(alloc) else {
        return false;
    };
    let whole = admits_all(alloc, &mut dispatch, history) && dispatch.finished();
    close(dispatch);
    whole
}

/// What this history of a world comes to, where it is a whole one.
fn seen(alloc: Global, world: &World, history: &[Entry]) -> Option<Outcome> {
    if !is_whole(alloc, world, history) {
        return None;
    }
    let lines = told(alloc, history).ok()?;
    let ends = ends_by(alloc, world.nodes.len(), history)?;
    Some(Outcome { lines, ends })
}

/// What a run of a world came to that ended without a fault.
fn outcome_of(alloc: Global, world: &World, end: Ran<StandIn>) -> Option<Outcome> {
    let outcome = if end.fault.is_none() {
        seen(alloc, world, end.dispatch.history())
    } else {
        None
    };
    close_run(end);
    outcome
}

/// What a run of a world comes to.
fn run_world<R: Threads + Wait + Sync>(rt: &R, alloc: Global, world: &World) -> Option<Outcome> {
    let seats = world.seats(alloc)?;
    let Some(opened) = world.opened(alloc) else {
        drop(seats);
        return None;
    };
    match ran(rt, opened, seats) {
        Ok(end) => outcome_of(alloc, world, end),
        Err(refused) => {
            close_refused(refused);
            None
        }
    }
}

/// What two runs of a world come to. Nothing where one doesn't come to anything, or where there is one slot alone and they
/// have two histories.
fn outcomes<R: Threads + Wait + Sync>(
    rt: &R,
    alloc: Global,
    world: &World,
) -> Option<(Outcome, Outcome)> {
    let once = run_world(rt, alloc, world)?;
    let again = run_world(rt, alloc, world)?;
    if world.is_narrow() && once.lines != again.lines {
        return None;
    }
    Some((once, again))
}

/// Whether the runs of a world come to what its derivations say.
fn agrees<R: Threads + Wait + Sync>(rt: &R, alloc: Global, seed: u64) -> Option<bool> {
    let world = World::new(alloc, seed, false)?;
    let ends = world.ends(alloc)?;
    let (once, again) = outcomes(rt, alloc, &world)?;
    Some(once.ends == ends && again.ends == ends)
}

/// Whether the runs of a world whose machines may refuse end without a fault.
fn goes_through<R: Threads + Wait + Sync>(rt: &R, alloc: Global, seed: u64) -> bool {
    match World::new(alloc, seed, true) {
        Some(world) => outcomes(rt, alloc, &world).is_some(),
        None => false,
    }
}

/// The first seed of a world whose runs disagree.
fn first_disagreeing<R: Threads + Wait + Sync>(rt: &R, alloc: Global) -> Option<u64> {
    (0..150u64).find(|seed| agrees(rt, alloc, *seed) != Some(true))
}

/// The first seed of a world whose machines may refuse and whose runs don't go through.
fn first_open<R: Threads + Wait + Sync>(rt: &R, alloc: Global) -> Option<u64> {
    (0..150u64).find(|seed| !goes_through(rt, alloc, *seed))
}

/// In whatever order the leases are served, what is built, has failed and is cancelled is the same where the rules are
/// about derivations alone and the rest goes on after a failure.
#[test]
fn worlds_of_failures(rt: HostRuntime) {
    assert_eq!(rt; first_disagreeing(&rt, rt.alloc()), None);
}

/// Where machines refuse and are down from then on, too, each run ends without a fault.
#[test]
fn worlds_of_refusals(rt: HostRuntime) {
    assert_eq!(rt; first_open(&rt, rt.alloc()), None);
}
