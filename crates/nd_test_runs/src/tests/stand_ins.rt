//! What one stand-in answers.

use crate::tests::parks::stand_in;
use nd_bytes::Items;
use nd_closure::Refs;
use nd_leases::Ticket;
use nd_ledger::Job;
use nd_path::{PathSet, StorePath};
use nd_script::Rule;
use nd_test_fixtures::bundles::S1;
use nd_test_fixtures::journals::nothing_kept;
use nd_transports::{
    Ended, Fetch, Outcome, Phase, RuleBook, StandIn, Transport, serve_build, serve_copy,
};
use std::alloc::Global;
use std::test::Fail;

const DRV: &str = "/nix/store/00000000000000000000000000000000-n0.drv";

const OUTPUT: &str = "/nix/store/aaaaaaaaaaaaaaaaaaaaaaaaaaaaaaaa-n0";

fn path(alloc: Global, text: &str) -> Result<StorePath, Fail> {
    Ok(StorePath::parse(alloc, text.as_bytes())?)
}

fn one_path(alloc: Global) -> Result<PathSet, Fail> {
    Ok(PathSet::from_vec(vec![in alloc; path(alloc, S1)?]?)?)
}

/// The path of its one output.
fn output_paths(alloc: Global) -> Result<Items<StorePath>, Fail> {
    Ok(Items::new(vec![in alloc; path(alloc, OUTPUT)?]?))
}

/// Derivation 0 with one output, leased on slot 0 of machine 1, with one path to copy.
fn job(alloc: Global) -> Result<Job, Fail> {
    job_of(alloc, 0)
}

/// The same of this derivation.
fn job_of(alloc: Global, drv: u32) -> Result<Job, Fail> {
    Ok(Job {
        ticket: Ticket {
            machine: 1,
            slot: 0,
            drv,
            serial: 0,
        },
        path: path(alloc, DRV)?,
        output_paths: output_paths(alloc)?,
        paths: one_path(alloc)?,
    })
}

/// The outcome where the copy works.
fn outcome<S: Transport>(alloc: Global, stand: &mut S, job: &Job) -> Option<Outcome> {
    let kept = nothing_kept(alloc);
    match serve_copy(stand, job, &kept) {
        Fetch::Copied => Some(serve_build(stand, &kept)),
        Fetch::Refused(_) | Fetch::Memory => None,
    }
}

fn has_sets(refs: &Refs, sets: usize, paths: usize) -> bool {
    refs.lists().len() == sets && refs.lists().iter().all(|set| set.len() == paths)
}

#[test]
fn plain_stand_in(rt: HostRuntime) -> Result<(), Fail> {
    let alloc = rt.alloc();
    let job = job(alloc)?;
    let mut stand = stand_in(alloc, 1, vec![in alloc]?)?;
    match outcome(alloc, &mut stand, &job) {
        Some(Outcome::Built(refs)) => assert!(rt; has_sets(&refs, 1, 0)),
        _ => assert!(rt; false, "not built"),
    }
    assert!(rt; stand.phase() == Phase::Idle);
    Ok(())
}

/// What the copy before a build answers by these rules.
fn fetched(alloc: Global, rules: Vec<Rule>) -> Result<Fetch, Fail> {
    let job = job(alloc)?;
    let mut stand = stand_in(alloc, 1, rules)?;
    Ok(serve_copy(&mut stand, &job, &nothing_kept(alloc)))
}

#[test]
fn refused_copies(rt: HostRuntime) -> Result<(), Fail> {
    let alloc = rt.alloc();
    let rules = vec![in alloc; Rule::NoConnect(1)]?;
    assert!(rt; fetched(alloc, rules)? == Fetch::Refused(1));
    let rules = vec![in alloc; Rule::NoCopy(1)]?;
    assert!(rt; fetched(alloc, rules)? == Fetch::Refused(2));
    let rules = vec![in alloc; Rule::NoConnect(2), Rule::NoCopy(0)]?;
    assert!(rt; fetched(alloc, rules)? == Fetch::Copied);
    Ok(())
}

/// How the build ends, where the copy works.
fn end_of<S: Transport>(alloc: Global, stand: &mut S, job: &Job) -> Option<Ended> {
    match outcome(alloc, stand, job) {
        Some(Outcome::Status(code)) => Some(Ended::Status(code)),
        Some(Outcome::Lost) => Some(Ended::Lost),
        Some(Outcome::Built(_)) => Some(Ended::Built),
        Some(Outcome::Memory) | None => None,
    }
}

/// How the build ends by these rules, where the copy works.
fn ended(alloc: Global, rules: Vec<Rule>) -> Result<Option<Ended>, Fail> {
    let job = job(alloc)?;
    let mut stand = stand_in(alloc, 1, rules)?;
    Ok(end_of(alloc, &mut stand, &job))
}

#[test]
fn ends_by_rules(rt: HostRuntime) -> Result<(), Fail> {
    let alloc = rt.alloc();
    let rules = vec![in alloc; Rule::Fail(1, 7), Rule::Fail(0, 3), Rule::Lose(0)]?;
    assert!(rt; ended(alloc, rules)? == Some(Ended::Status(3)));
    let rules = vec![in alloc; Rule::Lose(0), Rule::Fail(0, 3)]?;
    assert!(rt; ended(alloc, rules)? == Some(Ended::Lost));
    let rules = vec![in alloc; Rule::Lose(1)]?;
    assert!(rt; ended(alloc, rules)? == Some(Ended::Built));
    Ok(())
}

/// How a build of derivation 0 ends by a copy of the book of these rules, where the copy works.
fn ended_by_copy(alloc: Global, rules: Vec<Rule>) -> Result<Option<Ended>, Fail> {
    let book = RuleBook::new(rules)?;
    let copy = book.try_clone()?;
    drop(book);
    let mut stand = StandIn::new(alloc, 1, copy);
    Ok(end_of(alloc, &mut stand, &job(alloc)?))
}

#[test]
fn shared_rules(rt: HostRuntime) -> Result<(), Fail> {
    let alloc = rt.alloc();
    let rules = vec![in alloc;
        Rule::NoCopy(2),
        Rule::Lose(3),
        Rule::Fail(0, 5),
        Rule::Lose(0),
    ]?;
    assert!(rt; ended_by_copy(alloc, rules)? == Some(Ended::Status(5)));
    let rules = vec![in alloc; Rule::Lose(0), Rule::NoConnect(1)]?;
    assert!(rt; ended_by_copy(alloc, rules)? == None);
    Ok(())
}

#[test]
fn reported_references(rt: HostRuntime) -> Result<(), Fail> {
    let alloc = rt.alloc();
    let refs = Refs::new(vec![in alloc; one_path(alloc)?, one_path(alloc)?]?);
    let mut stand = stand_in(alloc, 1, vec![in alloc; Rule::Built(0, refs)]?)?;
    match outcome(alloc, &mut stand, &job(alloc)?) {
        Some(Outcome::Built(refs)) => assert!(rt; has_sets(&refs, 2, 1)),
        _ => assert!(rt; false, "not built"),
    }
    Ok(())
}

/// What the copy answers with this fuse.
fn fused_copy(alloc: Global, passes: u32) -> Result<Fetch, Fail> {
    let job = job(alloc)?;
    let mut stand = stand_in(alloc, 1, vec![in alloc]?)?;
    stand.fuse(passes);
    Ok(serve_copy(&mut stand, &job, &nothing_kept(alloc)))
}

/// How the build ends with this fuse, where the copy works.
fn fused_end(alloc: Global, passes: u32) -> Result<Option<Ended>, Fail> {
    let job = job(alloc)?;
    let mut stand = stand_in(alloc, 1, vec![in alloc]?)?;
    stand.fuse(passes);
    Ok(end_of(alloc, &mut stand, &job))
}

#[test]
fn blown_fuses(rt: HostRuntime) -> Result<(), Fail> {
    let alloc = rt.alloc();
    assert!(rt; fused_copy(alloc, 0)? == Fetch::Refused(1));
    assert!(rt; fused_copy(alloc, 1)? == Fetch::Refused(2));
    assert!(rt; fused_end(alloc, 2)? == Some(Ended::Lost));
    assert!(rt; fused_end(alloc, 3)? == Some(Ended::Built));
    Ok(())
}

/// Whether a build ends with so many lists of so many paths.
fn builds<S: Transport>(
    alloc: Global,
    stand: &mut S,
    job: &Job,
    sets: usize,
    paths: usize,
) -> bool {
    match outcome(alloc, stand, job) {
        Some(Outcome::Built(refs)) => has_sets(&refs, sets, paths),
        _ => false,
    }
}

/// A stand-in that reports two lists of derivation 0, fails derivation 1, and lets two leases pass and one call more.
fn fused(alloc: Global) -> Result<StandIn, Fail> {
    let refs = Refs::new(vec![in alloc; one_path(alloc)?, one_path(alloc)?]?);
    let mut stand = stand_in(
        alloc,
        1,
        vec![in alloc; Rule::Built(0, refs), Rule::Fail(1, 4)]?,
    )?;
    stand.fuse(7);
    Ok(stand)
}

/// Whether a stand-in ends one lease behind the other by its rules, until its fuse is blown. What it reports is what the
/// last build came to.
fn serves_in_turn(alloc: Global) -> Result<bool, Fail> {
    let (first, second, third) = (job_of(alloc, 0)?, job_of(alloc, 1)?, job_of(alloc, 2)?);
    let mut failing = fused(alloc)?;
    let fails = builds(alloc, &mut failing, &first, 2, 1)
        && end_of(alloc, &mut failing, &second) == Some(Ended::Status(4))
        && serve_copy(&mut failing, &third, &nothing_kept(alloc)) == Fetch::Refused(2);
    let mut building = fused(alloc)?;
    let builds_both = builds(alloc, &mut building, &first, 2, 1)
        && builds(alloc, &mut building, &third, 1, 0);
    Ok(fails && builds_both && failing.phase() == Phase::Idle)
}

#[test]
fn leases_in_turn(rt: HostRuntime) -> Result<(), Fail> {
    assert!(rt; serves_in_turn(rt.alloc())?);
    Ok(())
}
