//! Calls on a dispatch, each told by a line: `start D` with the paths that are missing,
//! `startwith D PATH ..`, `built D` and `built D o PATH ..` for the one output, `drain M` and `enable M`.
//! The ticket is that of the derivation's live lease. The sources are named `s1`, `s2` and `s3`.

use nd_bytes::decimal;
use nd_closure::Refs;
use nd_leases::Ticket;
use nd_ledger::{Dispatch, Refusal};
use nd_path::{PathSet, StorePath};
use nd_test_fixtures::bundles::{S1, S2, S3};
use std::alloc::{AllocError, Global};

/// The path of a source by its name.
fn path_named(name: &str) -> &'static str {
    match name {
        "s1" => S1,
        "s2" => S2,
        _ => S3,
    }
}

/// The set of the paths that a line names behind this many words.
fn paths_behind(alloc: Global, line: &str, words: usize) -> Result<PathSet, AllocError> {
    let mut paths = Vec::new(alloc);
    for name in line.split(' ').skip(words) {
        match StorePath::parse(alloc, path_named(name).as_bytes()) {
            Ok(path) => paths.push(path)?,
            Err(_) => return Err(AllocError),
        }
    }
    PathSet::from_vec(paths)
}

/// The references that a line names for the one output.
fn refs_behind(alloc: Global, line: &str) -> Result<Refs, AllocError> {
    let mut lists = Vec::new(alloc);
    lists.push(paths_behind(alloc, line, 3)?)?;
    Ok(Refs::new(lists))
}

/// The number behind this many words of a line.
fn number_behind(line: &str, words: usize) -> u32 {
    match line.split(' ').nth(words) {
        Some(word) => decimal(word.as_bytes(), u32::MAX).unwrap_or(u32::MAX),
        None => u32::MAX,
    }
}

/// The ticket of the live lease of the derivation that a line names.
fn ticket_in(dispatch: &Dispatch, line: &str) -> Result<Ticket, Refusal> {
    dispatch
        .lease(number_behind(line, 1))
        .ok_or(Refusal::NotLive)
}

/// `started` with the paths that are missing.
fn start(alloc: Global, dispatch: &mut Dispatch, line: &str) -> Result<(), Refusal> {
    let ticket = ticket_in(dispatch, line)?;
    let paths = dispatch.missing(alloc, &ticket)?;
    match dispatch.started(alloc, ticket, paths) {
        Ok(()) => Ok(()),
        Err(refused) => Err(refused.why),
    }
}

/// `started` with the paths that the line names.
fn start_with(alloc: Global, dispatch: &mut Dispatch, line: &str) -> Result<(), Refusal> {
    let ticket = ticket_in(dispatch, line)?;
    let paths = paths_behind(alloc, line, 2)?;
    match dispatch.started(alloc, ticket, paths) {
        Ok(()) => Ok(()),
        Err(refused) => Err(refused.why),
    }
}

/// `built` with the references that the line names for the one output.
fn build(alloc: Global, dispatch: &mut Dispatch, line: &str) -> Result<(), Refusal> {
    let ticket = ticket_in(dispatch, line)?;
    let refs = refs_behind(alloc, line)?;
    match dispatch.built(alloc, ticket, refs) {
        Ok(()) => Ok(()),
        Err(refused) => Err(refused.why),
    }
}

/// `drain`. A machine outside of the park is left alone.
fn drain(dispatch: &mut Dispatch, line: &str) -> Result<(), Refusal> {
    let machine = number_behind(line, 1);
    if machine >= dispatch.machine_count() {
        return Ok(());
    }
    Ok(dispatch.drain(machine)?)
}

/// `enable`. A machine outside of the park is left alone.
fn enable(dispatch: &mut Dispatch, line: &str) -> Result<(), Refusal> {
    let machine = number_behind(line, 1);
    if machine >= dispatch.machine_count() {
        return Ok(());
    }
    Ok(dispatch.enable(machine)?)
}

/// Makes the call of a line; other words make none.
pub(crate) fn make(alloc: Global, dispatch: &mut Dispatch, line: &str) -> Result<(), Refusal> {
    match line.split(' ').next() {
        Some("start") => start(alloc, dispatch, line),
        Some("startwith") => start_with(alloc, dispatch, line),
        Some("built") => build(alloc, dispatch, line),
        Some("drain") => drain(dispatch, line),
        Some("enable") => enable(dispatch, line),
        _ => Ok(()),
    }
}
