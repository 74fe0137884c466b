//! Two inputs that punish a shortcut, at a small size: each derivation needs a feature of its own, which
//! one machine of several has; and groups that all wait for one slot while another machine frees many.

use crate::tests::parks::{at, close_refused, close_run, dispatch, ran, stand_at};
use nd_receipts::ParkPlace;
use nd_script::Rule;
use nd_transports::StandIn;
use nd_workers::{Ran, Seat};
use std::alloc::Global;
use std::sync::Wait;
use std::thread::Threads;

/// The line of derivation `number`, which is under 100, with these inputs. It needs this feature, if any.
pub(crate) fn line(alloc: Global, number: u32, inputs: &str, feature: &str) -> Option<String> {
    let (tens, ones) = (number / 10, number % 10);
    format!(in alloc;
        "/nix/store/000000000000000000000000000000{tens}{ones}-n.drv Derive([(\"out\",\"/nix/store/aaaaaaaaaaaaaaaaaaaaaaaaaaaaaa{tens}{ones}-n\",\"\",\"\")],[{inputs}],[],\"x86_64-linux\",\"/bin/sh\",[],[(\"requiredSystemFeatures\",\"{feature}\")])\n"
    ).ok()
}

/// The input of a line on derivation `number`, which is under 100.
pub(crate) fn input(alloc: Global, number: u32) -> Option<String> {
    let (tens, ones) = (number / 10, number % 10);
    format!(in alloc;
        "(\"/nix/store/000000000000000000000000000000{tens}{ones}-n.drv\",[\"out\"])"
    ).ok()
}

/// The line of derivation `number`. Each of the first `needy` needs the feature of its number.
fn line_of(alloc: Global, number: u32, needy: u32) -> Option<String> {
    if number < needy {
        let feature = format!(in alloc; "f{number}").ok()?;
        return line(alloc, number, "", feature.as_str());
    }
    line(alloc, number, "", "")
}

/// A bundle of so many derivations without inputs. Each of the first `needy` needs a feature of its own.
fn bundle(alloc: Global, count: u32, needy: u32) -> Option<String> {
    let mut text = String::new(alloc);
    for number in 0..count {
        text.push_str(line_of(alloc, number, needy)?.as_str()).ok()?;
    }
    Some(text)
}

/// Workers on these places with plain stand-ins; fewer where memory is wanting.
fn workers(alloc: Global, places: &[ParkPlace]) -> Vec<Seat<StandIn>> {
    let mut seats = Vec::new(alloc);
    for place in places {
        if let Some(seat) = stand_at(alloc, *place, Rule::NoConnect(9), None) {
            let _ = seats.push(seat);
        }
    }
    seats
}

/// How many derivations were built, where the run ended without a fault and nothing is left.
fn built_in(end: Ran<StandIn>) -> Option<usize> {
    let over = end.fault.is_none() && end.dispatch.finished();
    let built = end.dispatch.counts().built;
    close_run(end);
    if over { Some(built) } else { None }
}

/// How many derivations of a bundle a run by workers on these places builds, where it finishes.
fn built<R: Threads + Wait + Sync>(
    rt: &R,
    alloc: Global,
    bundle: &str,
    builders: &str,
    places: &[ParkPlace],
) -> Option<usize> {
    let opened = dispatch(alloc, bundle, builders)?;
    match ran(rt, opened, workers(alloc, places)) {
        Ok(end) => built_in(end),
        Err(refused) => {
            close_refused(refused);
            None
        }
    }
}

/// Four machines, of which each has every fourth of sixteen features.
const FEATURES: &str =
    "a - - 1 1 f0,f4,f8,f12;b - - 1 1 f1,f5,f9,f13;c - - 1 1 f2,f6,f10,f14;d - - 1 1 f3,f7,f11,f15";

/// How many of sixteen derivations are built of which each needs a feature of its own.
fn built_by_feature<R: Threads + Wait + Sync>(rt: &R, alloc: Global) -> Option<usize> {
    let text = bundle(alloc, 16, 16)?;
    let places = [at(1, 0), at(2, 0), at(3, 0), at(4, 0)];
    built(rt, alloc, text.as_str(), FEATURES, &places)
}

#[test]
fn a_feature_for_each(rt: HostRuntime) {
    assert_eq!(rt; built_by_feature(&rt, rt.alloc()), Some(16));
}

/// A machine with one slot that alone has eight features, and one with three slots.
const GROUPS: &str = "a - - 1 1 f0,f1,f2,f3,f4,f5,f6,f7;b - - 3 1000";

/// How many of 72 derivations are built of which eight wait for one slot.
fn built_in_groups<R: Threads + Wait + Sync>(rt: &R, alloc: Global) -> Option<usize> {
    let text = bundle(alloc, 72, 8)?;
    let places = [at(1, 0), at(2, 0), at(2, 1), at(2, 2)];
    built(rt, alloc, text.as_str(), GROUPS, &places)
}

#[test]
fn groups_wait_for_one_slot(rt: HostRuntime) {
    assert_eq!(rt; built_in_groups(&rt, rt.alloc()), Some(72));
}
