//! Replies about derivations of many classes, which threads make.

ghost use Rattle.std.specs.Prelude.{◌<◌};

use crate::tests::asking::{Want, asks, builders_alone, three_digits};
use std::alloc::{AllocError, Global};
use std::thread::Threads;

/// How many derivations a bundle has of which one thread finds the classes.
const COUNT: usize = 400;

/// How many classes these have, one after another and then again: enough for three shares, the last of which has
/// two.
const CLASSES: usize = 130;

/// How many derivations a bundle has of which threads find the classes, a share of 2,048 each.
const MANY: usize = 5000;

/// How many machines there are. Each builds for the classes whose number leaves its own when divided by this.
const MACHINES: usize = 4;

/// Puts the last six digits of a number behind a text.
fn push_six(text: &mut Vec<u8>, number: usize) -> Result<(), AllocError> {
    text.extend_from_slice(&three_digits(number / 1000))?;
    text.extend_from_slice(&three_digits(number))
}

/// Puts the line of the derivation with this number, which wants the feature of its class, behind a text.
fn push_line(text: &mut Vec<u8>, number: usize, class: usize) -> Result<(), AllocError> {
    text.extend_from_slice(b"/nix/store/00000000000000000000000000")?;
    push_six(text, number)?;
    text.extend_from_slice(b"-n.drv Derive([(\"out\",\"/nix/store/aaaaaaaaaaaaaaaaaaaaaaaaaa")?;
    push_six(text, number)?;
    text.extend_from_slice(b"-n\",\"\",\"\")],[],[],\"x86_64-linux\",\"/bin/sh\",[],[")?;
    text.extend_from_slice(b"(\"requiredSystemFeatures\",\"f")?;
    push_six(text, class)?;
    text.extend_from_slice(b"\")])\n")
}

/// Puts the line of the machine with this number, where there are so many classes, behind a builders list.
fn push_machine(text: &mut Vec<u8>, machine: usize, classes: usize) -> Result<(), AllocError> {
    text.extend_from_slice(b"m")?;
    text.extend_from_slice(&three_digits(machine))?;
    text.extend_from_slice(b" x86_64-linux - 4 1 none")?;
    for class in 0..classes {
        if class % MACHINES == machine {
            text.extend_from_slice(b",f")?;
            push_six(text, class)?;
        }
    }
    text.extend_from_slice(b"\n")
}

/// Puts the reply about a derivation of this class behind a text.
fn push_reply(text: &mut Vec<u8>, class: usize) -> Result<(), AllocError> {
    text.extend_from_slice(b"# accept\nssh://m")?;
    text.extend_from_slice(&three_digits(class % MACHINES))?;
    text.extend_from_slice(b"\n")
}

/// Whether `ask` answers each of so many derivations, which are of these classes by turns, with the machine of its
/// class.
fn is_answered<R: Threads + Sync>(
    rt: &R,
    alloc: Global,
    count: usize,
    classes: usize,
) -> Result<bool, AllocError>
    requires { 0 < classes }
{
    let mut bundle = Vec::new(alloc);
    let mut replies = Vec::new(alloc);
    for number in 0..count {
        let class = number % classes;
        push_line(&mut bundle, number, class)?;
        push_reply(&mut replies, class)?;
    }
    let mut machines = Vec::new(alloc);
    for machine in 0..MACHINES {
        push_machine(&mut machines, machine, classes)?;
    }
    let park = builders_alone(machines.as_slice());
    let want = Want::Written(replies.as_slice());
    Ok(asks(rt, alloc, park, bundle.as_slice(), want))
}

#[test]
fn replies_about_many_classes(rt: HostRuntime) {
    assert!(rt; is_answered(&rt, rt.alloc(), COUNT, CLASSES).unwrap_or(false));
}

#[test]
fn classes_that_all_shares_have(rt: HostRuntime) {
    assert!(rt; is_answered(&rt, rt.alloc(), MANY, 3).unwrap_or(false));
}

#[test]
fn a_class_for_each_derivation(rt: HostRuntime) {
    assert!(rt; is_answered(&rt, rt.alloc(), MANY, MANY).unwrap_or(false));
}
