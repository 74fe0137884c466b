//! Scripts for two derivations and a park of three machines.

use nd_script::{Command, ScriptError, parse_script};
use nd_test_fixtures::bundles::{S1, S2, S3};
use nd_test_fixtures::paths::is_set;
use std::alloc::Global;

/// The commands of the script, if it is accepted and memory is found.
fn read(alloc: Global, text: &str) -> Option<Vec<Command>> {
    match parse_script(alloc, text.as_bytes(), 2, 3) {
        Ok(commands) => Some(commands),
        Err(_) => None,
    }
}

/// The number of the line for which the script is refused, and 0 where it isn't.
fn bad_line(alloc: Global, text: &str) -> usize {
    match parse_script(alloc, text.as_bytes(), 2, 3) {
        Err(ScriptError::BadLine(line)) => line,
        _ => 0,
    }
}

fn are_calls_on_derivations(alloc: Global) -> bool {
    let Some(commands) = read(
        alloc,
        "start 1\nbuilt 0\nfail 1 255\nlose 0\ndown 1\nask 0\n",
    ) else {
        return false;
    };
    match commands.as_slice() {
        [
            Command::Start { drv: 1 },
            Command::Built { drv: 0 },
            Command::Fail {
                drv: 1,
                status: 255,
            },
            Command::Lose { drv: 0 },
            Command::Down { drv: 1 },
            Command::Ask { drv: 0 },
        ] => true,
        _ => false,
    }
}

fn are_calls_on_machines(alloc: Global) -> bool {
    let Some(commands) = read(alloc, "stop\ndrain 2\nenable 0") else {
        return false;
    };
    match commands.as_slice() {
        [
            Command::Stop,
            Command::Drain { machine: 2 },
            Command::Enable { machine: 0 },
        ] => true,
        _ => false,
    }
}

/// Paths that are copied, out of order and repeated, and none.
fn are_copied(alloc: Global) -> bool {
    let Ok(text) = format!(in alloc; "startwith 0 {S2} {S1} {S2}\nstartwith 1") else {
        return false;
    };
    let Some(commands) = read(alloc, text.as_str()) else {
        return false;
    };
    match commands.as_slice() {
        [
            Command::StartWith { drv: 0, paths },
            Command::StartWith {
                drv: 1,
                paths: none,
            },
        ] => is_set(paths, &[S1, S2]) && none.is_empty(),
        _ => false,
    }
}

fn are_reported(alloc: Global) -> bool {
    let Ok(text) = format!(in alloc; "built 1 o {S3} {S1} o") else {
        return false;
    };
    let Some(commands) = read(alloc, text.as_str()) else {
        return false;
    };
    let [Command::BuiltWith { drv: 1, refs }] = commands.as_slice() else {
        return false;
    };
    match refs.lists() {
        [first, second] => is_set(first, &[S1, S3]) && second.is_empty(),
        _ => false,
    }
}

#[test]
fn script_calls(rt: HostRuntime) {
    assert!(rt; are_calls_on_derivations(rt.alloc()), "of derivations");
    assert!(rt; are_calls_on_machines(rt.alloc()), "of machines");
    assert!(rt; are_copied(rt.alloc()), "paths that are copied");
    assert!(rt; are_reported(rt.alloc()), "references that are reported");
}

#[test]
fn bad_script_lines(rt: HostRuntime) {
    for text in [
        "\n",
        "start",
        "start 2",
        "start 00",
        "start 1 ",
        "start  1",
        " stop",
        "stop 1",
        "Stop",
        "startwith 0 x",
        "startwith 0 ",
        "fail 0",
        "fail 0 256",
        "fail 0 01",
        "built 0 x",
        "built 0 o x",
        "drain 3",
        "enable 3",
        "ask 2",
        "noconnect 1",
    ] {
        assert_eq!(rt; bad_line(rt.alloc(), text), 1, "in {text}");
    }
}

#[test]
fn first_bad_script_lines(rt: HostRuntime) {
    assert_eq!(rt; bad_line(rt.alloc(), "start 1\nbuilt 1\n\nask 0"), 3);
    assert_eq!(rt;
        bad_line(rt.alloc(), "start 1\nlose 4294967296\nask 2\n"),
        2
    );
    assert_eq!(rt; bad_line(rt.alloc(), ""), 0);
}
