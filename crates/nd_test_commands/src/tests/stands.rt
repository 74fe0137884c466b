//! Stand texts for two derivations and a park of three machines.

use nd_script::{Rule, ScriptError, parse_stand};
use nd_test_fixtures::bundles::{S1, S2, S3};
use nd_test_fixtures::paths::is_set;
use std::alloc::Global;

/// The rules of the stand text, if it is accepted and memory is found.
fn read(alloc: Global, text: &str) -> Option<Vec<Rule>> {
    match parse_stand(alloc, text.as_bytes(), 2, 3) {
        Ok(rules) => Some(rules),
        Err(_) => None,
    }
}

/// The number of the line for which the stand text is refused, and 0 where it isn't.
fn bad_line(alloc: Global, text: &str) -> usize {
    match parse_stand(alloc, text.as_bytes(), 2, 3) {
        Err(ScriptError::BadLine(line)) => line,
        _ => 0,
    }
}

fn are_refusals(alloc: Global) -> bool {
    let Some(rules) = read(alloc, "noconnect 1\nnocopy 2\nnoconnect 0\n") else {
        return false;
    };
    match rules.as_slice() {
        [Rule::NoConnect(1), Rule::NoCopy(2), Rule::NoConnect(0)] => true,
        _ => false,
    }
}

fn are_endings(alloc: Global) -> bool {
    let Some(rules) = read(alloc, "fail 1 255\nlose 0\nfail 0 0\nbuilt 1") else {
        return false;
    };
    match rules.as_slice() {
        [
            Rule::Fail(1, 255),
            Rule::Lose(0),
            Rule::Fail(0, 0),
            Rule::Built(1, refs),
        ] => refs.lists().is_empty(),
        _ => false,
    }
}

/// Whether the rule reports S1 and S3 for a first output of derivation 1, and nothing for a second.
fn is_report(rule: &Rule) -> bool {
    let Rule::Built(1, refs) = rule else {
        return false;
    };
    match refs.lists() {
        [first, second] => is_set(first, &[S1, S3]) && second.is_empty(),
        _ => false,
    }
}

/// Lists of references, out of order and repeated; and a copy of the rule.
fn is_reported(alloc: Global) -> bool {
    let Ok(text) = format!(in alloc; "built 1 o {S3} {S1} {S3} o") else {
        return false;
    };
    let Some(rules) = read(alloc, text.as_str()) else {
        return false;
    };
    let [rule] = rules.as_slice() else {
        return false;
    };
    match rule.try_clone() {
        Ok(copy) => is_report(rule) && is_report(&copy),
        Err(_) => false,
    }
}

/// Whether a path without an `o` before it is refused, and one with it is not.
fn wants_its_mark(alloc: Global) -> bool {
    let Ok(text) = format!(in alloc; "built 0 o {S2}\nbuilt 0 {S2}") else {
        return false;
    };
    bad_line(alloc, text.as_str()) == 2
}

#[test]
fn stand_rules(rt: HostRuntime) {
    assert!(rt; are_refusals(rt.alloc()), "of connects and copies");
    assert!(rt; are_endings(rt.alloc()), "of builds");
    assert!(rt; is_reported(rt.alloc()), "references that are reported");
    assert!(rt; wants_its_mark(rt.alloc()), "an o before each list");
}

#[test]
fn bad_stand_lines(rt: HostRuntime) {
    for text in [
        "\n",
        "noconnect",
        "noconnect 3",
        "noconnect 01",
        "noconnect 1 ",
        "noconnect  1",
        " nocopy 1",
        "nocopy 3",
        "nocopy 1 2",
        "NoCopy 1",
        "fail 0",
        "fail 2 1",
        "fail 0 256",
        "fail 0 00",
        "fail 0 1 1",
        "lose 2",
        "lose -1",
        "built 2",
        "built 0 ",
        "built 0 o x",
        "start 0",
        "stop",
    ] {
        assert_eq!(rt; bad_line(rt.alloc(), text), 1, "in {text}");
    }
}

#[test]
fn first_bad_stand_lines(rt: HostRuntime) {
    assert_eq!(rt; bad_line(rt.alloc(), "lose 0\nnocopy 2\n\nlose 2"), 3);
    assert_eq!(rt; bad_line(rt.alloc(), "lose 0\nlose 4294967296\n"), 2);
    assert_eq!(rt; bad_line(rt.alloc(), ""), 0);
}
