//! What no contract of `nd_bundle` says of single lines: that they are read with ample memory, as the
//! worked examples say.

use crate::tests::reading::{answer, both_answer, find, graph_of};
use nd_bundle::{GraphError, drv_path, plain, read_bundle};
use nd_eligible::Need;
use nd_graph::Graph;
use nd_test_fixtures::bundles::{END, N0, N0_LINE, N0_TEXT, N1_ON, NEEDS_DEV, NEEDS_N0, joined};
use std::alloc::{AllocError, Global};
use std::thread::Threads;

/// The line of a builtin derivation, up to its variables.
const BUILTIN: &[u8] =
    b"/nix/store/00000000000000000000000000000000-n0.drv Derive([],[],[],\"s\",\"builtin:fetchurl\",[],[";

/// What stands behind its variables.
const BUILTIN_END: &[u8] = b"])";

/// The line of a builtin derivation, up to the text of its structured attributes.
const JSON: &[u8] =
    b"/nix/store/00000000000000000000000000000000-n0.drv Derive([],[],[],\"s\",\"builtin:fetchurl\",[],[(\"__json\",\"";

/// What stands behind that text.
const JSON_END: &[u8] = b"\")])";

/// Whether the need is that of the builtin derivation, with these wishes.
fn has_wishes(need: &Need, prefer_local: bool, features: &[&[u8]]) -> bool {
    if need.features.len() != features.len() {
        return false;
    }
    for feature in features {
        if !need.features.contains(feature) {
            return false;
        }
    }
    need.system.as_slice() == b"s".as_slice() && need.builtin && need.prefer_local == prefer_local
}

/// Whether a graph has one node, with these wishes.
fn is_one_with(graph: &Graph, prefer_local: bool, features: &[&[u8]]) -> bool {
    match graph.needs() {
        [need] => has_wishes(need, prefer_local, features),
        _ => false,
    }
}

/// Whether the parts of a builtin derivation's line say these wishes. Want of memory is a no.
fn wish(alloc: Global, parts: &[&[u8]], prefer_local: bool, features: &[&[u8]]) -> bool {
    match graph_of(alloc, parts) {
        Some(graph) => is_one_with(&graph, prefer_local, features),
        None => false,
    }
}

#[test]
fn structured_attributes(rt: HostRuntime) {
    let alloc = rt.alloc();
    let both =
        b"{\\\"preferLocalBuild\\\":true,\\\"requiredSystemFeatures\\\":[\\\"kvm\\\"]}".as_slice();
    assert!(rt; wish(alloc, &[JSON, both, JSON_END], true, &[b"kvm"]));
    assert!(rt; wish(alloc, &[JSON, b"{}", JSON_END], false, &[]));
    let last = b"{\\\"preferLocalBuild\\\":1,\\\"preferLocalBuild\\\":true}".as_slice();
    assert!(rt;
        wish(alloc, &[JSON, last, JSON_END], true, &[]),
        "of a repeated member the last counts"
    );
}

#[test]
fn bad_attributes(rt: HostRuntime) {
    let want = Some(GraphError::BadAttribute(1));
    for bad in [
        b"{".as_slice(),
        b"[]".as_slice(),
        b"".as_slice(),
        b"{\\\"preferLocalBuild\\\":1}".as_slice(),
        b"{\\\"preferLocalBuild\\\":null}".as_slice(),
        b"{\\\"requiredSystemFeatures\\\":\\\"kvm\\\"}".as_slice(),
        b"{\\\"requiredSystemFeatures\\\":[\\\"kvm\\\",1]}".as_slice(),
        b"{\\\"a\\\":\\\"\xff\\\"}".as_slice(),
    ] {
        assert!(rt; answer(&rt, rt.alloc(), &[JSON, bad, JSON_END], want));
    }
}

/// An object whose only member is arrays, one in the other, up to those.
const MEMBER: &[u8] = b"{\\\"a\\\":";

#[test]
fn nested_attributes(rt: HostRuntime) {
    let taken: [&[u8]; 6] = [JSON, MEMBER, &[b'['; 126], &[b']'; 126], b"}", JSON_END];
    assert!(rt; answer(&rt, rt.alloc(), &taken, None));
    let refused: [&[u8]; 6] = [JSON, MEMBER, &[b'['; 127], &[b']'; 127], b"}", JSON_END];
    let want = Some(GraphError::BadAttribute(1));
    assert!(rt; answer(&rt, rt.alloc(), &refused, want));
}

#[test]
fn plain_attributes(rt: HostRuntime) {
    let variables =
        b"(\"preferLocalBuild\",\"1\"),(\"requiredSystemFeatures\",\" kvm\\tbig kvm\\n\")";
    let parts: [&[u8]; 3] = [BUILTIN, variables, BUILTIN_END];
    assert!(rt; wish(rt.alloc(), &parts, true, &[b"big", b"kvm"]));
}

#[test]
fn attributes_of_both_kinds(rt: HostRuntime) {
    let variables =
        b"(\"__json\",\"{}\"),(\"preferLocalBuild\",\"1\"),(\"requiredSystemFeatures\",\"kvm\")";
    let parts: [&[u8]; 3] = [BUILTIN, variables, BUILTIN_END];
    assert!(rt; wish(rt.alloc(), &parts, false, &[]));
}

#[test]
fn bad_attributes_of_a_line(rt: HostRuntime) {
    let parts: [&[u8]; 3] = [BUILTIN, b"(\"__json\",\"[]\")", BUILTIN_END];
    assert!(rt; answer(&rt, rt.alloc(), &parts, Some(GraphError::BadAttribute(1))));
}

/// Whether a graph has the one node `n0`, with one output.
fn is_first_node(graph: &Graph) -> bool {
    graph.len() == 1 && graph.path(0).bytes() == N0 && graph.outputs(0).len() == 1
}

/// Whether the line of `n0`, with no newline, is read so. Want of memory is a no.
fn is_first_node_read(alloc: Global) -> bool {
    match graph_of(alloc, &[N0, b" ", N0_TEXT]) {
        Some(graph) => is_first_node(&graph),
        None => false,
    }
}

/// Whether the one output of `n0` is named `out`.
fn is_output_named<R: Threads + Sync>(rt: &R, alloc: Global) -> bool {
    let other = Some(GraphError::MissingOutput(2));
    answer(rt, alloc, &[N0_LINE, N1_ON, NEEDS_N0, END], None)
        && answer(rt, alloc, &[N0_LINE, N1_ON, NEEDS_DEV, END], other)
}

#[test]
fn line_errors(rt: HostRuntime) {
    let alloc = rt.alloc();
    assert!(rt; is_first_node_read(alloc) && is_output_named(&rt, alloc));
    let line = Some(GraphError::BadLine(1));
    assert!(rt; answer(&rt, alloc, &[b"\n"], line));
    assert!(rt; answer(&rt, alloc, &[N0], line));
    let path = Some(GraphError::BadPath(1));
    assert!(rt; answer(&rt, alloc, &[b" ", N0_TEXT], path));
    let other = b"/nix/store/00000000000000000000000000000000-n0".as_slice();
    assert!(rt; answer(&rt, alloc, &[other, b" ", N0_TEXT], path));
}

#[test]
fn derivation_faults(rt: HostRuntime) {
    let alloc = rt.alloc();
    let want = Some(GraphError::BadDerivation(1));
    assert!(rt; answer(&rt, alloc, &[N0, b"  ", N0_TEXT], want));
    assert!(rt; answer(&rt, alloc, &[N0, b" "], want));
    let source = b" Derive([(\"out\",\"\",\"\",\"\")],[],[\"x\"],\"s\",\"b\",[],[])".as_slice();
    assert!(rt; answer(&rt, alloc, &[N0, source], want));
    let unknown =
        b" Derive([(\"out\",\"\",\"\",\"\")],[],[],\"s\",\"b\",[],[(\"__json\",\"[]\")])".as_slice();
    assert!(rt;
        answer(
            &rt,
            alloc,
            &[N0, unknown],
            Some(GraphError::UnknownOutput(1))
        )
    );
}

/// The line of `n0` under the path of its text.
const OWN_LINE: &[u8] =
    b"/nix/store/6x5j8pcdjmdfkg9w81qfrazvz0va8xpm-n0.drv Derive([(\"out\",\"/nix/store/aaaaaaaaaaaaaaaaaaaaaaaaaaaaaaaa-n0\",\"\",\"\")],[],[],\"x86_64-linux\",\"/bin/sh\",[],[])";

#[test]
fn checked_lines(rt: HostRuntime) {
    let wrong = Some(GraphError::WrongPath(1));
    assert!(rt; both_answer(&rt, rt.alloc(), N0_LINE, true, wrong));
    assert!(rt; both_answer(&rt, rt.alloc(), OWN_LINE, true, None));
}

/// Whether the text has this path under this name. Want of memory is a no.
fn has_path(alloc: Global, name: &[u8], text: &[u8], path: &[u8]) -> bool {
    match drv_path(alloc, name, text) {
        Ok(own) => own.bytes() == path,
        Err(_) => false,
    }
}

#[test]
fn own_paths(rt: HostRuntime) {
    let alloc = rt.alloc();
    let plain = b"/nix/store/6x5j8pcdjmdfkg9w81qfrazvz0va8xpm-n0.drv";
    assert!(rt; has_path(alloc, b"n0.drv", N0_TEXT, plain));
    let text =
        b"Derive([(\"out\",\"/nix/store/bbbbbbbbbbbbbbbbbbbbbbbbbbbbbbbb-n1\",\"\",\"\")],[(\"/nix/store/00000000000000000000000000000000-n0.drv\",[\"out\"])],[\"/nix/store/pppppppppppppppppppppppppppppppp-s1\"],\"x86_64-linux\",\"/bin/sh\",[],[])";
    let sorted = b"/nix/store/sq451vnpghxfjw79iggh4z9mw5yimxap-n1.drv";
    assert!(rt; has_path(alloc, b"n1.drv", text, sorted));
    assert!(rt; drv_path(alloc, b"n0", b"x").err() == Some(GraphError::BadPath(0)));
    assert!(rt; drv_path(alloc, b".drv", b"x").err() == Some(GraphError::BadDerivation(0)));
}

/// The letter `s`, this many times.
fn letters(alloc: Global, count: usize) -> Result<Vec<u8>, AllocError> {
    vec![in alloc; b's'; count]
}

/// Whether a line with a platform of this many letters is refused for this reason, or taken where
/// there is none. Want of memory is a no.
fn is_long_answer<R: Threads + Sync>(
    rt: &R,
    alloc: Global,
    count: usize,
    want: Option<GraphError>,
) -> bool {
    match letters(alloc, count) {
        Ok(platform) => {
            let front = b" Derive([],[],[],\"".as_slice();
            let back = b"\",\"b\",[],[])".as_slice();
            answer(rt, alloc, &[N0, front, platform.as_slice(), back], want)
        }
        Err(_) => false,
    }
}

#[test]
fn long_lines(rt: HostRuntime) {
    assert!(rt; is_long_answer(&rt, rt.alloc(), 4_000_000, None));
    let want = Some(GraphError::BadDerivation(1));
    assert!(rt; is_long_answer(&rt, rt.alloc(), 16_777_188, want));
}

/// An empty line is a line, and nothing stands behind the last newline.
#[test]
fn lines_of_a_text(rt: HostRuntime) {
    let alloc = rt.alloc();
    assert!(rt; find(&rt, alloc, &[], 0));
    assert!(rt; find(&rt, alloc, &[N0_LINE], 1));
    assert!(rt; find(&rt, alloc, &[N0_LINE, N1_ON, END], 2));
    assert!(rt; answer(&rt, alloc, &[b"\n"], Some(GraphError::BadLine(1))));
    assert!(rt; answer(&rt, alloc, &[N0_LINE, b"\n"], Some(GraphError::BadLine(2))));
    assert!(rt; answer(&rt, alloc, &[b"a\nb\n"], Some(GraphError::BadLine(1))));
}

/// The last of three lines, which has no newline.
const N2: &[u8] =
    b"/nix/store/22222222222222222222222222222222-n2.drv Derive([(\"out\",\"/nix/store/cccccccccccccccccccccccccccccccc-n2\",\"\",\"\")],[],[],\"x86_64-linux\",\"/bin/sh\",[],[])";

#[test]
fn three_lines_read(rt: HostRuntime) {
    assert!(rt; find(&rt, rt.alloc(), &[N0_LINE, N1_ON, END, N2], 3));
}

/// Three lines, of which the second has no space.
const THREE: [&[u8]; 5] = [N0_LINE, b"x\n", N0, b" ", N0_TEXT];

/// The same with a right line in its place: the first and the third have no fault of their own.
const FIRST_AGAIN: [&[u8]; 6] = [N0_LINE, N1_ON, END, N0, b" ", N0_TEXT];

/// Why one thread refuses these parts, or none where it takes them or memory is wanting.
fn refusal(alloc: Global, parts: &[&[u8]]) -> Option<GraphError> {
    match joined(alloc, parts) {
        Ok(text) => plain::read_bundle(alloc, text.as_slice(), false).err(),
        Err(_) => None,
    }
}

#[test]
fn refused_lines(rt: HostRuntime) {
    let alloc = rt.alloc();
    assert!(rt; refusal(alloc, &THREE) == Some(GraphError::BadLine(2)));
    assert!(rt; refusal(alloc, &FIRST_AGAIN) == Some(GraphError::Duplicate(3)));
}

/// Why many threads refuse these parts, or none where they take them or memory is wanting.
fn refusal_in_parallel<R: Threads + Sync>(
    rt: &R,
    alloc: Global,
    parts: &[&[u8]],
) -> Option<GraphError> {
    match joined(alloc, parts) {
        Ok(text) => read_bundle(rt, alloc, text.as_slice(), false).err(),
        Err(_) => None,
    }
}

#[test]
fn refused_lines_in_parallel(rt: HostRuntime) {
    let alloc = rt.alloc();
    assert!(rt; refusal_in_parallel(&rt, alloc, &THREE) == Some(GraphError::BadLine(2)));
    let again = Some(GraphError::Duplicate(3));
    assert!(rt; refusal_in_parallel(&rt, alloc, &FIRST_AGAIN) == again);
}
