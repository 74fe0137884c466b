//! What no contract of `nd_bundle` says of reading needs: that it is done with ample memory, and that derivations which need
//! the same share it, also where they stand in other blocks.

use crate::tests::shapes::{Shape, text_of};
use nd_bundle::{GraphError, Needs, NeedsReader, read_bundle};
use nd_eligible::Need;
use nd_graph::Graph;
use std::alloc::{AllocError, Global};
use std::thread::Threads;

/// The needs of a text that comes in blocks of so many bytes.
fn read_blocks<R: Threads + Sync>(
    rt: &R,
    alloc: Global,
    text: &[u8],
    size: usize,
) -> Result<Needs, GraphError> {
    let mut reader = NeedsReader::new(alloc, false);
    for part in text.chunks(size.max(1)) {
        reader.feed(rt, part)?;
    }
    reader.finish(rt)
}

/// Whether two needs are the same.
fn is_same(one: &Need, other: &Need) -> bool {
    one.system == other.system
        && one.features == other.features
        && one.prefer_local == other.prefer_local
        && one.builtin == other.builtin
}

/// Whether these are the needs of the graph's nodes.
fn are_needs_of(needs: &Needs, graph: &Graph) -> bool {
    if needs.places().len() != graph.needs().len() {
        return false;
    }
    for (place, need) in needs.places().iter().zip(graph.needs()) {
        match needs.table().get(*place) {
            Some(found) => {
                if !is_same(found, need) {
                    return false;
                }
            }
            None => return false,
        }
    }
    true
}

/// Puts the line of a derivation with this number, which is of this kind, behind a text: kinds differ in the feature, in the
/// platform, in whether they prefer the local machine and in whether they are builtin.
fn push_line(text: &mut Vec<u8>, number: usize, kind: usize) -> Result<(), AllocError> {
    text.extend_from_slice(b"/nix/store/000000000000000000000000000")?;
    push_digits(text, number)?;
    text.extend_from_slice(b"-n.drv Derive([(\"out\",\"/nix/store/aaaaaaaaaaaaaaaaaaaaaaaaaaa")?;
    push_digits(text, number)?;
    text.extend_from_slice(b"-n\",\"\",\"\")],[],[],\"")?;
    text.extend_from_slice(if kind % 2 == 0 {
        b"x86_64-linux".as_slice()
    } else {
        b"aarch64-linux".as_slice()
    })?;
    text.extend_from_slice(if kind % 3 == 0 {
        b"\",\"builtin:fetchurl\",[],[(\"preferLocalBuild\",\"".as_slice()
    } else {
        b"\",\"/bin/sh\",[],[(\"preferLocalBuild\",\"".as_slice()
    })?;
    text.push(b'0' + (kind % 5 / 4) as u8)?;
    text.extend_from_slice(b"\"),(\"requiredSystemFeatures\",\"f")?;
    push_digits(text, kind / 2)?;
    text.extend_from_slice(b"\")])\n")
}

/// Puts the last five digits of a number behind a text.
fn push_digits(text: &mut Vec<u8>, number: usize) -> Result<(), AllocError> {
    for scale in [10_000, 1_000, 100, 10, 1] {
        text.push(b'0' + (number / scale % 10) as u8)?;
    }
    Ok(())
}

/// A bundle of so many derivations, of so many kinds by turns.
fn kinds(alloc: Global, count: usize, kinds: usize) -> Result<Vec<u8>, AllocError> {
    let mut text = Vec::new(alloc);
    for number in 0..count {
        push_line(&mut text, number, number % kinds.max(1))?;
    }
    Ok(text)
}

/// How many needs the table has of so many derivations of so many kinds, in blocks of so many bytes, or none where they aren't
/// those of their graph.
fn shared<R: Threads + Sync>(
    rt: &R,
    alloc: Global,
    count: usize,
    many: usize,
    size: usize,
) -> Result<Option<usize>, GraphError> {
    let text = kinds(alloc, count, many)?;
    let graph = read_bundle(rt, alloc, text.as_slice(), false)?;
    let needs = read_blocks(rt, alloc, text.as_slice(), size)?;
    if !are_needs_of(&needs, &graph) {
        return Ok(None);
    }
    Ok(Some(needs.table().len()))
}

#[test]
fn one_kind_stands_once(rt: HostRuntime) {
    assert_eq!(rt; shared(&rt, rt.alloc(), 40, 1, 10).unwrap_or(None), Some(1));
}

#[test]
fn few_kinds_stand_once(rt: HostRuntime) {
    assert_eq!(rt;
        shared(&rt, rt.alloc(), 1600, 16, 150_000).unwrap_or(None),
        Some(16)
    );
}

/// Of more kinds than are compared some stand more than once.
#[test]
fn many_kinds_keep_their_places(rt: HostRuntime) {
    assert!(rt; shared(&rt, rt.alloc(), 1600, 40, 150_000).unwrap_or(None) > Some(40));
}

/// Whether so many derivations of that shape, of which each but the first needs others, have their needs.
fn are_linked<R: Threads + Sync>(rt: &R, alloc: Global, shape: Shape) -> Result<bool, GraphError> {
    let text = text_of(alloc, shape, 300)?;
    let graph = read_bundle(rt, alloc, text.as_slice(), false)?;
    let needs = read_blocks(rt, alloc, text.as_slice(), 30_000)?;
    Ok(needs.table().len() == 1 && are_needs_of(&needs, &graph))
}

#[test]
fn needs_of_linked_derivations(rt: HostRuntime) {
    for shape in [Shape::Chain, Shape::Falling, Shape::Tower] {
        assert!(rt; are_linked(&rt, rt.alloc(), shape).unwrap_or(false));
    }
}
