//! The texts of bundles of numbered nodes.

use std::alloc::{AllocError, Global};

/// The graphs of the tests: which nodes each node needs.
#[derive(Clone, Copy)]
pub enum Shape {
    /// Nodes 1 and 2 on 0, 3 on 1 and 2, and 4 on 2.
    Five,
    /// Each node on the one before it.
    Chain,
    /// Each node on the next one.
    Falling,
    /// All nodes on node 0.
    Star,
    /// Two nodes a level, each on both of the level below.
    Tower,
    /// Each node on all those before it.
    Dense,
}

/// The nodes that a node of a graph with this many nodes needs: from one number up to another.
fn inputs_of(shape: Shape, node: usize, len: usize) -> (usize, usize) {
    match shape {
        Shape::Five => five(node),
        Shape::Chain => (node.saturating_sub(1), node),
        Shape::Falling => next_of(node, len),
        Shape::Star => (0, node.min(1)),
        Shape::Tower => ((node / 2 * 2).saturating_sub(2), node / 2 * 2),
        Shape::Dense => (0, node),
    }
}

/// The same where each node is on the next one.
fn next_of(node: usize, len: usize) -> (usize, usize) {
    if node >= len {
        return (0, 0);
    }
    if len - node < 2 {
        return (0, 0);
    }
    (node + 1, node + 2)
}

/// The same of the graph with five nodes.
fn five(node: usize) -> (usize, usize) {
    match node {
        0 => (0, 0),
        1 | 2 => (0, 1),
        3 => (1, 3),
        _ => (2, 3),
    }
}

/// Writes the name of a node: the letter `n` and five digits.
fn push_name(text: &mut Vec<u8>, node: usize) -> Result<(), AllocError> {
    text.push(b'n')?;
    for scale in [10_000, 1_000, 100, 10, 1] {
        text.push(b'0' + (node / scale % 10) as u8)?;
    }
    Ok(())
}

/// Writes the path of a node's derivation.
fn push_path(text: &mut Vec<u8>, node: usize) -> Result<(), AllocError> {
    text.extend_from_slice(b"/nix/store/00000000000000000000000000000000-")?;
    push_name(text, node)?;
    text.extend_from_slice(b".drv")
}

/// Writes the inputs of a node.
fn push_inputs(text: &mut Vec<u8>, low: usize, high: usize) -> Result<(), AllocError> {
    for input in low..high {
        if input > low {
            text.push(b',')?;
        }
        text.extend_from_slice(b"(\"")?;
        push_path(text, input)?;
        text.extend_from_slice(b"\",[\"out\"])")?;
    }
    Ok(())
}

/// Writes the line of a node that needs those from `low` up to `high`.
pub(crate) fn push_line(
    text: &mut Vec<u8>,
    node: usize,
    low: usize,
    high: usize,
) -> Result<(), AllocError> {
    push_path(text, node)?;
    text.extend_from_slice(b" Derive([(\"out\",\"/nix/store/aaaaaaaaaaaaaaaaaaaaaaaaaaaaaaaa-")?;
    push_name(text, node)?;
    text.extend_from_slice(b"\",\"\",\"\")],[")?;
    push_inputs(text, low, high)?;
    text.extend_from_slice(b"],[],\"x86_64-linux\",\"/bin/sh\",[],[])\n")
}

/// The bundle of a graph with this many nodes.
pub(crate) fn text_of(alloc: Global, shape: Shape, len: usize) -> Result<Vec<u8>, AllocError> {
    let mut text = Vec::new(alloc);
    for node in 0..len {
        let (low, high) = inputs_of(shape, node, len);
        push_line(&mut text, node, low, high)?;
    }
    Ok(text)
}
