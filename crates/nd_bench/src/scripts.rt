//! Scripts, stand texts and the lines of a session.

use crate::graphs::{Names, Shape};
use crate::texts::{Text, drawn_below};
use std::alloc::{AllocError, Global};

/// What happens to a graph.
#[derive(Clone, Copy)]
pub(crate) struct Course {
    /// How many derivations run side by side: a power of two.
    pub(crate) window: usize,
    /// The first derivation that is started, and the first one that isn't.
    pub(crate) from: usize,
    pub(crate) to: usize,
    /// Whether builds report references.
    pub(crate) refers: bool,
    /// Whether some builds fail and machines are drained for a while.
    pub(crate) troubled: bool,
    /// Whether the reply about each derivation is asked for first.
    pub(crate) asks: bool,
}

/// A script that starts derivations, a window of them at a time, and ends them in another order.
pub(crate) fn script(
    alloc: Global,
    shape: &Shape,
    names: &Names,
    course: Course,
) -> Result<Vec<u8>, AllocError> {
    let room = course.to.saturating_sub(course.from).saturating_mul(40);
    let mut text = Text::with_room(alloc, room)?;
    let window = course.window.max(1);
    let windows = course.to.saturating_sub(course.from) / window;
    for number in 0..windows.saturating_add(1) {
        let first = course.from.saturating_add(number.saturating_mul(window));
        put_window(alloc, &mut text, shape, names, course, first)?;
    }
    Ok(text.into_vec())
}

/// Puts what happens to a window of derivations.
fn put_window(
    alloc: Global,
    text: &mut Text,
    shape: &Shape,
    names: &Names,
    course: Course,
    first: usize,
) -> Result<(), AllocError> {
    let last = first.saturating_add(course.window).min(course.to);
    let machine = drawn_below(shape.seed ^ 5, first as u64, 64).saturating_add(1);
    if course.troubled && machine % 4 == 1 {
        text.put_word(b"drain ", machine)?;
        text.put(b"\n")?;
    }
    for number in first..last {
        if course.asks {
            text.put_word(b"ask ", number)?;
            text.put(b"\n")?;
        }
        text.put_word(b"start ", number)?;
        text.put(b"\n")?;
    }
    let start = drawn_below(shape.seed ^ 6, first as u64, 65_536);
    let window = course.window.max(1);
    for place in 0..window {
        let along = start.saturating_add(place.saturating_mul(5)) % window;
        let number = first.saturating_add(along);
        if number < last {
            put_end(alloc, text, shape, names, course, number)?;
        }
    }
    if course.troubled && machine % 4 == 1 {
        text.put_word(b"enable ", machine)?;
        text.put(b"\n")?;
    }
    Ok(())
}

/// Puts how the build of a derivation ends. Some of the last ones fail.
fn put_end(
    alloc: Global,
    text: &mut Text,
    shape: &Shape,
    names: &Names,
    course: Course,
    number: usize,
) -> Result<(), AllocError> {
    let late = shape.count - shape.count / 64;
    if course.troubled && number >= late && number % 16 == 3 {
        text.put_word(b"fail ", number)?;
        return text.put(b" 1\n");
    }
    put_built(alloc, text, shape, names, course.refers, number)
}

/// Puts that a derivation is built, and where asked what its output refers to.
fn put_built(
    alloc: Global,
    text: &mut Text,
    shape: &Shape,
    names: &Names,
    refers: bool,
    number: usize,
) -> Result<(), AllocError> {
    text.put_word(b"built ", number)?;
    if refers {
        text.put(b" o")?;
        for input in shape.references_of(alloc, number)? {
            text.put(b" ")?;
            names.put_output(text, input)?;
        }
    }
    text.put(b"\n")
}

/// The stand text by which each build reports its references.
pub(crate) fn stand(alloc: Global, shape: &Shape, names: &Names) -> Result<Vec<u8>, AllocError> {
    let mut text = Text::with_room(alloc, shape.count.saturating_mul(40))?;
    for number in 0..shape.count {
        put_built(alloc, &mut text, shape, names, true, number)?;
    }
    Ok(text.into_vec())
}
