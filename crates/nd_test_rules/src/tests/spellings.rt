//! Strings of derivation texts with escapes at every place, by each of the readings. Want of memory is a no.

ghost use Rattle.std.specs.Prelude.{true};

use crate::tests::derivation_texts::joined;
use nd_aterm::{
    AtermError, Derivation, EnvEntry, EnvEntryView, SelectedView, Selection, parse, parse_selected,
};
use std::alloc::{AllocError, Global};

/// The bytes that have an escape, each with its spelling.
const ESCAPES: [(u8, &[u8]); 5] = [
    (b'"', b"\\\""),
    (b'\\', b"\\\\"),
    (b'\n', b"\\n"),
    (b'\r', b"\\r"),
    (b'\t', b"\\t"),
];

/// Bytes that stand for themselves, among them those that end something where no string is open.
const PLAIN: [(u8, &[u8]); 5] = [
    (b'a', b"a"),
    (b'n', b"n"),
    (b')', b")"),
    (b',', b","),
    (0xff, b"\xff"),
];

/// All variables of an environment.
struct All;

impl Selection for All {
    ghost selects = { λ _. true };

    fn selects(_name: &[u8]) -> bool {
        true
    }
}

/// A string, and how it is spelled.
#[derive(Drop)]
struct Spelled {
    value: Vec<u8>,
    spelling: Vec<u8>,
}

impl Spelled {
    /// The empty string.
    fn new(alloc: Global) -> Spelled {
        Spelled {
            value: Vec::new(alloc),
            spelling: Vec::new(alloc),
        }
    }

    /// Adds a byte of one of the two tables.
    fn push(&mut self, symbols: &[(u8, &[u8])], place: usize) -> Result<(), AllocError> {
        if let Some((byte, spelling)) = symbols.get(place) {
            self.value.push(*byte)?;
            self.spelling.extend_from_slice(spelling)?;
        }
        Ok(())
    }
}

/// Plain bytes, so many, with one of the escapes before the one at this place, or behind all of them.
fn with_escape(alloc: Global, length: usize, place: usize) -> Result<Spelled, AllocError> {
    let mut spelled = Spelled::new(alloc);
    for at in 0..length {
        if at == place {
            spelled.push(&ESCAPES, place % 5)?;
        }
        spelled.push(&PLAIN, at % 5)?;
    }
    if place >= length {
        spelled.push(&ESCAPES, place % 5)?;
    }
    Ok(spelled)
}

/// The next of the numbers that follow a seed, below a limit.
fn below(seed: &mut u64, limit: usize) -> usize {
    let grown = seed.wrapping_mul(6_364_136_223_846_793_005);
    *seed = grown.wrapping_add(1_442_695_040_888_963_407);
    let number = (*seed >> 33) as usize;
    number.checked_rem(limit).unwrap_or(0)
}

/// A string of up to 47 bytes, half of which have an escape.
fn drawn(alloc: Global, seed: u64) -> Result<Spelled, AllocError> {
    let mut seed = seed;
    let mut spelled = Spelled::new(alloc);
    for _at in 0..below(&mut seed, 48) {
        let place = below(&mut seed, 5);
        if below(&mut seed, 2) == 0 {
            spelled.push(&ESCAPES, place)?;
        } else {
            spelled.push(&PLAIN, place)?;
        }
    }
    Ok(spelled)
}

/// Whether there is one variable, borrowed, which has the value.
fn is_one_view(env: &[EnvEntryView<'_>], value: &[u8]) -> bool {
    match env {
        [variable] => variable.value.as_slice() == value,
        _ => false,
    }
}

/// Whether this is a derivation with one variable, which has the value.
fn is_owned(answer: Result<Derivation, AtermError>, value: &[u8]) -> bool {
    match answer {
        Ok(derivation) => is_one(derivation.parts.env.as_slice(), value),
        Err(_) => false,
    }
}

/// Whether there is one variable, which has the value.
fn is_one(env: &[EnvEntry], value: &[u8]) -> bool {
    match env {
        [variable] => variable.value.as_slice() == value,
        _ => false,
    }
}

/// Whether this is what is selected of one.
fn is_selected(answer: Result<SelectedView<'_>, AtermError>, value: &[u8]) -> bool {
    match answer {
        Ok(selected) => is_one_view(selected.env.as_slice(), value),
        Err(_) => false,
    }
}

/// Whether each reading finds the value in a text.
fn all_find(alloc: Global, text: &[u8], value: &[u8]) -> bool {
    is_owned(parse(alloc, text), value) && is_selected(parse_selected::<All>(alloc, text), value)
}

/// Whether each reading says that this is no derivation's text.
fn all_refuse(alloc: Global, text: &[u8]) -> bool {
    let refused = Some(AtermError::NotDerivation);
    parse(alloc, text).err() == refused && parse_selected::<All>(alloc, text).err() == refused
}

/// Whether each reading refuses the text wherever it is cut.
fn all_refuse_fronts(alloc: Global, text: &[u8]) -> bool {
    for end in 0..text.len() {
        if !all_refuse(alloc, &text[..end]) {
            return false;
        }
    }
    true
}

/// The text of a derivation with one variable, whose value is spelled so.
fn text_with(alloc: Global, spelling: &[u8]) -> Result<Vec<u8>, AllocError> {
    let front = b"Derive([],[],[],\"s\",\"b\",[],[(\"k\",\"".as_slice();
    joined(alloc, front, spelling, b"\")])")
}

/// Whether each reading finds the string, and, where `cut` is set, refuses the text wherever it is cut.
fn is_read(alloc: Global, spelled: Result<Spelled, AllocError>, cut: bool) -> bool {
    let Ok(spelled) = spelled else {
        return false;
    };
    match text_with(alloc, &spelled.spelling) {
        Ok(text) => {
            all_find(alloc, &text, &spelled.value) && (!cut || all_refuse_fronts(alloc, &text))
        }
        Err(_) => false,
    }
}

#[test]
fn escape_at_each_place(rt: HostRuntime) {
    for length in 0..100 {
        for place in 0..=length {
            let spelled = with_escape(rt.alloc(), length, place);
            assert!(rt; is_read(rt.alloc(), spelled, false), "{place} of {length}");
        }
    }
}

#[test]
fn drawn_strings_cut_at_every_byte(rt: HostRuntime) {
    for seed in 0..200 {
        let spelled = drawn(rt.alloc(), seed);
        assert!(rt; is_read(rt.alloc(), spelled, true), "seed {seed}");
    }
}
