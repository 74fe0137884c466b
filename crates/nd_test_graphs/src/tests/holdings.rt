//! What no contract of `nd_path_numbers` says: that its calls succeed with ample memory, that what two
//! machines lack of a closure comes out, and that additions stay quick after a refusal.
//!
//! Paths are written as in the tests of closures: with the digits 1, 2 and 3.

ghost use Rattle.std.specs.Prelude.{◌≡◌, length};

use crate::tests::closures::{are, path, path_named};
use nd_bytes::Items;
use nd_path_numbers::{Held, Holdings, PathNumbers, reach_unheld};
use std::alloc::{AllocError, Global};
use std::marker::Model;

/// Says that the path of one digit refers to that of another, and to nothing else.
fn refer(alloc: Global, numbers: &mut PathNumbers, from: u8, to: u8) -> Result<(), AllocError> {
    let to = numbers.know(alloc, &path(alloc, path_named(to))?)?;
    let from = numbers.know(alloc, &path(alloc, path_named(from))?)?;
    let mut row = Vec::new(alloc);
    row.push(to)?;
    numbers.set_row(from, Items::new(row));
    Ok(())
}

/// The paths 1, 2 and 3, of which each refers to the next.
fn three(alloc: Global) -> Result<PathNumbers, AllocError> {
    let mut numbers = PathNumbers::new(alloc);
    refer(alloc, &mut numbers, b'1', b'2')?;
    refer(alloc, &mut numbers, b'2', b'3')?;
    Ok(numbers)
}

/// Adds the path of a digit to those that the second of two machines holds, and says whether it was new
/// there.
fn add(
    alloc: Global,
    numbers: &mut PathNumbers,
    holdings: &mut Holdings,
    digit: u8,
) -> Result<bool, AllocError>
    requires { length holdings.old ≡ 2 }
    ensures { length holdings.new ≡ 2 }
{
    let number = numbers.know(alloc, &path(alloc, path_named(digit))?)?;
    holdings.add(1, number)
}

/// Whether just these paths of the closure of path 1 are reached without a path that is held. Want of
/// memory is a no.
fn lacks(alloc: Global, numbers: &PathNumbers, held: &Held, digits: &[u8]) -> bool {
    let Ok(first) = path(alloc, path_named(b'1')) else {
        return false;
    };
    let Some(number) = numbers.number(&first) else {
        return false;
    };
    match reach_unheld(alloc, &[number], numbers, held) {
        Ok(lacked) => are(lacked.as_slice(), digits),
        Err(_) => false,
    }
}

/// Whether the second machine takes path 2 once, and it and its copy lack path 1 alone after that, while
/// the first machine lacks all three.
fn takes_one(alloc: Global) -> Result<bool, AllocError> {
    let mut numbers = three(alloc)?;
    let mut holdings = Holdings::new(alloc, 2)?;
    let before = lacks(alloc, &numbers, holdings.held(1), b"123");
    holdings.reserve(1, 1)?;
    let first = add(alloc, &mut numbers, &mut holdings, b'2')?;
    let again = add(alloc, &mut numbers, &mut holdings, b'2')?;
    let copy = holdings.try_clone()?;
    let after = lacks(alloc, &numbers, holdings.held(1), b"1")
        && lacks(alloc, &numbers, copy.held(1), b"1")
        && lacks(alloc, &numbers, copy.held(0), b"123");
    Ok(before && first && !again && after)
}

#[test]
fn two_machines(rt: HostRuntime) {
    assert!(rt; takes_one(rt.alloc()) == Ok(true));
}

/// Two machines, the second of which takes numbers.
#[derive(Drop)]
struct Two {
    holdings: Holdings,
}

impl Model for Two {
    ghost use Rattle.std.specs.Prelude.{◌≡◌, List, length};
    ghost use Rattle.nd_path_numbers.specs.Held.{Hold};

    ghost Value = { List Hold };

    ghost view = { λ t. t.holdings };

    ghost invariant = { λ t. length t.holdings ≡ 2 };
}

impl Two {
    /// Nothing is held yet.
    fn new(alloc: Global) -> Result<Two, AllocError> {
        let holdings = Holdings::new(alloc, 2)?;
        Ok(Two { holdings })
    }

    /// Makes room for `n` more.
    fn reserve(&mut self, n: usize) -> Result<(), AllocError> {
        self.holdings.reserve(1, n)
    }

    /// Adds a number, and once more where that was refused.
    fn add(&mut self, number: usize) -> Result<bool, AllocError> {
        if let Ok(added) = self.holdings.add(1, number) {
            return Ok(added);
        }
        self.holdings.add(1, number)
    }

    /// Whether this one is held.
    fn holds(&self, number: usize) -> bool {
        self.holdings.held(1).contains(number)
    }
}

/// Whether room for more than there is memory is refused, and the machine then takes the numbers below
/// `count` one by one, holds each of them, and not the next one.
fn takes_many(alloc: Global, count: usize) -> Result<bool, AllocError> {
    let mut two = Two::new(alloc)?;
    if two.reserve(usize::MAX).is_ok() {
        return Ok(false);
    }
    for number in 0..count {
        if !two.add(number)? {
            return Ok(false);
        }
    }
    for number in 0..count {
        if !two.holds(number) {
            return Ok(false);
        }
    }
    Ok(!two.holds(count))
}

/// Numbers that are looked for one by one in a list of so many take minutes: none is, behind a refused request
/// too, be it the one for too much room or one that `rt try --test --fail-alloc` refuses.
#[test]
fn many_additions(rt: HostRuntime) {
    assert!(rt; takes_many(rt.alloc(), 40_000) == Ok(true));
}
