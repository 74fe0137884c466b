//! Rows of receipts that are compared with a history, few and many.

use nd_closure::Refs;
use nd_history::Entry;
use nd_path::PathSet;
use nd_receipts::{Kind, Receipt, Standing, are_rows_noted};
use std::alloc::Global;

/// A history, what workers noted of it in turn, and beside each receipt the copy of its entry.
#[derive(Drop)]
struct Noted {
    history: Vec<Entry>,
    rows: Vec<Vec<Receipt>>,
    copies: Vec<Vec<Entry>>,
}

/// The entry of this number: each is of another derivation.
fn entry(number: usize) -> Entry {
    Entry::Down {
        drv: (number % 65_536) as u32,
    }
}

/// The receipt of the entry of this number.
fn receipt(alloc: Global, number: usize) -> Receipt {
    Receipt {
        index: number,
        kind: Kind::Down,
        calls: 0,
        paths: PathSet::new(alloc),
        refs: Refs::new(Vec::new(alloc)),
        again: false,
    }
}

/// The receipts of a worker, of the entries from `number` on by `step`, so many.
fn row(alloc: Global, number: usize, step: usize, count: usize) -> Option<Vec<Receipt>> {
    let mut receipts = Vec::new(alloc);
    let mut next = number;
    for _ in 0..count {
        receipts.push(receipt(alloc, next)).ok()?;
        next = next.saturating_add(step);
    }
    Some(receipts)
}

/// The entries from `number` on by `step`, so many.
fn entries(alloc: Global, number: usize, step: usize, count: usize) -> Option<Vec<Entry>> {
    let mut found = Vec::new(alloc);
    let mut next = number;
    for _ in 0..count {
        found.push(entry(next)).ok()?;
        next = next.saturating_add(step);
    }
    Some(found)
}

/// What so many workers noted who made a history in turn, each as many entries.
fn noted_in_turn(alloc: Global, workers: usize, each: usize) -> Option<Noted> {
    let mut rows = Vec::new(alloc);
    let mut copies = Vec::new(alloc);
    for worker in 0..workers {
        rows.push(row(alloc, worker, workers, each)?).ok()?;
        copies.push(entries(alloc, worker, workers, each)?).ok()?;
    }
    Some(Noted {
        history: entries(alloc, 0, 1, workers.saturating_mul(each))?,
        rows,
        copies,
    })
}

/// What is said of them.
fn said(alloc: Global, noted: &Noted) -> Option<bool> {
    let standing = Standing::new(alloc, 0).ok()?;
    let history = noted.history.as_slice();
    let (rows, copies) = (noted.rows.as_slice(), noted.copies.as_slice());
    Some(are_rows_noted(history, 0, standing, rows, copies))
}

/// Names another entry at this place of the row, and hands back the one that was named.
fn rename(rows: &mut [Vec<Receipt>], row: usize, place: usize, index: usize) -> Option<usize> {
    let receipt = rows.get_mut(row)?.get_mut(place)?;
    let named = receipt.index;
    receipt.index = index;
    Some(named)
}

/// Whether no is said where the receipt at this place names another entry. It is put right again.
fn is_found(alloc: Global, noted: &mut Noted, row: usize, place: usize) -> bool {
    let other = if row == 0 && place == 0 { 1 } else { 0 };
    let Some(named) = rename(noted.rows.as_mut_slice(), row, place, other) else {
        return false;
    };
    if said(alloc, noted) != Some(false) {
        return false;
    }
    rename(noted.rows.as_mut_slice(), row, place, named) == Some(other)
}

/// Whether of what so many workers noted yes is said, and no where one of the receipts at these places of
/// a row is wrong, whichever row it is in.
fn are_found(alloc: Global, workers: usize, each: usize, places: &[usize]) -> bool {
    let Some(mut noted) = noted_in_turn(alloc, workers, each) else {
        return false;
    };
    for row in 0..workers {
        for place in places {
            if !is_found(alloc, &mut noted, row, *place) {
                return false;
            }
        }
    }
    said(alloc, &noted) == Some(true)
}

/// Whether no is said where the copies of the last row are wanting, and where there are copies of no row.
fn are_lengths_found(alloc: Global, workers: usize, each: usize) -> bool {
    let Some(mut noted) = noted_in_turn(alloc, workers, each) else {
        return false;
    };
    let Some(copies) = noted.copies.pop() else {
        return false;
    };
    if said(alloc, &noted) != Some(false) {
        return false;
    }
    if noted.copies.push(copies).is_err() || noted.copies.push(Vec::new(alloc)).is_err() {
        return false;
    }
    said(alloc, &noted) == Some(false)
}

#[test]
fn few_receipts(rt: HostRuntime) {
    let alloc = rt.alloc();
    assert!(rt; are_found(alloc, 3, 4, &[0, 1, 2, 3]));
    assert!(rt; are_found(alloc, 1, 1, &[0]));
    assert!(rt; are_lengths_found(alloc, 3, 4));
}

#[test]
fn many_receipts(rt: HostRuntime) {
    let alloc = rt.alloc();
    assert!(rt; are_found(alloc, 5, 4_000, &[0, 1, 1_999, 2_000, 3_998, 3_999]));
    assert!(rt; are_found(alloc, 1, 17_000, &[0, 8_500, 16_999]));
    assert!(rt; are_lengths_found(alloc, 5, 4_000));
}

#[test]
fn many_workers(rt: HostRuntime) {
    let alloc = rt.alloc();
    assert!(rt; are_found(alloc, 127, 129, &[128]));
    assert!(rt; are_found(alloc, 128, 128, &[127]));
}
