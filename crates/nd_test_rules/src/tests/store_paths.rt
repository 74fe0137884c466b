//! The worked examples of store paths. Want of memory is a no.

use crate::tests::values::is_printed;
use nd_path::{PathError, PathSet, StorePath, base32, fold, text_path};
use std::alloc::{AllocError, Global};
use std::slice;

const REFERENCE: &[u8; 46] = b"/nix/store/pppppppppppppppppppppppppppppppp-s1";

/// Whether the bytes are spelled so.
fn is_spelled(bytes: &[u8; 20], text: &[u8; 32]) -> bool {
    base32(bytes).as_slice() == text.as_slice()
}

/// Whether the fold of a digest, given in hexadecimal digits, is spelled so.
fn is_fold_spelled(digits: &str, text: &[u8; 32]) -> bool {
    match <[u8; 32] as hex::FromHex>::from_hex(digits) {
        Ok(digest) => is_spelled(&fold(&digest), text),
        Err(_) => false,
    }
}

/// The path of the text `abc` with the one reference, under this name.
fn path_of_abc(alloc: Global, name: &[u8]) -> Result<StorePath, PathError> {
    let reference = StorePath::parse(alloc, REFERENCE)?;
    let path = text_path(alloc, name, slice::from_ref(&reference), b"abc");
    drop(reference);
    path
}

/// Whether an answer is this path.
fn is_path(answer: Result<StorePath, PathError>, text: &[u8]) -> bool {
    match answer {
        Ok(path) => {
            let is_so = path.bytes() == text;
            drop(path);
            is_so
        }
        Err(_) => false,
    }
}

/// Whether an answer is this refusal.
fn is_refused(answer: Result<StorePath, PathError>, refusal: PathError) -> bool {
    match answer {
        Ok(path) => {
            drop(path);
            false
        }
        Err(why) => why == refusal,
    }
}

#[test]
fn base32_and_fold(rt: HostRuntime) {
    let alloc = rt.alloc();
    let mut bytes = [0u8; 20];
    assert!(rt; is_spelled(&bytes, b"00000000000000000000000000000000"));
    bytes[0] = 0x1f;
    assert!(rt; is_spelled(&bytes, b"0000000000000000000000000000000z"));
    bytes[0] = 0;
    bytes[19] = 0x80;
    assert!(rt; is_spelled(&bytes, b"h0000000000000000000000000000000"));
    let digest = "ba7816bf8f01cfea414140de5dae2223b00361a396177a9cb410ff61f20015ad";
    assert!(rt; is_fold_spelled(digest, b"ldhh7c134ap5swsm86rqnc0i7cinqvrc"));
    let path = b"/nix/store/ksk8w77r76wqqg8g8nrbfcvjjba6ii14-a.drv";
    assert!(rt; is_path(path_of_abc(alloc, b"a.drv"), path));
    assert!(rt; is_refused(path_of_abc(alloc, b"a b"), PathError::Name));
}

/// A text of the store directory, 32 times the digit, a dash and a name of this many letters `n`.
fn path_text(alloc: Global, digit: u8, name_length: usize) -> Result<Vec<u8>, AllocError> {
    let mut text = Vec::new(alloc);
    match put_path_text(&mut text, digit, name_length) {
        Ok(()) => Ok(text),
        Err(refused) => {
            drop(text);
            Err(refused)
        }
    }
}

/// Puts that text.
fn put_path_text(text: &mut Vec<u8>, digit: u8, name_length: usize) -> Result<(), AllocError> {
    text.extend_from_slice(b"/nix/store/")?;
    text.extend_from_slice(&[digit; 32])?;
    text.push(b'-')?;
    for _ in 0..name_length {
        text.push(b'n')?;
    }
    Ok(())
}

/// The path of that text.
fn path_of(alloc: Global, digit: u8, name_length: usize) -> Result<StorePath, PathError> {
    let text = path_text(alloc, digit, name_length)?;
    let path = StorePath::parse(alloc, &text);
    drop(text);
    path
}

/// Whether an answer is a path of this length.
fn has_length(answer: Result<StorePath, PathError>, length: usize) -> bool {
    match answer {
        Ok(path) => {
            let is_so = path.bytes().len() == length;
            drop(path);
            is_so
        }
        Err(_) => false,
    }
}

/// Whether a path is equal to its copy.
fn is_copied(path: &StorePath) -> bool {
    match path.try_clone() {
        Ok(copy) => {
            let is_so = copy == *path;
            drop(copy);
            is_so
        }
        Err(_) => false,
    }
}

/// Whether an answer is the path of a derivation with the name `.drv`, and is copied.
fn is_nameless(answer: Result<StorePath, PathError>) -> bool {
    match answer {
        Ok(path) => {
            let is_so = path.name() == b".drv".as_slice() && path.is_drv() && is_copied(&path);
            drop(path);
            is_so
        }
        Err(_) => false,
    }
}

#[test]
fn store_path_names(rt: HostRuntime) {
    let alloc = rt.alloc();
    assert!(rt; has_length(path_of(alloc, b'p', 211), 255));
    assert!(rt; is_refused(path_of(alloc, b'p', 212), PathError::Name));
    assert!(rt; is_refused(path_of(alloc, b'p', 0), PathError::Name));
    assert!(rt; is_refused(path_of(alloc, b'e', 1), PathError::Digest));
    assert!(rt; is_refused(StorePath::parse(alloc, b"/nix/stor/"), PathError::Prefix));
    assert!(rt; is_refused(StorePath::parse(alloc, b""), PathError::Prefix));
    let hidden = b"/nix/store/pppppppppppppppppppppppppppppppp-.drv";
    assert!(rt; is_nameless(StorePath::parse(alloc, hidden)));
    assert!(rt; is_printed(alloc, &PathError::Digest, "Digest"));
}

/// The set of the paths with these digits.
fn set_of(alloc: Global, digits: &[u8]) -> Result<PathSet, PathError> {
    let mut paths = Vec::new(alloc);
    match push_paths(alloc, &mut paths, digits) {
        Ok(()) => Ok(PathSet::from_vec(paths)?),
        Err(refused) => {
            drop(paths);
            Err(refused)
        }
    }
}

/// Adds the paths with these digits.
fn push_paths(alloc: Global, paths: &mut Vec<StorePath>, digits: &[u8]) -> Result<(), PathError> {
    for digit in digits {
        let path = path_of(alloc, *digit, 1)?;
        paths.push(path)?;
    }
    Ok(())
}

/// Whether the set lacks the path with this digit.
fn lacks(alloc: Global, set: &PathSet, digit: u8) -> bool {
    match path_of(alloc, digit, 1) {
        Ok(path) => {
            let is_so = !set.contains(&path);
            drop(path);
            is_so
        }
        Err(_) => false,
    }
}

/// Whether the set has each of its paths.
fn has_its_own(set: &PathSet) -> bool {
    for path in set.as_slice() {
        if !set.contains(path) {
            return false;
        }
    }
    true
}

/// Whether a set of three is equal to its copy, and the copy is given back as three paths.
fn is_set_copied(set: &PathSet) -> bool {
    match set.try_clone() {
        Ok(copy) => {
            let is_same = copy == *set;
            let paths = copy.into_vec();
            let count = paths.len();
            drop(paths);
            is_same && count == 3
        }
        Err(_) => false,
    }
}

/// Whether an answer is a set of three paths, without the one with the digit `r`.
fn is_three(alloc: Global, answer: Result<PathSet, PathError>) -> bool {
    match answer {
        Ok(set) => {
            let is_so = set.len() == 3
                && lacks(alloc, &set, b'r')
                && has_its_own(&set)
                && is_set_copied(&set);
            drop(set);
            is_so
        }
        Err(_) => false,
    }
}

#[test]
fn sets_of_paths(rt: HostRuntime) {
    let alloc = rt.alloc();
    assert!(rt; is_three(alloc, set_of(alloc, b"sqsp")));
    assert!(rt; PathSet::new(alloc).is_empty());
}
