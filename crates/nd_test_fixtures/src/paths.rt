//! Sets of paths.

use nd_path::PathSet;

/// Whether the set holds just these paths, which rise.
pub fn is_set(set: &PathSet, paths: &[&str]) -> bool {
    if set.len() != paths.len() {
        return false;
    }
    for (path, text) in set.as_slice().iter().zip(paths) {
        if path.bytes() != text.as_bytes() {
            return false;
        }
    }
    true
}
