//! How the lines of a bundle are read.

/// How the lines of a bundle are read.
#[derive(Clone, Copy)]
pub(crate) struct Manner {
    /// Whether each line's path has to be the text path of its derivation.
    pub check: bool,
    /// Whether all of a line is kept that a graph has. Else the paths of its sources and of its outputs are let go of, and
    /// its links and its need are left.
    pub whole: bool,
}
