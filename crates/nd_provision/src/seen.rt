//! What contracts see of listed paths, and no memory holds.

ghost use Rattle.std.specs.Prelude.{◌≡◌, ◌++◌, ◌∷◌, ℕ, List, []};
ghost use Rattle.std.specs.Borrow.{ftrue};

use nd_path::StorePath;
use std::marker::Model;

/// A path. It is there for contracts alone, as all of this module: it takes no memory, and its methods do
/// nothing when they run.
#[derive(Drop, Debug)]
struct PathNote {
    pub ghost path: { List ℕ },
}

impl Model for PathNote {
    ghost also_owns = { λ _. ftrue };
}

// It owns nothing. That it may go to another thread is proved, in `TheSendSync`.
unsafe impl Send for PathNote {}

impl PathNote {
    fn of(_path: &StorePath) -> PathNote
        ensures { result.path ≡ _path.now }
    {
        PathNote {}
    }
}

/// A path, as a contract sees it.
#[derive(Drop, Debug)]
pub struct SeenPath {
    note: PathNote,
}

impl Model for SeenPath {
    ghost Value = { List ℕ };

    ghost view = { λ s. s.note.path };
}

impl SeenPath {
    /// This path.
    pub(crate) fn of(path: &StorePath) -> SeenPath
        ensures { result ≡ path.now }
    {
        SeenPath {
            note: PathNote::of(path),
        }
    }
}

/// What a path refers to.
#[derive(Drop, Debug)]
struct RefsNote {
    pub ghost refs: { List (List ℕ) },
}

impl Model for RefsNote {
    ghost also_owns = { λ _. ftrue };
}

// It owns nothing. That it may go to another thread is proved, in `TheSendSync`.
unsafe impl Send for RefsNote {}

impl RefsNote {
    fn of(_refs: &[StorePath]) -> RefsNote
        ensures { result.refs ≡ _refs.now }
    {
        RefsNote {}
    }
}

/// What a path refers to, as a contract sees it.
#[derive(Drop, Debug)]
pub struct SeenRefs {
    note: RefsNote,
}

impl Model for SeenRefs {
    ghost Value = { List (List ℕ) };

    ghost view = { λ s. s.note.refs };
}

impl SeenRefs {
    /// These paths.
    pub(crate) fn of(refs: &[StorePath]) -> SeenRefs
        ensures { result ≡ refs.now }
    {
        SeenRefs {
            note: RefsNote::of(refs),
        }
    }
}

/// The listed paths with what they refer to, in the order in which they were listed.
#[derive(Drop, Debug)]
pub(crate) struct Entries {
    pub ghost listed: { List (List ℕ × List (List ℕ)) },
}

impl Model for Entries {
    ghost also_owns = { λ _. ftrue };
}

// They own nothing. That they may go to another thread is proved, in `TheSendSync`.
unsafe impl Send for Entries {}

impl Entries {
    /// No path is listed.
    pub(crate) fn new() -> Entries
        ensures { result.listed ≡ [] }
    {
        Entries {}
    }

    /// These entries, and another one behind them.
    pub(crate) fn with(&self, _path: &SeenPath, _refs: &SeenRefs) -> Entries
        ensures { result.listed ≡ self.now.listed ++ (_path.now, _refs.now) ∷ [] }
    {
        Entries {}
    }

    /// The same entries.
    pub(crate) fn again(&self) -> Entries
        ensures { result.listed ≡ self.now.listed }
    {
        Entries {}
    }
}
