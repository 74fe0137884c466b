//! What was found in the lines of a bundle.

ghost use Rattle.std.specs.Prelude.{◌≡◌, Ok, None, IfErr, IfOk, OnOk};
ghost use Rattle.nd_bundle.specs.Parts.{IsFoundFault, IsFoundNowhere, IsFoundNumbered, Takes, TakesAll};

use crate::piece::Piece;
use indexmap::IndexSet;
use nd_links::{Columns, Details, GraphError, Numbers};
use nd_path::StorePath;
use std::alloc::{AllocError, Global};

/// What was found in lines of a bundle: what they say, or the first refusal. Behind a refusal nothing is taken
/// any more, and the lists have what stands before it.
#[derive(Drop)]
pub(crate) struct Found {
    pub numbers: Numbers,
    pub details: Details,
    pub refused: Option<GraphError>,
}

/// What lines say, each of which has a path of its own: their paths by number, and the rest.
#[derive(Drop)]
pub(crate) struct Numbered {
    pub paths: IndexSet<StorePath>,
    pub details: Details,
}

impl Found {
    /// What is found in no lines. It takes no memory.
    #[tactic(auto, using(crate::proofs::Parted::found_none))]
    pub(crate) fn new(alloc: Global) -> Found
        ensures { IsFoundNowhere result }
    {
        Found {
            numbers: Numbers::new(alloc),
            details: Details::new(alloc),
            refused: None,
        }
    }

    /// The same with what was read of pieces behind its lines.
    pub(crate) fn with(self, pieces: Vec<Result<Piece, AllocError>>) -> Result<Found, AllocError>
        ensures { IfOk result (TakesAll self pieces.items) }
    {
        let mut found = self;
        found.take_all(pieces)?;
        Ok(found)
    }

    /// Takes what was read of pieces of a text, and makes room for it at once.
    pub(crate) fn take_all(
        &mut self,
        pieces: Vec<Result<Piece, AllocError>>,
    ) -> Result<(), AllocError>
        ensures { OnOk result (TakesAll self.old pieces.items self.new) }
    {
        self.details.reserve(count_nodes(pieces.as_slice()))?;
        self.take_each(pieces)
    }

    /// Takes what was read of pieces of a text, one behind another.
    #[tactic(auto, using(crate::proofs::Parted::takes_none))]
    fn take_each(&mut self, pieces: Vec<Result<Piece, AllocError>>) -> Result<(), AllocError>
        ensures { OnOk result (TakesAll self.old pieces.items self.new) }
    {
        for piece in pieces {
            self.take(piece)?;
        }
        Ok(())
    }

    /// Takes what was read of a piece, unless a line before it is refused.
    #[tactic(auto, using(crate::proofs::Parted::passes))]
    fn take(&mut self, read: Result<Piece, AllocError>) -> Result<(), AllocError>
        ensures { OnOk result (Takes self.old read self.new) }
    {
        match self.refused {
            Some(_) => Ok(()),
            None => self.add(read?),
        }
    }

    /// Adds what was read of a piece. Its refusal has the line's number: so many nodes were said before, and one.
    fn add(&mut self, piece: Piece) -> Result<(), AllocError>
        requires { self.old.refused ≡ None }
        ensures { OnOk result (Takes self.old (Ok piece) self.new) }
    {
        let Piece { columns, refused } = piece;
        let Columns { paths, details } = columns;
        self.numbers.add(paths)?;
        self.details.append(details)?;
        match refused {
            None => Ok(()),
            Some(fault) => {
                let line = self.details.next_line();
                self.refused = Some(GraphError::of_line(fault, line));
                Ok(())
            }
        }
    }

    /// What the lines say with their paths numbered, or the first refusal.
    #[tactic(auto, using(crate::proofs::Parted::found_numbered, crate::proofs::Parted::found_twice, crate::proofs::Parted::found_fault))]
    pub(crate) fn into_numbered(self) -> Result<Numbered, GraphError>
        ensures ok { IfOk result (IsFoundNumbered self) }
        ensures err { IfErr result (IsFoundFault self) }
    {
        let Found {
            numbers,
            details,
            refused,
        } = self;
        match refused {
            Some(fault) => Err(fault),
            None => match numbers.into_paths() {
                Ok(paths) => Ok(Numbered { paths, details }),
                Err(fault) => Err(fault),
            },
        }
    }
}

/// How many nodes the pieces have.
fn count_nodes(pieces: &[Result<Piece, AllocError>]) -> usize {
    let mut count = 0usize;
    for read in pieces {
        if let Ok(piece) = read {
            count = count.saturating_add(piece.columns.paths.len());
        }
    }
    count
}
