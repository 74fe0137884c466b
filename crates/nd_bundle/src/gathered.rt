//! What was found in the lines of a bundle, of which those of the last block aren't taken yet.

ghost use Rattle.std.specs.Prelude.{◌≡◌, None, IfErr, IfOk, OnOk};
ghost use Rattle.nd_bundle.specs.Parts.{ArePieces, IsReadFault, IsReadNowhere, IsReadNumbered, ReadsLines, StaysRead, TakesAll};

use crate::collect::{is_short, read_piece, read_pieces};
use crate::found::{Found, Numbered};
use crate::manner::Manner;
use crate::piece::Piece;
use nd_links::GraphError;
use std::alloc::{AllocError, Global};
use std::mem;
use std::thread::{Threads, join};

/// What was found in lines of a bundle, and what was read of pieces behind these, which isn't taken yet: one thread
/// takes it while others read the next block. No line of these pieces is refused.
#[derive(Drop)]
pub(crate) struct Gathered {
    pub found: Found,
    pub pieces: Vec<Result<Piece, AllocError>>,
}

impl Gathered {
    /// What is read of no lines. It takes no memory.
    #[tactic(auto, using(crate::proofs::Gathering::read_nowhere))]
    pub(crate) fn new(alloc: Global) -> Gathered
        ensures { IsReadNowhere result }
    {
        Gathered {
            found: Found::new(alloc),
            pieces: Vec::new(alloc),
        }
    }

    /// Reads a line, or few, by this thread. They aren't taken yet.
    #[tactic(auto, using(crate::proofs::Gathering::reads_settled))]
    pub(crate) fn read_line(
        &mut self,
        alloc: Global,
        text: &[u8],
        manner: Manner,
    ) -> Result<(), AllocError>
        requires { self.old.found.refused ≡ None }
        ensures { OnOk result (ReadsLines manner text.now self.old self.new) }
    {
        self.add_piece(alloc, text, manner)?;
        self.settle(alloc)
    }

    /// Reads the lines of a text behind those before, unless one of these is refused: by this thread where the text
    /// hasn't enough for two, and else by many. With `manner.check` each line's path has to be the text path of its
    /// derivation.
    #[tactic(auto, using(crate::proofs::Gathering::reads_none))]
    pub(crate) fn read_lines<R: Threads + Sync>(
        &mut self,
        rt: &R,
        alloc: Global,
        text: &[u8],
        manner: Manner,
    ) -> Result<(), AllocError>
        ensures { OnOk result (ReadsLines manner text.now self.old self.new) }
    {
        match self.found.refused {
            Some(_) => Ok(()),
            None => {
                if is_short(text) {
                    return self.read_short(alloc, text, manner);
                }
                self.read_long(rt, alloc, text, manner)
            }
        }
    }

    /// Reads the lines of a short text by this thread, and takes all.
    #[tactic(auto, using(crate::proofs::Gathering::reads_settled))]
    fn read_short(&mut self, alloc: Global, text: &[u8], manner: Manner) -> Result<(), AllocError>
        requires { self.old.found.refused ≡ None }
        ensures { OnOk result (ReadsLines manner text.now self.old self.new) }
    {
        self.add_piece(alloc, text, manner)?;
        self.take_pieces(alloc)
    }

    /// Reads the lines of a long text by many threads, and then looks for the first refusal, in the order of the lines.
    #[tactic(auto, using(crate::proofs::Gathering::reads_settled))]
    fn read_long<R: Threads + Sync>(
        &mut self,
        rt: &R,
        alloc: Global,
        text: &[u8],
        manner: Manner,
    ) -> Result<(), AllocError>
        requires { self.old.found.refused ≡ None }
        ensures { OnOk result (ReadsLines manner text.now self.old self.new) }
    {
        self.read_beside(rt, alloc, text, manner)?;
        self.settle(alloc)
    }

    /// Reads a piece by this thread.
    #[tactic(auto, using(crate::proofs::Gathering::reads_piece))]
    fn add_piece(&mut self, alloc: Global, text: &[u8], manner: Manner) -> Result<(), AllocError>
        requires { self.old.found.refused ≡ None }
        ensures { OnOk result (ReadsLines manner text.now self.old self.new) }
    {
        self.pieces.push(read_piece(alloc, text, manner))?;
        Ok(())
    }

    /// Reads the lines of a text by many threads, while this one takes what was read before.
    #[tactic(auto, using(crate::proofs::Gathering::reads_pieces))]
    fn read_beside<R: Threads + Sync>(
        &mut self,
        rt: &R,
        alloc: Global,
        text: &[u8],
        manner: Manner,
    ) -> Result<(), AllocError>
        requires { self.old.found.refused ≡ None }
        ensures { OnOk result (ReadsLines manner text.now self.old self.new) }
    {
        let found = mem::replace(&mut self.found, Found::new(alloc));
        let pieces = mem::replace(&mut self.pieces, Vec::new(alloc));
        let (taken, read) = join(
            rt,
            move || -> Result<Found, AllocError>
                ensures { IfOk result (TakesAll found pieces.items) }
            { found.with(pieces) },
            move || -> Result<Vec<Result<Piece, AllocError>>, AllocError>
                ensures { IfOk result (λ pieces. ArePieces manner text.entry.now pieces.items) }
            { read_pieces(rt, alloc, text, manner) },
        );
        self.found = taken?;
        self.pieces = read?;
        Ok(())
    }

    /// Takes what was read where some of it is refused, so that nothing is read behind that.
    #[tactic(auto, using(crate::proofs::Gathering::stays_read))]
    fn settle(&mut self, alloc: Global) -> Result<(), AllocError>
        ensures { OnOk result (StaysRead self.old self.new) }
    {
        if are_clean(self.pieces.as_slice()) {
            return Ok(());
        }
        self.take_pieces(alloc)
    }

    /// Takes what was read, unless a line before it is refused.
    #[tactic(auto, using(crate::proofs::Gathering::stays_read, crate::proofs::Gathering::takes_pieces))]
    fn take_pieces(&mut self, alloc: Global) -> Result<(), AllocError>
        ensures { OnOk result (StaysRead self.old self.new) }
    {
        match self.found.refused {
            Some(_) => Ok(()),
            None => {
                let pieces = mem::replace(&mut self.pieces, Vec::new(alloc));
                self.found.take_all(pieces)
            }
        }
    }

    /// What the lines say with their paths numbered, or the first refusal.
    #[tactic(auto, using(crate::proofs::Gathering::refused_before, crate::proofs::Gathering::read_numbered, crate::proofs::Gathering::read_fault))]
    pub(crate) fn into_numbered(self) -> Result<Numbered, GraphError>
        ensures ok { IfOk result (IsReadNumbered self) }
        ensures err { IfErr result (IsReadFault self) }
    {
        let Gathered { found, pieces } = self;
        match found.refused {
            Some(fault) => Err(fault),
            None => {
                let found = found.with(pieces)?;
                // For the proof: each clause of the answer is met where the answer is known.
                match found.into_numbered() {
                    Ok(numbered) => Ok(numbered),
                    Err(fault) => Err(fault),
                }
            }
        }
    }
}

/// Whether all lines of the pieces were read, and none was refused.
fn are_clean(pieces: &[Result<Piece, AllocError>]) -> bool {
    for read in pieces {
        match read {
            Ok(piece) => {
                if piece.refused.is_some() {
                    return false;
                }
            }
            Err(_) => return false,
        }
    }
    true
}
