//! Reading the lines of a bundle, one after another or in many threads.

ghost use Rattle.std.specs.Prelude.{map, IfErr, IfOk};
ghost use Rattle.std.specs.List.{AllZip};
ghost use Rattle.nd_bundle.specs.Bundles.{IsFirstFault};
ghost use Rattle.nd_bundle.specs.Said.{SayColumns};
ghost use Rattle.nd_bundle.specs.Lines.{lines};
ghost use Rattle.nd_bundle.specs.Parts.{ArePieces};
ghost use Rattle.nd_bundle.specs.Pieces.{IsReadText, IsReadTo};

use crate::cutting::{cut_lines, cut_pieces};
use crate::manner::Manner;
use crate::piece::Piece;
use nd_line::read_line;
use nd_links::{Columns, GraphError, Pool};
use rayon::current_num_threads;
use rayon::prelude::*;
use std::alloc::{AllocError, Global};
use std::thread::Threads;

/// The least length of a piece for a thread: one thread has read a shorter one before another has started.
pub(crate) const LONG: usize = 65_536;

/// Whether the text hasn't enough for two threads.
pub(crate) fn is_short(text: &[u8]) -> bool {
    text.len() < 2 * LONG
}

/// What the lines of the text say, in order, or the refusal of the first that has one; all read by this thread.
/// With `manner.check` each line's path has to be the text path of its derivation.
#[tactic(auto, using(crate::proofs::Pieced::says_fault))]
pub(crate) fn read_lines(alloc: Global, text: &[u8], manner: Manner) -> Result<Columns, GraphError>
    ensures ok { IfOk result (SayColumns manner (lines text.now)) }
    ensures err { IfErr result (IsFirstFault manner.check text.now) }
{
    let Piece { columns, refused } = read_piece(alloc, text, manner)?;
    match refused {
        None => Ok(columns),
        Some(fault) => Err(GraphError::of_line(fault, columns.details.next_line())),
    }
}

/// Has the heap of this thread grow by so many bytes at once, which it would do a page at a time, as the paths and
/// lists of a piece come: each page would be a call of the system under the lock of the whole program's memory.
/// Nothing is kept, and nothing is lost where it is refused.
fn grow_heap(alloc: Global, size: usize) {
    let room: Result<Vec<u8>, AllocError> = Vec::with_capacity(alloc, size);
    drop(room);
}

/// What the lines of a piece of a text say, up to the first that is refused.
#[tactic(auto, using(crate::proofs::Said::says_none, crate::proofs::Pieced::said_all))]
pub(crate) fn read_piece(alloc: Global, text: &[u8], manner: Manner) -> Result<Piece, AllocError>
    ensures { IfOk result (λ piece. IsReadTo manner (lines text.now) piece.columns piece.refused) }
{
    grow_heap(alloc, text.len().saturating_add(text.len() / 4));
    let lines = cut_lines(alloc, text)?;
    let mut columns = Columns::with_capacity(alloc, lines.len(), manner.whole)?;
    let mut pool = Pool::new(alloc, lines.len());
    for line in &lines {
        match read_line(alloc, line, manner.check) {
            Ok(node) => columns.push(alloc, &mut pool, node, manner.whole)?,
            Err(fault) => {
                return Ok(Piece {
                    columns,
                    refused: Some(fault),
                });
            }
        }
    }
    Ok(Piece {
        columns,
        refused: None,
    })
}

/// What is read of pieces of the text, which threads read, two for each processor and of about the same length.
#[tactic(auto, using(crate::proofs::Parted::are_pieces))]
pub(crate) fn read_pieces(
    rt: &(impl Threads + Sync),
    alloc: Global,
    text: &[u8],
    manner: Manner,
) -> Result<Vec<Result<Piece, AllocError>>, AllocError>
    ensures { IfOk result (λ pieces. ArePieces manner text.now pieces.items) }
{
    let count = current_num_threads(rt)
        .saturating_mul(2)
        .min(text.len() / LONG)
        .max(1);
    let texts = cut_pieces(alloc, text, text.len() / count + 1)?;
    read_each(rt, alloc, texts.as_slice(), manner)
}

/// What the lines of each of these texts say, in order, each read by a thread of its own.
fn read_each(
    rt: &(impl Threads + Sync),
    alloc: Global,
    texts: &[&[u8]],
    manner: Manner,
) -> Result<Vec<Result<Piece, AllocError>>, AllocError>
    ensures { IfOk result (λ read. AllZip (IsReadText manner) (map (λ text. text.now) texts.now) read.items) }
{
    texts
        .par_iter()
        .with_min_len(1)
        .map(
            |text: &&[u8]| -> Result<Piece, AllocError>
                ensures { IsReadText manner text.now.now result }
            { read_piece(alloc, text, manner) },
        )
        .collect(rt, alloc)
}
