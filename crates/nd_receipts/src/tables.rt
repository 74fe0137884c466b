//! What is known while the entries of a run are gone through.

ghost use Rattle.std.specs.Prelude.{◌≡◌, IfOk, length, replicate};
ghost use Rattle.nd_receipts.specs.Walks.{AreUnknown};

use std::alloc::{AllocError, Global};

/// For each derivation the worker on whose place it was leased last, and for each worker how many of its
/// receipts were met. It is made before the run, so that going through the entries takes no memory.
#[derive(Drop, Debug)]
pub struct Tables {
    pub(crate) choices: Vec<usize>,
    pub(crate) met: Vec<usize>,
}

impl Tables {
    /// Tables for so many derivations and workers, with no lease and no receipt met.
    #[tactic(auto, using(crate::proofs::Crossings::unknown))]
    pub fn new(alloc: Global, drvs: usize, workers: usize) -> Result<Tables, AllocError>
        ensures choices { IfOk result (λ t. AreUnknown workers t.choices.items) }
        ensures sized { IfOk result (λ t. length t.choices.items ≡ drvs) }
        ensures met { IfOk result (λ t. t.met.items ≡ replicate workers 0) }
    {
        Ok(Tables {
            choices: vec![in alloc; workers; drvs]?,
            met: vec![in alloc; 0usize; workers]?,
        })
    }
}
