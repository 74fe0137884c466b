//! What reads a bundle whose text comes in blocks.

ghost use Rattle.std.specs.Prelude.{◌≡◌, ◌++◌};

use nd_bundle::{BundleReader, NeedsReader};
use std::alloc::AllocError;
use std::thread::Threads;

/// A reader of a bundle whose text comes in blocks, whatever it answers at the end.
pub(crate) trait PartsReader: Send {
    ghost use Rattle.std.specs.Thread.{IsSync};
    ghost use Rattle.nd_bundle.specs.Reading.{Reading};

    /// Whether paths are checked, and the text so far.
    ghost reading: { Self → Reading };

    /// Reads on, as [`BundleReader::feed`]: the block stands behind what was read, whether this is refused or not.
    ///
    /// Refuses where an allocation is refused.
    fn feed<T: Threads + Sync>(&mut self, rt: &T, block: &[u8]) -> Result<(), AllocError>
        requires { IsSync T.row }
        ensures check { (reading self.new).check ≡ (reading self.old).check }
        ensures text { (reading self.new).text ≡ (reading self.old).text ++ block.now };
}

impl PartsReader for BundleReader {
    ghost reading = { λ reader. reader };

    fn feed<T: Threads + Sync>(&mut self, rt: &T, block: &[u8]) -> Result<(), AllocError> {
        BundleReader::feed(self, rt, block)
    }
}

impl PartsReader for NeedsReader {
    ghost reading = { λ reader. reader };

    fn feed<T: Threads + Sync>(&mut self, rt: &T, block: &[u8]) -> Result<(), AllocError> {
        NeedsReader::feed(self, rt, block)
    }
}
