//! A page that gathers the pieces of a text before they go to a writer.

ghost use Rattle.std.specs.Prelude.{◌≡◌, ◌+◌, ◌≤◌, ◌++◌, ◌||◌, [], length, is_err, OnOk, OnErr};
ghost use Rattle.std.specs.Io.KnownBytes.{Appends};
ghost use Rattle.nd_devices.specs.Written.{WritesPart};
ghost use Rattle.nd_devices.specs.Sending.{IsPut};

use crate::refusals::Fault;
use crate::told::Told;
use std::io;
use std::marker::Model;

/// How many bytes a page holds.
const SIZE: usize = 4096;

/// The pieces of a text that were not yet handed to a writer, at most 4,096 bytes. It takes no
/// memory. Contracts see the list of these bytes.
#[derive(Drop)]
pub struct Page {
    bytes: [u8; SIZE],
    used: usize,
}

impl Model for Page {
    ghost use Rattle.std.specs.Prelude.{ℕ, ◌≤◌, List, take};

    ghost Value = { List ℕ };

    ghost view = { λ p. take p.used p.bytes };

    ghost invariant = { λ p. p.used ≤ 4096 };
}

impl Page {
    /// The empty page.
    pub fn new() -> Page
        ensures { result ≡ [] }
    {
        Page {
            bytes: [0; SIZE],
            used: 0,
        }
    }

    /// Puts a piece behind the bytes that are held. Where it doesn't fit, the page goes to the writer
    /// and then the piece by itself.
    ///
    /// `Fault`: the writer refused. Its mark is then set.
    #[tactic(auto, using(crate::proofs::Sent::pages))]
    pub fn put<W: io::Write>(&mut self, piece: &[u8], out: &mut Told<W>) -> Result<(), Fault>
        ensures { IsPut W.contents out.old self.old out.new self.new piece.now result }
    {
        if piece.len() <= self.room() {
            self.hold(piece);
            return Ok(());
        }
        self.send(out)?;
        out.put_all(piece)
    }

    /// How many more bytes the page can hold.
    fn room(&self) -> usize
        ensures { length self.now + result ≡ 4096 }
    {
        SIZE - self.used
    }

    /// Puts a piece behind the bytes that are held.
    fn hold(&mut self, piece: &[u8])
        requires { length self.old + length piece.now ≤ 4096 }
        ensures { self.new ≡ self.old ++ piece.now }
    {
        let end = self.used + piece.len();
        self.bytes[self.used..end].copy_from_slice(piece);
        self.used = end;
    }

    /// Hands what is held to the writer. The page is empty then.
    ///
    /// `Fault`: the writer refused. Its mark is then set, and the page holds what it held.
    pub fn send<W: io::Write>(&mut self, out: &mut Told<W>) -> Result<(), Fault>
        ensures written { OnOk result (Appends (W.contents out.old.device) (W.contents out.new.device) self.old) }
        ensures partly { OnErr result (WritesPart (W.contents out.old.device) (W.contents out.new.device) self.old) }
        ensures empty { OnOk result (self.new ≡ []) }
        ensures kept { OnErr result (self.new ≡ self.old) }
        ensures mark { out.new.is_marked ≡ (out.old.is_marked || is_err result) }
    {
        let (held, _) = self.bytes.split_at(self.used);
        out.put_all(held)?;
        self.used = 0;
        Ok(())
    }
}
