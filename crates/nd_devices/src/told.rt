//! A reader or writer that remembers whether it has refused a call.

ghost use Rattle.std.specs.Prelude.{◌≡◌, ℕ, ◌+◌, ◌≤◌, ◌||◌, false, length, is_err, take, vec_len, List, IfOk, OnOk, OnErr, true};
ghost use Rattle.std.specs.Io.KnownBytes.{Appends, Consumes, IsAtEnd, Keeps, WriteAppends, ReadConsumes};
ghost use Rattle.nd_devices.specs.Device.{is_fault_of};
ghost use Rattle.nd_devices.specs.Written.{WritesPart};

use crate::refusals::{Fault, TakeError};
use std::alloc::Global;
use std::io::{Read, Write};
use std::marker::Model;

/// A reader or writer with a mark, which is set exactly by a [`put`](Told::put), a
/// [`take`](Told::take) or a [`flush`](Told::flush) that the device refused.
#[derive(Drop)]
pub struct Told<T> {
    device: T,
    mark: bool,
}

impl<T> Model for Told<T> {
    ghost use Rattle.nd_devices.specs.Watched.{Watched};

    ghost Value = { Watched T };

    ghost view = { λ t. record { device = t.device; is_marked = t.mark } };
}

impl<T> Told<T> {
    /// The device, with no mark.
    pub fn new(device: T) -> Self
        ensures device { result.device ≡ device }
        ensures mark { result.is_marked ≡ false }
    {
        Told {
            device,
            mark: false,
        }
    }

    /// Whether the device has refused a call.
    pub fn marked(&self) -> bool
        ensures { result ≡ self.now.is_marked }
    {
        self.mark
    }

    /// The device again, without its mark.
    pub fn into_inner(self) -> T
        ensures { result ≡ self.device }
    {
        let Told { device, mark: _ } = self;
        device
    }

    /// Sets the mark.
    fn refused(&mut self) -> Fault
        ensures device { self.new.device ≡ self.old.device }
        ensures mark { self.new.is_marked ≡ true }
    {
        self.mark = true;
        Fault
    }
}

impl<W: Write> Told<W> {
    /// Writes some of the text, as much as the device takes at once, and answers how many bytes.
    ///
    /// `Fault`: the device refused the write, or took no byte of a text that has one. The mark is
    /// then set.
    pub fn put(&mut self, text: &[u8]) -> Result<usize, Fault>
        ensures written { WriteAppends (W.contents self.old.device) (W.contents self.new.device) result text.now }
        ensures bound { IfOk result (λ n. n ≤ length text.now) }
        ensures progress { IfOk result (λ n. n ≡ 0 → length text.now ≡ 0) }
        ensures mark { self.new.is_marked ≡ (self.old.is_marked || is_err result) }
    {
        match self.device.write(text) {
            Ok(0) if !text.is_empty() => Err(self.refused()),
            Ok(taken) => Ok(taken),
            Err(_) => Err(self.refused()),
        }
    }

    /// Writes the whole text.
    ///
    /// `Fault`: the device refused a write. A part of the text, from its beginning, may then be
    /// out, and the mark is set.
    #[tactic(auto, using(crate::proofs::Pieces::part_taken))]
    pub fn put_all(&mut self, text: &[u8]) -> Result<(), Fault>
        ensures written { OnOk result (Appends (W.contents self.old.device) (W.contents self.new.device) text.now) }
        ensures partly { OnErr result (WritesPart (W.contents self.old.device) (W.contents self.new.device) text.now) }
        ensures mark { self.new.is_marked ≡ (self.old.is_marked || is_err result) }
    {
        let mut at = 0;
        while at < text.len() {
            let (_, rest) = text.split_at(at);
            at += self.put(rest)?;
        }
        Ok(())
    }

    /// Has the writer pass on what it holds back, as a buffer does.
    ///
    /// `Fault`: the device refused. The mark is then set.
    pub fn flush(&mut self) -> Result<(), Fault>
        ensures kept { Keeps (W.contents self.old.device) (W.contents self.new.device) }
        ensures mark { self.new.is_marked ≡ (self.old.is_marked || is_err result) }
    {
        match self.device.flush() {
            Ok(()) => Ok(()),
            Err(_) => Err(self.refused()),
        }
    }
}

impl<R: Read> Told<R> {
    /// Reads into the front of the room, and answers how many bytes. It answers 0 only at the end
    /// of the input, or where there is no room.
    ///
    /// `Fault`: the device refused the read. The mark is then set.
    pub fn take(&mut self, room: &mut [u8]) -> Result<usize, Fault>
        ensures read { ReadConsumes (R.remaining self.old.device) (R.remaining self.new.device) result room.new }
        ensures bound { IfOk result (λ n. n ≤ length room.new) }
        ensures mark { self.new.is_marked ≡ (self.old.is_marked || is_err result) }
    {
        match self.device.read(room) {
            Ok(taken) => Ok(taken),
            Err(_) => Err(self.refused()),
        }
    }

    /// Reads the input to its end, but at most one byte more than `limit`, so that a caller sees
    /// by the length whether the input is longer. How many reads
    /// that takes isn't stated.
    ///
    /// `Fault`: the device refused a read, and the mark is set. `Memory`: there was no room for
    /// the bytes.
    pub fn take_all(&mut self, alloc: Global, limit: usize) -> Result<Vec<u8>, TakeError>
        ensures read { IfOk result (λ v. Consumes (R.remaining self.old.device) (R.remaining self.new.device) v.items) }
        ensures bound { IfOk result (λ v. vec_len v ≤ limit + 1) }
        ensures whole { IfOk result (λ v. vec_len v ≤ limit → IsAtEnd (R.remaining self.new.device)) }
        ensures partly { OnErr result ((bytes : List ℕ) × (length bytes ≤ limit + 1)
            × Consumes (R.remaining self.old.device) (R.remaining self.new.device) bytes) }
        ensures mark { self.new.is_marked ≡ (self.old.is_marked || is_fault_of result) }
    {
        let mut bytes = Vec::new(alloc);
        let mut room = [0; ROOM];
        while bytes.len() <= limit {
            let most = room.len().min((limit - bytes.len()).saturating_add(1));
            let taken = self.take(&mut room[..most])?;
            if taken == 0 {
                return Ok(bytes);
            }
            bytes.extend_from_slice(&room[..taken])?;
        }
        Ok(bytes)
    }
}

/// How many bytes one read asks for at most.
const ROOM: usize = 65_536;
