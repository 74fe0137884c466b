//! The worked examples of replies, and devices that refuse. Want of memory is a no.

use crate::tests::values::{is_printed, machines_of, plain_need};
use nd_devices::{Fault, TakeError, Told, WriteError};
use nd_hook::{Decision, Reply, decide, decide_in, reply, reply_in, write_reply};
use nd_machines::Machine;
use std::alloc::{AllocError, Global};
use std::io;

/// Whether this is the reply about a plain need on at most one machine, with this load and up or not.
fn is_reply(
    alloc: Global,
    machines: &[Machine],
    machine: (u32, bool),
    loc_free: bool,
    want: Reply,
) -> bool {
    let count = machines.len();
    if count > 1 {
        return false;
    }
    let loads = [machine.0];
    let ups = [machine.1];
    match plain_need(alloc) {
        Ok(need) => {
            let is_so = reply(machines, &loads[..count], &ups[..count], &need, loc_free) == want;
            drop(need);
            is_so
        }
        Err(_) => false,
    }
}

/// Whether a reply, which names a machine of the list if any, is written so.
fn is_written(alloc: Global, machines: &[Machine], told: Reply, text: &[u8]) -> bool {
    if let Reply::Accept(place) = told {
        if place >= machines.len() {
            return false;
        }
    }
    let mut out = Told::new(Vec::new(alloc));
    let is_ok = write_reply(&told, machines, &mut out).is_ok();
    let marked = out.marked();
    let written = out.into_inner();
    let is_so = is_ok && !marked && written.as_slice() == text;
    drop(written);
    is_so
}

/// Whether the reply on the idle machine of a list of at most one is this, and is written so.
fn is_told(alloc: Global, list: &[u8], told: Reply, text: &[u8]) -> bool {
    match machines_of(alloc, list) {
        Ok(machines) => {
            let is_so = is_reply(alloc, &machines, (0, true), false, told)
                && is_written(alloc, &machines, told, text);
            drop(machines);
            is_so
        }
        Err(_) => false,
    }
}

#[test]
fn idle_replies(rt: HostRuntime) {
    let alloc = rt.alloc();
    let permanently = b"# decline-permanently\n";
    assert!(rt; is_told(alloc, b"", Reply::DeclinePermanently, permanently));
    assert!(rt; is_told(alloc, b"m aarch64-linux", Reply::Decline, b"# decline\n"));
    assert!(rt; is_told(alloc, b"m - - 0", Reply::Decline, b"# decline\n"));
    assert!(rt; is_told(alloc, b"m", Reply::Accept(0), b"# accept\nssh://m\n"));
}

/// Whether these are the replies on one machine that is full, or down, and those and the decision at
/// its place and at none.
fn are_replies(alloc: Global, machines: &[Machine]) -> bool {
    machines.len() == 1
        && is_reply(alloc, machines, (1, true), false, Reply::Postpone)
        && is_reply(alloc, machines, (1, true), true, Reply::Decline)
        && is_reply(alloc, machines, (0, false), false, Reply::Decline)
        && reply_in(machines, &[0], &[1], &[true], false) == Reply::Postpone
        && reply_in(machines, &[], &[1], &[true], false) == Reply::Decline
        && decide_in(machines, &[], &[0], &[true], false, false, false) == Decision::NoBuilder
}

/// The same of the machine `m`.
fn are_told(alloc: Global) -> bool {
    match machines_of(alloc, b"m") {
        Ok(machines) => {
            let is_so = are_replies(alloc, &machines);
            drop(machines);
            is_so
        }
        Err(_) => false,
    }
}

/// Whether this is the decision on one machine, with this load and up or not, about a plain need with
/// this preference, and by whether the local machine may build it and is free.
fn is_decision(
    alloc: Global,
    machines: &[Machine],
    machine: (u32, bool),
    prefer_local: bool,
    local: (bool, bool),
    want: Decision,
) -> bool {
    let (load, up) = machine;
    let (loc, loc_free) = local;
    if machines.len() != 1 || (loc_free && !loc) {
        return false;
    }
    match plain_need(alloc) {
        Ok(mut need) => {
            need.prefer_local = prefer_local;
            let is_so = decide(machines, &[load], &[up], &need, loc, loc_free) == want;
            drop(need);
            is_so
        }
        Err(_) => false,
    }
}

/// The same of the machine `m`.
fn is_decided(
    alloc: Global,
    machine: (u32, bool),
    prefer_local: bool,
    local: (bool, bool),
    want: Decision,
) -> bool {
    match machines_of(alloc, b"m") {
        Ok(machines) => {
            let is_so = is_decision(alloc, &machines, machine, prefer_local, local, want);
            drop(machines);
            is_so
        }
        Err(_) => false,
    }
}

#[test]
fn full_machines(rt: HostRuntime) {
    assert!(rt; are_told(rt.alloc()));
    for (machine, prefer_local, local, want) in [
        ((0, true), false, (true, true), Decision::Remote(0)),
        ((1, true), false, (true, true), Decision::Local),
        ((1, true), false, (true, false), Decision::Wait),
        ((0, false), false, (false, false), Decision::NoBuilder),
        ((0, false), false, (true, false), Decision::Wait),
        ((0, true), true, (true, true), Decision::Local),
        ((0, true), true, (true, false), Decision::Wait),
        ((0, true), true, (false, false), Decision::Remote(0)),
    ] {
        assert!(rt; is_decided(rt.alloc(), machine, prefer_local, local, want));
    }
}

/// A writer that takes at most `most` bytes at a call, and after `left` calls refuses.
#[derive(Drop)]
struct Short {
    bytes: Vec<u8>,
    most: usize,
    left: usize,
}

impl io::Write for Short {
    fn write(&mut self, buf: &[u8]) -> io::Result<usize> {
        if self.left == 0 {
            return Err(io::Error::from(AllocError));
        }
        self.left -= 1;
        let taken = buf.len().min(self.most);
        self.bytes.extend_from_slice(&buf[..taken])?;
        Ok(taken)
    }

    fn flush(&mut self) -> io::Result<()> {
        Ok(())
    }
}

/// A reader that gives the byte `x` at each call, and after `left` calls refuses.
#[derive(Drop)]
struct Dripping {
    left: usize,
}

impl io::Read for Dripping {
    fn read(&mut self, buf: &mut [u8]) -> io::Result<usize> {
        if self.left == 0 {
            return Err(io::Error::from(AllocError));
        }
        self.left -= 1;
        if buf.is_empty() {
            return Ok(0);
        }
        buf[0] = b'x';
        Ok(1)
    }
}

/// A writer that tells whether it was flushed, and may refuse that.
#[derive(Drop)]
struct Flushed {
    was_flushed: bool,
    refuses: bool,
}

impl io::Write for Flushed {
    fn write(&mut self, buf: &[u8]) -> io::Result<usize> {
        Ok(buf.len())
    }

    fn flush(&mut self) -> io::Result<()> {
        self.was_flushed = true;
        if self.refuses {
            return Err(io::Error::from(AllocError));
        }
        Ok(())
    }
}

/// Whether a flush is the device's: it is asked, its refusal is answered, and the mark is set then.
fn is_flush_told(refuses: bool) -> bool {
    let mut out = Told::new(Flushed {
        was_flushed: false,
        refuses,
    });
    let answer = out.flush();
    let marked = out.marked();
    answer.is_err() == refuses && marked == refuses && out.into_inner().was_flushed
}

/// A writer that takes at most `most` bytes at a call, and after `left` calls refuses.
fn short_writer(alloc: Global, most: usize, left: usize) -> Told<Short> {
    Told::new(Short {
        bytes: Vec::new(alloc),
        most,
        left,
    })
}

/// Whether the acceptance of the one machine is written whole or refused, and the writer is marked
/// exactly where it is refused, with a part of the text out, from its beginning.
fn is_part_written(machines: &[Machine], mut out: Told<Short>, whole: bool) -> bool {
    if machines.len() != 1 {
        drop(out);
        return false;
    }
    let text = b"# accept\nssh://m\n".as_slice();
    let answer = write_reply(&Reply::Accept(0), machines, &mut out);
    let marked = out.marked();
    let written = out.into_inner();
    let is_so = answer.is_ok() == whole
        && marked == (answer == Err(WriteError::Write))
        && text.starts_with(&written.bytes)
        && (written.bytes.len() == text.len()) == whole;
    drop(written);
    is_so
}

/// The same of the machine `m`.
fn is_short(alloc: Global, most: usize, left: usize, whole: bool) -> bool {
    match machines_of(alloc, b"m") {
        Ok(machines) => {
            let is_so = is_part_written(&machines, short_writer(alloc, most, left), whole);
            drop(machines);
            is_so
        }
        Err(_) => false,
    }
}

/// Whether a writer that takes nothing takes the empty text, and is marked by a text that isn't empty.
fn is_marked_by_more(mut out: Told<Short>) -> bool {
    let empty = out.put(b"");
    let early = out.marked();
    let more = out.put(b"x");
    let is_so = empty == Ok(0) && !early && more == Err(Fault) && out.marked();
    drop(out);
    is_so
}

/// Whether this is read of a reader that refuses after this many calls, which is then marked exactly
/// where that is a refusal.
fn is_dripped(alloc: Global, left: usize, limit: usize, want: Result<usize, TakeError>) -> bool {
    let mut input = Told::new(Dripping { left });
    let count = match input.take_all(alloc, limit) {
        Ok(bytes) => Ok(bytes.len()),
        Err(why) => Err(why),
    };
    count == want && input.marked() == want.is_err()
}

/// Whether the whole of a text is read.
fn is_read(alloc: Global, text: &[u8]) -> bool {
    match Told::new(text).take_all(alloc, 3) {
        Ok(bytes) => {
            let is_so = bytes.as_slice() == text;
            drop(bytes);
            is_so
        }
        Err(_) => false,
    }
}

#[test]
fn refusing_devices(rt: HostRuntime) {
    let alloc = rt.alloc();
    assert!(rt; is_short(alloc, 3, 9, true));
    assert!(rt; is_short(alloc, 3, 4, false));
    assert!(rt; is_short(alloc, 100, 1, false));
    assert!(rt; is_short(alloc, 100, 0, false));
    assert!(rt; is_short(alloc, 0, 9, false));
    assert!(rt; is_marked_by_more(short_writer(alloc, 0, 9)));
    assert!(rt; is_flush_told(false));
    assert!(rt; is_flush_told(true));
    assert!(rt; is_dripped(alloc, 9, 3, Ok(4)));
    assert!(rt; is_dripped(alloc, 9, 8, Ok(9)));
    assert!(rt; is_dripped(alloc, 9, 9, Err(TakeError::Fault)));
    assert!(rt; is_read(alloc, b"abc"));
}

#[test]
fn names(rt: HostRuntime) {
    let alloc = rt.alloc();
    assert!(rt; is_printed(alloc, &Fault, "Fault"));
    assert!(rt; is_printed(alloc, &WriteError::Write, "Write"));
    assert!(rt; is_printed(alloc, &TakeError::Fault, "Fault"));
    assert!(rt; is_printed(alloc, &TakeError::Memory, "Memory"));
}
