//! The journal of a session or of a run in a file.

ghost use Rattle.std.specs.Prelude.{◌≡◌};
ghost use Rattle.nix_dispatch.specs.Statuses.{fault_in};

use crate::endings::Ending;
use nd_bytes::ByteString;
use nd_cli::CliFault;
use nd_devices::Told;
use nd_explain::{Failure, Heard, Source};
use nd_keeping::Journal;
use nd_serve_command::{JournalFailure, ServeFault, journal_bytes};
use std::alloc::Global;
use std::fs::{self, File, OpenFile, OpenOptions};
use std::io::{self, ErrorKind, Write};
use std::path::Path;
use std::rt::Files;

/// Where the entries of a session or of a run are kept.
#[derive(Drop)]
pub(crate) enum Kept<'a, F> {
    /// Nowhere.
    Nowhere,
    /// In the file of this name, which is appended to. What the system said when it last refused a call is
    /// remembered.
    InFile {
        name: &'a str,
        file: F,
        refusal: Option<io::Error>,
    },
}

/// A journal as it is found: nothing of it is made or changed yet.
#[derive(Drop)]
pub(crate) struct Found<'a> {
    /// Its name, where there is to be one.
    pub(crate) name: Option<&'a str>,
    /// The file of this name, where it is there. It is locked until the program ends.
    pub(crate) file: Option<File>,
    /// The bytes that it holds, to its end or to one byte past the limit of a journal.
    pub(crate) bytes: ByteString,
}

impl<'a, F: OpenFile + Drop> Kept<'a, F> {
    /// Cuts the file to this length, and makes that durable.
    pub(crate) fn cut(&mut self, length: usize) -> Result<(), ()> {
        let Kept::InFile { file, refusal, .. } = self else {
            return Ok(());
        };
        let answer = match file.set_len(length as u64) {
            Ok(()) => file.sync_data(),
            Err(error) => Err(error),
        };
        match answer {
            Ok(()) => Ok(()),
            Err(error) => {
                *refusal = Some(error);
                Err(())
            }
        }
    }

    /// What is known of a fault of the journal, with what the system last said of its file.
    pub(crate) fn into_failure(self, fault: ServeFault) -> JournalFailure<'a>
        ensures { result.fault ≡ fault }
    {
        match self {
            Kept::Nowhere => JournalFailure::of_file(fault, "", None),
            Kept::InFile { name, refusal, .. } => JournalFailure::of_file(fault, name, refusal),
        }
    }
}

impl<F: Write + OpenFile> Journal for Kept<'_, F> {
    ghost use Rattle.std.specs.Prelude.{None, OnErr, OnOk};
    ghost use Rattle.nd_keeping.specs.Stored.{HoldsPart, IsAppended};
    ghost use Rattle.nix_dispatch.specs.Files.{KeepsBytes};

    ghost stored = { λ _. None };

    fn append(&mut self, bytes: &[u8]) -> io::Result<()>
        ensures stored { OnOk result (IsAppended None None bytes.now) }
        ensures refused { OnErr result (HoldsPart None None bytes.now) }
        ensures written { OnOk result (KeepsBytes F.contents self.old self.new bytes.now) }
    {
        let Kept::InFile { file, refusal, .. } = self else {
            return Ok(());
        };
        match file.write_all(bytes) {
            Ok(()) => Ok(()),
            Err(error) => {
                *refusal = Some(error);
                Err(error)
            }
        }
    }

    fn sync(&mut self) -> io::Result<()> {
        let Kept::InFile { file, refusal, .. } = self else {
            return Ok(());
        };
        match file.sync_data() {
            Ok(()) => Ok(()),
            Err(error) => {
                *refusal = Some(error);
                Err(error)
            }
        }
    }
}

/// Looks for the journal of this name, and reads what it holds. Without a name there is none, and it holds
/// nothing, and so does one whose file isn't there.
///
/// `InUse`: another program has a lock on its file. `Memory`. `JournalFailed`: its file can't be opened, locked or
/// read.
pub(crate) fn find_journal<'a, R: Files<File = File>>(
    rt: &R,
    alloc: Global,
    name: Option<&'a str>,
) -> Result<Found<'a>, Ending<'a>> {
    let Some(name) = name else {
        return Ok(Found {
            name: None,
            file: None,
            bytes: ByteString::new(Vec::new(alloc)),
        });
    };
    match OpenOptions::new().read(true).append(true).open(rt, name) {
        Ok(file) => locked(alloc, name, file),
        Err(error) if error.kind() == ErrorKind::NotFound => Ok(Found {
            name: Some(name),
            file: None,
            bytes: ByteString::new(Vec::new(alloc)),
        }),
        Err(error) => Err(failed(name, error)),
    }
}

/// The journal of this name in this file, which is locked and read.
fn locked<'a>(alloc: Global, name: &'a str, file: File) -> Result<Found<'a>, Ending<'a>> {
    if let Err(error) = file.try_lock() {
        drop(file);
        return Err(taken(name, io::Error::from(error)));
    }
    match held(alloc, name, &file) {
        Ok(bytes) => Ok(Found {
            name: Some(name),
            file: Some(file),
            bytes,
        }),
        Err(ending) => {
            drop(file);
            Err(ending)
        }
    }
}

/// What the file of this name holds, to its end or to one byte past the limit of a journal.
fn held<'a>(alloc: Global, name: &'a str, file: &File) -> Result<ByteString, Ending<'a>> {
    let mut input = Told::new(Heard::new(file));
    let answer = journal_bytes(alloc, &mut input);
    let heard = input.into_inner();
    let refusal = heard.refusal();
    drop(heard);
    match answer {
        Ok(bytes) => Ok(bytes),
        Err(fault) => Err(unread(name, fault, refusal)),
    }
}

/// The journal that was found so, once it is ready to be appended to: its file is made where it isn't there, and
/// else cut to this many bytes. What stays of it and that its folder has it are durable then.
///
/// `InUse`: another program has made the file meanwhile. `Memory`. `JournalFailed`: the file can't be made, cut or
/// made durable.
pub(crate) fn ready_journal<'a, R: Files<File = File>>(
    rt: &R,
    found: Found<'a>,
    length: usize,
) -> Result<Kept<'a, File>, Ending<'a>> {
    let Found { name, file, bytes } = found;
    let held = bytes.len();
    drop(bytes);
    let mut journal = begin_journal(rt, name, file)?;
    if held > 0 && journal.cut(length).is_err() {
        return Err(Ending::Journal(journal.into_failure(ServeFault::JournalFailed)));
    }
    Ok(journal)
}

/// The journal of this name in this file, which is made where it isn't there. That its folder has it is durable
/// then.
fn begin_journal<'a, R: Files<File = File>>(
    rt: &R,
    name: Option<&'a str>,
    file: Option<File>,
) -> Result<Kept<'a, File>, Ending<'a>> {
    let Some(name) = name else {
        drop(file);
        return Ok(Kept::Nowhere);
    };
    let answer = match file {
        Some(file) => Ok(file),
        None => make_journal(rt, name),
    };
    match answer {
        Ok(file) => in_folder(rt, name, file),
        Err(error) => Err(taken(name, error)),
    }
}

/// The journal in this file, once it is durable that the file's folder has it.
fn in_folder<'a, R: Files<File = File>>(
    rt: &R,
    name: &'a str,
    file: File,
) -> Result<Kept<'a, File>, Ending<'a>> {
    match sync_folder(rt, name) {
        Ok(()) => Ok(Kept::InFile {
            name,
            file,
            refusal: None,
        }),
        Err(error) => {
            drop(file);
            Err(failed(name, error))
        }
    }
}

/// What the journal of this name holds, which may be another program's: it isn't locked, and has to be there.
///
/// `Memory`. `JournalFailed`: its file can't be opened or read.
pub(crate) fn read_aside<'a, R: Files<File = File>>(
    rt: &R,
    alloc: Global,
    name: &'a str,
) -> Result<ByteString, Ending<'a>> {
    match fs::open(rt, name) {
        Ok(file) => {
            let answer = held(alloc, name, &file);
            drop(file);
            answer
        }
        Err(error) => Err(failed(name, error)),
    }
}

/// How a command ends whose journal can't be locked or made: a lock that is another program's, and a file that was
/// made since it was looked for, are told as being in use.
fn taken(name: &str, error: io::Error) -> Ending<'_> {
    match error.kind() {
        ErrorKind::WouldBlock | ErrorKind::AlreadyExists => {
            unread(name, ServeFault::InUse, Some(error))
        }
        _ => failed(name, error),
    }
}

/// How a command ends to whose journal's file the system said this: want of memory is told as that of every input.
fn failed(name: &str, error: io::Error) -> Ending<'_> {
    let fault = match error.kind() {
        ErrorKind::OutOfMemory => ServeFault::Cli(CliFault::Memory),
        _ => ServeFault::JournalFailed,
    };
    unread(name, fault, Some(error))
}

/// How a command ends by this fault over the journal of this name, with what the system said of it.
fn unread(name: &str, fault: ServeFault, system: Option<io::Error>) -> Ending<'_>
    ensures { fault_in result ≡ fault }
{
    match fault {
        ServeFault::Cli(fault) => {
            let source = Source::File {
                option: "journal",
                name,
            };
            Ending::Common(Failure::at(fault, source, system))
        }
        fault => Ending::Journal(JournalFailure::of_file(fault, name, system)),
    }
}

/// Makes the file, which nobody else may have made meanwhile, and locks it.
fn make_journal<R: Files<File = File>>(rt: &R, name: &str) -> io::Result<File> {
    let file = OpenOptions::new()
        .append(true)
        .create_new(true)
        .open(rt, name)?;
    match file.try_lock() {
        Ok(()) => Ok(file),
        Err(error) => {
            drop(file);
            Err(io::Error::from(error))
        }
    }
}

/// Makes durable which files the folder of this file has.
fn sync_folder<R: Files>(rt: &R, name: &str) -> io::Result<()> {
    let folder = match Path::new(name).parent() {
        Some(folder) if !folder.as_str().is_empty() => folder.as_str(),
        _ => ".",
    };
    fs::open(rt, folder)?.sync_all()
}
