//! A driver of a session: what it hears, and what it asks for next.

use crate::tests::outputs::{Grants, MemoryOutput};
use crate::tests::texts::{leased_in, ready_count};
use nd_bytes::ByteString;
use nd_desk::{Desk, DeskFault};
use nd_serve_command::Devices;
use nd_test_fixtures::journals::MemoryJournal;
use std::alloc::{AllocError, Global};

/// A command of a driver.
#[derive(Clone, Copy)]
enum Step {
    /// What is there to do for a lease?
    Job(u32),
    /// It is begun.
    Start(u32),
    /// It is built.
    Built(u32),
    /// How does all stand?
    Report,
    /// Nothing more.
    End,
}

/// What a driver has before it. It takes up each derivation that has a lease, by asking for its job and starting
/// it; only where there is none left it says that the first one of those that run is built. Once nothing runs it
/// asks for the report, and that was all.
#[derive(Drop)]
struct Plan {
    /// The derivations that have a lease and aren't taken up yet.
    chosen: Vec<u32>,
    /// The one whose job was asked for.
    asked: Option<u32>,
    /// Those that run.
    running: Vec<u32>,
    /// How many have run at once.
    most: usize,
    /// Whether leases from before are to be asked for.
    resumes: bool,
    /// Whether the last report was asked for.
    reported: bool,
}

impl Plan {
    /// Nothing was heard yet.
    fn new(alloc: Global, resumes: bool) -> Self {
        Plan {
            chosen: Vec::new(alloc),
            asked: None,
            running: Vec::new(alloc),
            most: 0,
            resumes,
            reported: false,
        }
    }

    /// Notes the derivations that have a lease by this answer.
    fn note(&mut self, answer: &[u8]) -> Result<(), AllocError> {
        for line in answer.split(|byte| *byte == b'\n') {
            if let Some(drv) = leased_in(line) {
                self.chosen.push(drv)?;
            }
        }
        Ok(())
    }

    /// What comes next.
    fn next(&mut self) -> Result<Step, AllocError> {
        if self.resumes {
            // The report names all leases, those of the opening too.
            self.resumes = false;
            self.chosen.clear();
            return Ok(Step::Report);
        }
        if let Some(drv) = self.asked {
            self.asked = None;
            self.running.push(drv)?;
            self.most = self.most.max(self.running.len());
            return Ok(Step::Start(drv));
        }
        if let Some(drv) = take_first(&mut self.chosen) {
            self.asked = Some(drv);
            return Ok(Step::Job(drv));
        }
        if let Some(drv) = take_first(&mut self.running) {
            return Ok(Step::Built(drv));
        }
        if self.reported {
            return Ok(Step::End);
        }
        self.reported = true;
        Ok(Step::Report)
    }
}

/// Takes the first number of a list.
fn take_first(list: &mut Vec<u32>) -> Option<u32> {
    if list.is_empty() {
        None
    } else {
        Some(list.remove(0))
    }
}

/// The line of a command, where there is one.
fn line_of(alloc: Global, step: Step) -> Result<Option<ByteString>, AllocError> {
    let line = match step {
        Step::Job(drv) => format!(in alloc; "job {drv}")?,
        Step::Start(drv) => format!(in alloc; "start {drv}")?,
        Step::Built(drv) => format!(in alloc; "built {drv}")?,
        Step::Report => format!(in alloc; "report")?,
        Step::End => return Ok(None),
    };
    Ok(Some(ByteString::from_slice(alloc, line.as_bytes())?))
}

/// A driver before the devices of a session: it reads what came out of them, and is their input itself.
#[derive(Drop)]
pub struct Driver {
    /// The devices. They have no input.
    pub devices: Devices<&'static [u8], MemoryOutput, MemoryJournal>,
    /// Whether a line was read before the answer to the line before it was out, to its end and alone.
    pub early: bool,
    read: usize,
    left: usize,
    plan: Plan,
}

impl Driver {
    /// A driver over this journal, which goes on from leases from before or not, and ends after so many commands.
    pub fn new(alloc: Global, journal: MemoryJournal, resumes: bool, commands: usize) -> Self {
        Driver {
            devices: Devices {
                input: b"".as_slice(),
                output: MemoryOutput::granting(alloc, Grants::ALL),
                journal,
            },
            early: false,
            read: 0,
            left: commands,
            plan: Plan::new(alloc, resumes),
        }
    }

    /// How many derivations have run at once.
    pub fn most(&self) -> usize {
        self.plan.most
    }

    /// Reads what came out since it last did.
    fn take_answer(&mut self) -> Result<(), AllocError> {
        let out = self.devices.output.out.as_slice();
        let (_, answer) = out.split_at(self.read.min(out.len()));
        if ready_count(answer) != 1 || !answer.ends_with(b"ready\n") {
            self.early = true;
        }
        self.read = out.len();
        self.plan.note(answer)
    }

    /// The next command, behind the answer to the one before.
    fn next_line(&mut self, alloc: Global) -> Result<Option<ByteString>, AllocError> {
        self.take_answer()?;
        if self.left == 0 {
            return Ok(None);
        }
        self.left -= 1;
        let step = self.plan.next()?;
        line_of(alloc, step)
    }
}

impl Desk for Driver {
    ghost use Rattle.std.specs.Prelude.{None};
    ghost use Rattle.nd_desk.specs.Notes.{ends_alone};

    ghost seen = { λ _. ends_alone None None };

    fn hear(&mut self, alloc: Global) -> Result<Option<ByteString>, DeskFault> {
        match self.next_line(alloc) {
            Ok(line) => Ok(line),
            Err(AllocError) => Err(DeskFault::Memory),
        }
    }

    fn append(&mut self, bytes: &[u8]) -> Result<(), DeskFault> {
        self.devices.append(bytes)
    }

    fn sync(&mut self) -> Result<(), DeskFault> {
        self.devices.sync()
    }

    fn answer(&mut self, bytes: &[u8]) -> Result<(), DeskFault> {
        self.devices.answer(bytes)
    }
}
