//! The way to an agent: a writer of calls and a reader of answers.

ghost use Rattle.std.specs.Prelude.{◌≡◌, ◌||◌, is_err, OnOk, OnErr};
ghost use Rattle.std.specs.Io.KnownBytes.{Appends};
ghost use Rattle.nd_devices.specs.Written.{WritesPart};
ghost use Rattle.nd_agents.specs.Wires.{wired, IsAsked, IsBuildAsked};

use crate::answer_text::read_answer;
use crate::hearing::{Unheard, hear_line, hear_word};
use nd_devices::{Fault, Told};
use nd_script::LineError;
use nd_transports::Answer;
use std::alloc::Global;
use std::io::{Read, Write};
use std::marker::Model;

/// A reader of answers and a writer of calls, and whether the agent behind them is gone. It is from the first
/// call on that a device refuses or that isn't answered as it should be; then nothing more is written or read.
#[derive(Drop)]
pub(crate) struct Wire<R, W> {
    answers: Told<R>,
    calls: Told<W>,
    gone: bool,
}

impl<R, W> Model for Wire<R, W> {
    ghost use Rattle.nd_agents.specs.Wires.{Wired};

    ghost Value = { Wired R W };

    ghost view = { λ w. record { answers = w.answers; calls = w.calls; is_gone = w.gone } };
}

impl<R, W> Wire<R, W> {
    /// The way to an agent that is there.
    pub(crate) fn new(answers: R, calls: W) -> Self
        ensures { result ≡ wired answers calls }
    {
        Wire {
            answers: Told::new(answers),
            calls: Told::new(calls),
            gone: false,
        }
    }

    /// Whether the agent is gone.
    pub(crate) fn is_gone(&self) -> bool
        ensures { result ≡ self.now.is_gone }
    {
        self.gone
    }
}

/// Writes the line of a call, and has the writer pass it on.
///
/// `Fault`: the writer refused, and is marked. A part of the line, from its beginning, may be out.
#[tactic(auto, using(nd_devices::proofs::Pieces::flushes))]
fn send<W: Write>(calls: &mut Told<W>, call: &[u8]) -> Result<(), Fault>
    ensures written { OnOk result (Appends (W.contents calls.old.device) (W.contents calls.new.device) call.now) }
    ensures partly { OnErr result (WritesPart (W.contents calls.old.device) (W.contents calls.new.device) call.now) }
    ensures mark { calls.new.is_marked ≡ (calls.old.is_marked || is_err result) }
{
    match calls.put_all(call) {
        Ok(()) => calls.flush(),
        Err(fault) => Err(fault),
    }
}

impl<R: Read, W: Write> Wire<R, W> {
    /// Calls with this line, and answers the yes or no that is read. It takes no memory.
    #[tactic(auto, using(crate::proofs::Asking::asks))]
    pub(crate) fn ask(&mut self, call: &[u8]) -> bool
        ensures { IsAsked R.remaining W.contents self.old self.new call.now result }
    {
        if self.gone {
            return false;
        }
        match send(&mut self.calls, call) {
            Ok(()) => {}
            Err(_) => {
                self.gone = true;
                return false;
            }
        }
        match hear_word(&mut self.answers) {
            Some(answered) => answered,
            None => {
                self.gone = true;
                false
            }
        }
    }

    /// Calls for a build of so many outputs with this line, and answers what the line that is read says, or that
    /// there was no memory for it. Where there was none for the line itself the agent is gone: the rest of the
    /// line would be taken for the answer to the next call.
    #[tactic(auto, using(crate::proofs::Asking::builds))]
    pub(crate) fn ask_build(&mut self, alloc: Global, call: &[u8], outputs: usize) -> Answer
        ensures { IsBuildAsked R.remaining W.contents outputs self.old self.new call.now result }
    {
        if self.gone {
            return Answer::Lost;
        }
        match send(&mut self.calls, call) {
            Ok(()) => {}
            Err(_) => {
                self.gone = true;
                return Answer::Lost;
            }
        }
        let line = match hear_line(alloc, &mut self.answers) {
            Ok(line) => line,
            Err(Unheard::NoLine) => {
                self.gone = true;
                return Answer::Lost;
            }
            Err(Unheard::Refused) => {
                self.gone = true;
                return Answer::Lost;
            }
            Err(Unheard::Memory) => {
                self.gone = true;
                return Answer::Memory;
            }
        };
        match read_answer(alloc, line.as_slice(), outputs) {
            Ok(answer) => answer,
            Err(LineError::Bad) => {
                self.gone = true;
                Answer::Lost
            }
            Err(LineError::Memory) => Answer::Memory,
        }
    }
}
