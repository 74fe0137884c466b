//! An agent as a transport.

ghost use Rattle.std.specs.Prelude.{◌≡◌, ℕ, List, IfOk, OnOk, OnErr};
ghost use Rattle.nd_transports.specs.Calls.{prepared, calls_of, IsIdleAgain, connected, copied, Reports};
ghost use Rattle.nd_agents.specs.CallTexts.{connect_line, copy_line};
ghost use Rattle.nd_agents.specs.Wires.{IsAsked};
ghost use Rattle.nd_agents.specs.Agents.{fresh, readied, AgentBuilds};

use crate::call_text::{CONNECT_LINE, build_line, copy_line};
use crate::wire::Wire;
use nd_closure::Refs;
use nd_keeping::Kept;
use nd_ledger::Job;
use nd_transports::{Call, CallLog, Ended, Phase, Transport};
use std::alloc::{AllocError, Global};
use std::io::{Read, Write};
use std::marker::Model;

/// A transport over a writer and a reader: whoever is behind them serves the machine. Each call is one line
/// that is written, and its answer one line that is read:
///
/// | Call | Answer |
/// |---|---|
/// | `connect` | `yes` or `no` |
/// | `copy PATH ..`, the paths that the machine lacks | `yes` or `no` |
/// | `build DRV OUT ..`, the paths of the derivation and of its outputs by name | as [`read_answer`](crate::read_answer) takes it |
///
/// Where a device refuses, where an answer is none of these or has more than 16,777,216 bytes, where a build
/// is answered with another number of lists than it has outputs, and at the end of the answers, the call is
/// answered no, and a build is lost; the agent counts as gone then. Of an agent that is gone each later
/// connect is answered no and each later build is lost, with nothing written or read.
///
/// A build for whose answer there is no memory ends as `Memory`, and never as lost. Where the line was read to
/// its end (it begins with `built` then) the agent is there, and the next line answers the next call; where
/// there was no memory for the line itself the agent is gone, since what is left of the line would be taken for
/// the answer to the next call. So a line that is an answer comes to that answer or to `Memory`, and one that is
/// none to a lost build or to `Memory` ([`laws`](crate::laws)).
///
/// The lines of a job's calls are made when it is prepared, so that its copy takes no memory. The form is
/// this project's own.
#[derive(Drop)]
pub struct Agent<R, W> {
    alloc: Global,
    log: CallLog,
    /// Whether the lines are those of the job that was prepared last. Where they aren't, the agent is idle.
    ready: bool,
    copy_call: Vec<u8>,
    build_call: Vec<u8>,
    outputs: usize,
    wire: Wire<R, W>,
}

impl<R, W> Model for Agent<R, W> {
    ghost use Rattle.nd_agents.specs.Agents.{Agency, standing, IsFitted};

    ghost Value = { Agency R W };

    ghost view = { λ a. record { state = standing a.ready a.log; build_call = a.build_call.items; outputs = a.outputs; wire = a.wire } };

    ghost invariant = { λ a. IsFitted a.ready a.log a.copy_call.items };
}

impl<R, W> Agent<R, W> {
    /// An agent that answers on this reader what is called on this writer. It takes no memory.
    pub fn new(alloc: Global, answers: R, calls: W) -> Self
        ensures { result ≡ fresh answers calls }
    {
        Agent {
            alloc,
            log: CallLog::new(alloc),
            ready: false,
            copy_call: Vec::new(alloc),
            build_call: Vec::new(alloc),
            outputs: 0,
            wire: Wire::new(answers, calls),
        }
    }

    /// The calls so far, oldest first, with their answers.
    pub fn calls(&self) -> &[Call]
        ensures { result.now ≡ calls_of self.now.state.deeds }
    {
        self.log.calls()
    }

    /// Whether the agent is gone.
    pub fn is_gone(&self) -> bool
        ensures { result ≡ self.now.wire.is_gone }
    {
        self.wire.is_gone()
    }
}

impl<R: Read + Send + Drop, W: Write + Send + Drop> Transport for Agent<R, W> {
    ghost state = { λ a. a.state };

    fn prepare(&mut self, job: &Job) -> Result<(), AllocError>
        ensures ok { OnOk result (self.new ≡ readied self.old job.now) }
        ensures err { OnErr result (IsIdleAgain self.old.state self.new.state) }
        ensures kept { OnErr result (self.new.wire ≡ self.old.wire) }
    {
        self.ready = false;
        let copy_call = copy_line(self.alloc, job.paths.as_slice())?;
        let build_call = build_line(self.alloc, &job.path, job.output_paths.as_slice())?;
        self.log.prepare(job)?;
        self.copy_call = copy_call;
        self.build_call = build_call;
        self.outputs = job.output_paths.len();
        self.ready = true;
        Ok(())
    }

    fn connect(&mut self, by: &Kept) -> bool
        requires { self.old.state.phase ≡ Phase.Prepared }
        ensures after { self.new.state ≡ connected self.old.state by.now result }
        ensures asked { IsAsked R.remaining W.contents self.old.wire self.new.wire connect_line result }
        ensures kept { self.new.build_call ≡ self.old.build_call }
        ensures outputs { self.new.outputs ≡ self.old.outputs }
    {
        let answered = self.wire.ask(CONNECT_LINE);
        self.log.connected(answered, by);
        answered
    }

    fn copy(&mut self, by: &Kept) -> bool
        requires { self.old.state.phase ≡ Phase.Connected }
        ensures after { self.new.state ≡ copied self.old.state by.now result }
        ensures asked { IsAsked R.remaining W.contents self.old.wire self.new.wire (copy_line self.old.state.paths) result }
        ensures kept { self.new.build_call ≡ self.old.build_call }
        ensures outputs { self.new.outputs ≡ self.old.outputs }
    {
        let done = self.wire.ask(self.copy_call.as_slice());
        self.log.copied(self.alloc, done, by);
        done
    }

    fn build(&mut self, by: &Kept) -> Ended
        requires { self.old.state.phase ≡ Phase.Copied }
        ensures { AgentBuilds R.remaining W.contents self.old by.now result self.new }
    {
        let answer = self
            .wire
            .ask_build(self.alloc, self.build_call.as_slice(), self.outputs);
        let ended = answer.ended();
        self.log.built(answer, by);
        ended
    }

    fn reported(&self) -> Result<Refs, AllocError> {
        self.log.reported()
    }

    fn phase(&self) -> Phase {
        if self.ready {
            self.log.phase()
        } else {
            Phase::Idle
        }
    }
}
