//! A box with a transport is a transport.

use crate::kinds::{Ended, Phase};
use crate::transport::Transport;
use nd_closure::Refs;
use nd_keeping::Kept;
use nd_ledger::Job;
use std::alloc::AllocError;

impl Transport for Box<dyn Transport + Send> {
    ghost state = { λ b. (Transport-box b).state b.value };

    fn prepare(&mut self, job: &Job) -> Result<(), AllocError> {
        (**self).prepare(job)
    }

    fn connect(&mut self, by: &Kept) -> bool {
        (**self).connect(by)
    }

    fn copy(&mut self, by: &Kept) -> bool {
        (**self).copy(by)
    }

    fn build(&mut self, by: &Kept) -> Ended {
        (**self).build(by)
    }

    fn reported(&self) -> Result<Refs, AllocError> {
        (**self).reported()
    }

    fn phase(&self) -> Phase {
        (**self).phase()
    }
}
