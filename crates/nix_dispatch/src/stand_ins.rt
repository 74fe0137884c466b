//! The command `run`: a stand-in for each slot of the park. A dispatch and its workers are left to the system where
//! the command ends, since the process ends with it.

use crate::beginning::{Begun, begin};
use crate::endings::Ending;
use crate::running::run_workers;
use clap::ArgMatches;
use nd_command_line::placed;
use nd_run_command::stand_ins;
use std::alloc::Global;
use std::fs::File;
use std::mem;
use std::rt::Files;
use std::sync::Wait;
use std::thread::Threads;

/// Runs what is given with a stand-in for each slot of the park, and writes the history, and where asked
/// the report. Without `--stand` each stand-in says yes to all.
pub(crate) fn run_stand_ins<
    'a,
    R: Files<File = File> + Input + Print + AllocGlobal + Threads + Wait + Sync,
>(rt: &R, alloc: Global, options: &ArgMatches<'a>) -> Result<u8, Ending<'a>> {
    let Begun {
        opened,
        rules,
        journal,
    } = begin(rt, alloc, options)?;
    match stand_ins(alloc, &opened.dispatch, rules) {
        Ok(seats) => run_workers(
            rt,
            alloc,
            opened,
            seats,
            journal,
            options.get_flag("report"),
        ),
        Err(fault) => {
            mem::forget(opened);
            drop(journal);
            Err(Ending::Common(placed(options, fault)))
        }
    }
}
