//! The report of how a dispatch stands.

ghost use Rattle.std.specs.Prelude.{◌≡◌, ◌||◌, ◌<◌, ◌≤◌, is_err, length, reverse, slice_index_or, OnOk, OnErr};
ghost use Rattle.nd_history.specs.Choices.{machines_in, jobs_of};
ghost use Rattle.nd_report.specs.Reports.{counts_text, up_word, builder_row, builders_text, machine_row, machines_text, park_text, status_word, drv_row, Reports, ReportsPart, PutsAllDrvs};
ghost use Rattle.nd_devices.specs.Sending.{IsPut};

use nd_devices::{Fault, Page, Told, WriteError};
use nd_failure::{Counts, Status};
use nd_history_text::rows::{Word, put_row};
use nd_ledger::Dispatch;
use nd_machines::Machine;
use std::io;

/// Writes how a dispatch stands: `total`, `waiting`, `leased`, `built`, `failed` and `cancelled` with
/// their numbers of derivations; for each machine, number 0 first, `machine`, its number, `up` or
/// `down`, its taken slots and its jobs with a `/` between, and `local` or its URI; and for each
/// derivation `drv`, its number, its status and its path. Each is a line with its newline. It takes no
/// memory, and hands the text to the writer in pieces of about 4,096 bytes.
///
/// Refusal 1 `Write`: the device refused a write. Its mark is then set, and a part of the text, from
/// its beginning, may be out.
pub fn write_report<W: io::Write>(dispatch: &Dispatch, out: &mut Told<W>) -> Result<(), WriteError>
    ensures written { OnOk result (Reports dispatch.now.inputs (reverse dispatch.now.history) (W.contents out.old.device) (W.contents out.new.device)) }
    ensures partly { OnErr result (ReportsPart dispatch.now.inputs (reverse dispatch.now.history) (W.contents out.old.device) (W.contents out.new.device)) }
    ensures mark { out.new.is_marked ≡ (out.old.is_marked || is_err result) }
{
    let mut page = Page::new();
    let total = dispatch.graph().len();
    put_park(total, &dispatch.counts(), dispatch, &mut page, out)?;
    put_drvs(dispatch, &mut page, out)?;
    page.send(out)?;
    Ok(())
}

/// Writes the counts and the machines.
fn put_park<W: io::Write>(
    total: usize,
    counts: &Counts,
    dispatch: &Dispatch,
    page: &mut Page,
    out: &mut Told<W>,
) -> Result<(), Fault>
    ensures { IsPut W.contents out.old page.old out.new page.new (park_text total counts.now dispatch.now.inputs (reverse dispatch.now.history)) result }
{
    put_counts(total, counts, page, out)?;
    put_machines(dispatch, page, out)
}

/// Writes how many derivations there are, and how many have each status.
fn put_counts<W: io::Write>(
    total: usize,
    counts: &Counts,
    page: &mut Page,
    out: &mut Told<W>,
) -> Result<(), Fault>
    ensures { IsPut W.contents out.old page.old out.new page.new (counts_text total counts.now) result }
{
    let rows: [(&[u8], usize); 6] = [
        (b"total", total),
        (b"waiting", counts.waiting),
        (b"leased", counts.leased),
        (b"built", counts.built),
        (b"failed", counts.failed),
        (b"cancelled", counts.cancelled),
    ];
    for (name, number) in rows {
        put_row(name, &[Word::Number(number)], page, out)?;
    }
    Ok(())
}

/// Writes the machines, the local one first.
fn put_machines<W: io::Write>(
    dispatch: &Dispatch,
    page: &mut Page,
    out: &mut Told<W>,
) -> Result<(), Fault>
    ensures { IsPut W.contents out.old page.old out.new page.new (machines_text dispatch.now.inputs (reverse dispatch.now.history)) result }
{
    put_machine(dispatch, 0, dispatch.local().jobs(), b"local", page, out)?;
    put_builders(dispatch, page, out)
}

/// Writes the machines of the builders list.
fn put_builders<W: io::Write>(
    dispatch: &Dispatch,
    page: &mut Page,
    out: &mut Told<W>,
) -> Result<(), Fault>
    ensures { IsPut W.contents out.old page.old out.new page.new (builders_text dispatch.now.inputs (reverse dispatch.now.history)) result }
{
    for (place, machine) in dispatch.machines().iter().enumerate() {
        put_builder(dispatch, place, machine, page, out)?;
    }
    Ok(())
}

/// Writes the machine at this place of the builders list.
#[tactic(auto, using(crate::proofs::Rows::builder_jobs))]
fn put_builder<W: io::Write>(
    dispatch: &Dispatch,
    place: usize,
    machine: &Machine,
    page: &mut Page,
    out: &mut Told<W>,
) -> Result<(), Fault>
    requires few { length dispatch.now.inputs.machines ≤ 1024 }
    requires listed { place < length dispatch.now.inputs.machines }
    requires found { machine.now ≡ slice_index_or dispatch.now.inputs.machines place machine.now }
    ensures { IsPut W.contents out.old page.old out.new page.new (builder_row dispatch.now.inputs (reverse dispatch.now.history) place) result }
{
    let number = place as u32 + 1;
    put_machine(dispatch, number, machine.jobs(), machine.uri(), page, out)
}

/// Writes a machine under this name.
fn put_machine<W: io::Write>(
    dispatch: &Dispatch,
    number: u32,
    jobs: u32,
    name: &[u8],
    page: &mut Page,
    out: &mut Told<W>,
) -> Result<(), Fault>
    requires park { number < machines_in dispatch.now.inputs }
    requires jobs { jobs ≡ jobs_of dispatch.now.inputs number }
    ensures { IsPut W.contents out.old page.old out.new page.new (machine_row dispatch.now.inputs (reverse dispatch.now.history) number name.now) result }
{
    let words = [
        Word::Number(number as usize),
        Word::Text(word_of_up(dispatch.up(number))),
        Word::Share(dispatch.taken(number), jobs),
        Word::Text(name),
    ];
    put_row(b"machine", &words, page, out)
}

/// Whether a machine gets leases, as a word.
fn word_of_up(up: bool) -> &'static [u8]
    ensures { result.now ≡ up_word up }
{
    if up { b"up" } else { b"down" }
}

/// Writes each derivation with its status.
fn put_drvs<W: io::Write>(
    dispatch: &Dispatch,
    page: &mut Page,
    out: &mut Told<W>,
) -> Result<(), Fault>
    ensures { PutsAllDrvs dispatch.now W.contents out.old page.old out.new page.new result }
{
    let count = dispatch.graph().len();
    for drv in 0..count {
        put_drv(dispatch, drv, dispatch.status(drv), page, out)?;
    }
    Ok(())
}

/// Writes a derivation with this status.
fn put_drv<W: io::Write>(
    dispatch: &Dispatch,
    drv: usize,
    status: Status,
    page: &mut Page,
    out: &mut Told<W>,
) -> Result<(), Fault>
    requires { drv < length dispatch.now.inputs.graph.paths }
    ensures { IsPut W.contents out.old page.old out.new page.new (drv_row dispatch.now.inputs drv status) result }
{
    let words = [
        Word::Number(drv),
        Word::Text(word_of_status(status)),
        Word::Text(dispatch.graph().path(drv).bytes()),
    ];
    put_row(b"drv", &words, page, out)
}

/// A status, as a word.
fn word_of_status(status: Status) -> &'static [u8]
    ensures { result.now ≡ status_word status }
{
    match status {
        Status::Waiting => b"waiting",
        Status::Leased => b"leased",
        Status::Built => b"built",
        Status::Failed => b"failed",
        Status::Cancelled => b"cancelled",
    }
}
