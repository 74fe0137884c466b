//! What becomes of leases that no worker serves.

ghost use Rattle.std.specs.Prelude.{◌≡◌, ◌≢◌, ◌+◌, ◌<◌, ◌≤◌, ◌++◌, [], length, reverse};
ghost use Rattle.std.specs.List.{cons_option};
ghost use Rattle.nd_history.specs.Choices.{machines_in, jobs_of};
ghost use Rattle.nd_run_desk.specs.Abandoned.{places_on, is_manned, given_up_at, ends_on, stop_after, HasAbandoned, LeavesOthers, LeavesOtherMachines};

use nd_history::Why;
use nd_ledger::Dispatch;
use nd_receipts::ParkPlace;

/// Makes no further lease, and ends each live lease on a place of the park that isn't among `manned`:
/// `Stop` is recorded where none stands, and then, in the order of the machines and their slots, `Failed`
/// with `NoWorker` for each of these leases, and nothing else. It takes no memory.
#[tactic(auto, using(crate::proofs::Leaving::park_first, crate::proofs::Leaving::park_more, crate::proofs::Leaving::all_given_up))]
pub fn abandon(dispatch: &mut Dispatch, manned: &[ParkPlace])
    ensures { HasAbandoned dispatch.old manned.now dispatch.new }
{
    stop(dispatch);
    for machine in 0..dispatch.machine_count() {
        abandon_machine(dispatch, manned, machine);
    }
}

/// Records a stop where none stands.
#[tactic(auto, using(crate::proofs::Leaving::stop_recorded, crate::proofs::Leaving::stop_stands))]
fn stop(dispatch: &mut Dispatch)
    ensures { dispatch.new ≡ record dispatch.old { history = dispatch.old.history ++ stop_after (reverse dispatch.old.history) } }
{
    if let Err(_) = dispatch.stop() {
        return;
    }
    let _ = dispatch.history();
}

/// Whether the place is among `manned`.
fn is_manned(manned: &[ParkPlace], place: ParkPlace) -> bool
    ensures { result ≡ is_manned manned.now place }
{
    manned.iter().any(|one| place == *one)
}

/// Ends the live leases on the slots of a machine that aren't among `manned`.
#[tactic(auto, using(crate::proofs::Leaving::machine_first, crate::proofs::Leaving::machine_more, crate::proofs::Leaving::machine_done, crate::proofs::Leaving::machine_others))]
fn abandon_machine(dispatch: &mut Dispatch, manned: &[ParkPlace], machine: u32)
    ensures inputs { dispatch.new.inputs ≡ dispatch.old.inputs }
    ensures history { dispatch.new.history ≡ dispatch.old.history ++ ends_on manned.now (reverse dispatch.old.history) (places_on dispatch.old.inputs machine) }
    ensures others { LeavesOtherMachines machine (reverse dispatch.old.history) (reverse dispatch.new.history) }
{
    for slot in 0..dispatch.jobs_on(machine) {
        abandon_place(dispatch, manned, ParkPlace { machine, slot });
    }
}

/// Ends the live lease on a place that isn't among `manned`.
#[tactic(auto, using(crate::proofs::Leaving::leaves_same, crate::proofs::Leaving::live_there, crate::proofs::Leaving::one_less))]
fn abandon_place(dispatch: &mut Dispatch, manned: &[ParkPlace], place: ParkPlace)
    ensures inputs { dispatch.new.inputs ≡ dispatch.old.inputs }
    ensures history { dispatch.new.history ≡ dispatch.old.history ++ cons_option (given_up_at manned.now (reverse dispatch.old.history) place) [] }
    ensures others { LeavesOthers place.0 place.1 (reverse dispatch.old.history) (reverse dispatch.new.history) }
{
    if is_manned(manned, place) {
        return;
    }
    let Some(ticket) = dispatch.current(place.machine, place.slot) else {
        return;
    };
    let _ = dispatch.history();
    match dispatch.failed(ticket, Why::NoWorker) {
        Ok(()) => {}
        Err(_) => unreachable!(),
    }
}
