//! What is made ready before a run.

ghost use Rattle.std.specs.Prelude.{◌≡◌, ◌≤◌, length, replicate, IfOk, IfErr, OnOk};
ghost use Rattle.nd_history.specs.Standing.{drvs_in};
ghost use Rattle.nd_receipts.specs.Dealt.{AreApart};
ghost use Rattle.nd_receipts.specs.Standing.{IsIdle};
ghost use Rattle.nd_receipts.specs.Walks.{AreUnknown};
ghost use Rattle.nd_workers.specs.Runs.{AreManned, IsRunRefused};
ghost use Rattle.nd_workers.specs.Served.{places_served};

use crate::manning::{are_manned, places_of};
use crate::run_end::RunError;
use crate::running::MOST_SLOTS;
use crate::seat::Seat;
use crate::settling::Plan;
use nd_ledger::Dispatch;
use nd_receipts::{ParkPlace, Standing, Tables};
use nd_work::Bells;
use std::alloc::{AllocError, Global};

/// The places that workers serve, and the bells of all places.
#[derive(Drop)]
pub(crate) struct Stations {
    pub(crate) manned: Vec<ParkPlace>,
    pub(crate) bells: Bells,
}

/// The places of these workers, where there is one for each slot of the park, and they aren't too many.
#[tactic(auto, using(crate::proofs::Manned::manned_apart))]
fn accepted_places<T>(
    alloc: Global,
    dispatch: &Dispatch,
    seats: &[Seat<T>],
) -> Result<Vec<ParkPlace>, RunError>
    ensures refused { IfErr result (IsRunRefused dispatch.now.inputs (places_served seats.now)) }
    ensures places { IfOk result (λ v. v.items ≡ places_served seats.now) }
    ensures manned { OnOk result (AreManned dispatch.now.inputs (places_served seats.now)) }
    ensures apart { IfOk result (λ v. AreApart v.items) }
    ensures few { OnOk result (length seats.now ≤ 1024) }
{
    let Ok(places) = places_of(alloc, seats) else {
        return Err(RunError::Memory);
    };
    if !are_manned(dispatch, places.as_slice()) {
        drop(places);
        return Err(RunError::Slots);
    }
    if seats.len() > MOST_SLOTS {
        drop(places);
        return Err(RunError::TooManySlots);
    }
    Ok(places)
}

/// What the end of a run of this dispatch by workers on these places is compared with.
fn make_plan(alloc: Global, dispatch: &Dispatch, places: Vec<ParkPlace>) -> Result<Plan, AllocError>
    requires { AreApart places.items }
    ensures opened { IfOk result (λ p. p.opened ≡ length dispatch.now.history) }
    ensures places { IfOk result (λ p. p.places.items ≡ places.items) }
    ensures choices { IfOk result (λ p. AreUnknown (length places.items) p.tables.choices.items) }
    ensures sized { IfOk result (λ p. length p.tables.choices.items ≡ drvs_in dispatch.now.inputs) }
{
    let (tables, standing) = match make_tables(alloc, dispatch.graph().len(), places.len()) {
        Ok(made) => made,
        Err(error) => {
            drop(places);
            return Err(error);
        }
    };
    Ok(Plan {
        opened: dispatch.history().len(),
        places,
        tables,
        standing,
    })
}

/// The tables of a run of so many derivations by so many workers, and what is known of its beginning.
fn make_tables(alloc: Global, drvs: usize, workers: usize) -> Result<(Tables, Standing), AllocError>
    ensures choices { IfOk result (λ t. AreUnknown workers t.0.choices.items) }
    ensures sized { IfOk result (λ t. length t.0.choices.items ≡ drvs) }
    ensures met { IfOk result (λ t. t.0.met.items ≡ replicate workers 0) }
    ensures idle { IfOk result (λ t. IsIdle t.1) }
    ensures wide { IfOk result (λ t. length t.1.leased.items ≡ drvs) }
{
    let tables = Tables::new(alloc, drvs, workers)?;
    let standing = Standing::new(alloc, drvs)?;
    Ok((tables, standing))
}

/// The places that workers serve, with the bells.
fn make_stations<T>(
    alloc: Global,
    dispatch: &Dispatch,
    seats: &[Seat<T>],
) -> Result<Stations, AllocError> {
    let manned = places_of(alloc, seats)?;
    match Bells::new(alloc, dispatch) {
        Ok(bells) => Ok(Stations { manned, bells }),
        Err(error) => {
            drop(manned);
            Err(error)
        }
    }
}

/// The workers' stations, and what the end of the run is compared with.
pub(crate) fn prepare<T>(
    alloc: Global,
    dispatch: &Dispatch,
    seats: &[Seat<T>],
) -> Result<(Stations, Plan), RunError>
    ensures refused { IfErr result (IsRunRefused dispatch.now.inputs (places_served seats.now)) }
    ensures manned { OnOk result (AreManned dispatch.now.inputs (places_served seats.now)) }
    ensures few { OnOk result (length seats.now ≤ 1024) }
    ensures opened { IfOk result (λ p. p.1.opened ≡ length dispatch.now.history) }
    ensures places { IfOk result (λ p. p.1.places.items ≡ places_served seats.now) }
    ensures choices { IfOk result (λ p. AreUnknown (length p.1.places.items) p.1.tables.choices.items) }
    ensures sized { IfOk result (λ p. length p.1.tables.choices.items ≡ drvs_in dispatch.now.inputs) }
{
    let places = match accepted_places(alloc, dispatch, seats) {
        Ok(places) => places,
        Err(why) => return Err(why),
    };
    let Ok(stations) = make_stations(alloc, dispatch, seats) else {
        drop(places);
        return Err(RunError::Memory);
    };
    match make_plan(alloc, dispatch, places) {
        Ok(plan) => Ok((stations, plan)),
        Err(_) => {
            drop(stations);
            Err(RunError::Memory)
        }
    }
}
