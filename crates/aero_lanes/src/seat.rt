//! Where a source is: it waits for its lane, is in it, or is back.
ghost use Rattle.std.specs.Prelude.{◌≡◌};
ghost use Rattle.aero_intake.specs.PlanTerms.{terms_of};
ghost use Rattle.aero_lanes.specs.Ends.{IsEndOf};
ghost use Rattle.aero_lanes.specs.Seats.{FitsSeat, StaysDone, GivesBack};
ghost use Rattle.aero_model.specs.Terms.{Terms};

use crate::lane::{Ended, Finds, work};
use crate::shared::Shared;
use aero_intake::{Followed, SourceOf};
use std::mem;
use std::snapshot::Snapshot;
use std::sync::Wait;
use std::thread::{PromisedHandle, Scope, Threads};

// The seat of one source, which it keeps for the whole run.
#[derive(Drop)]
pub(crate) enum Seat<R: Followed> {
    // Its lane isn't started yet.
    Waiting(SourceOf<R>),
    // Its lane is started, and wasn't joined.
    Running(PromisedHandle<Ended<R>, Finds<R>>),
    // Its lane was joined.
    Done(Ended<R>),
    // Only while the seat changes.
    Empty,
}

// Starts the lane of a source that waits. Where the system gives no thread, the calling thread does the lane's work here.
// Any other seat stays as it is.
pub(crate) fn start<'s, E, R: Followed + Drop + Send + 's, T: Wait + Copy + Sync + 's>(
    scope: &Scope<'s, E>,
    shared: Shared<'s, T>,
    seat: &mut Seat<R>,
    place: u64,
)
    ensures fits { (before : _) → FitsSeat R.sight (terms_of shared.entry.plan.now) before
        seat.old → FitsSeat R.sight (terms_of shared.entry.plan.now) before seat.new }
    ensures done { StaysDone seat.old seat.new }
{
    *seat = match mem::replace(seat, Seat::Empty) {
        Seat::Waiting(source) => started(scope, shared, source, place),
        other => other,
    };
}

fn started<'s, E, R: Followed + Drop + Send + 's, T: Wait + Copy + Sync + 's>(
    scope: &Scope<'s, E>,
    shared: Shared<'s, T>,
    source: SourceOf<R>,
    place: u64,
) -> Seat<R>
    ensures { FitsSeat R.sight (terms_of shared.entry.plan.now) source result }
{
    let promise = Finds(Snapshot::of(&source), Snapshot::of(shared.plan));
    let lane = move || -> Ended<R>
        ensures { IsEndOf R.sight (terms_of shared.entry.plan.now) source result }
    { work(shared, source, place) };
    match scope.spawn_with(promise, lane) {
        Ok(handle) => Seat::Running(handle),
        Err(refused) => Seat::Done((refused.value)()),
    }
}

// Waits until a lane that runs has ended, and takes what it gives back. Any other seat stays as it is.
pub(crate) fn end<R: Followed + Drop, T: Threads>(rt: &T, seat: &mut Seat<R>)
    ensures fits { (terms : Terms) (before : _) → FitsSeat R.sight terms before seat.old →
        FitsSeat R.sight terms before seat.new }
    ensures done { StaysDone seat.old seat.new }
{
    *seat = match mem::replace(seat, Seat::Empty) {
        Seat::Running(handle) => Seat::Done(handle.join(rt)),
        other => other,
    };
}

// The source of a seat. It waits for the end of a lane that runs.
pub(crate) fn source_of<R: Followed + Drop, T: Threads>(
    rt: &T,
    seat: Seat<R>,
) -> Option<SourceOf<R>>
    ensures { (terms : Terms) (before : _) → FitsSeat R.sight terms before seat →
        GivesBack R.sight before seat result }
{
    match seat {
        Seat::Waiting(source) => Some(source),
        Seat::Running(handle) => {
            let Ended { source, .. } = handle.join(rt);
            Some(source)
        }
        Seat::Done(ended) => {
            let Ended { source, .. } = ended;
            Some(source)
        }
        Seat::Empty => None,
    }
}

pub(crate) fn is_running<R: Followed>(seat: &Seat<R>) -> bool {
    matches!(seat, Seat::Running(_))
}

// Whether a source that waits for its lane may wait for its bytes too.
pub(crate) fn may_wait<R: Followed>(seat: &Seat<R>) -> bool {
    match seat {
        Seat::Waiting(source) => source.may_wait,
        Seat::Running(_) | Seat::Done(_) | Seat::Empty => false,
    }
}
