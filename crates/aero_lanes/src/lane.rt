//! What a lane does.
ghost use Rattle.std.specs.Prelude.{◌≡◌};
ghost use Rattle.aero_intake.specs.PlanTerms.{terms_of};
ghost use Rattle.aero_lanes.specs.Ends.{IsEndOf};

use crate::shared::Shared;
use aero_intake::alone::judge_source;
use aero_intake::{Followed, Found, Plan, SourceOf};
use std::snapshot::Snapshot;
use std::sync::Wait;
use std::thread::Promise;

// A lane gives back its source, and what was found of it. Nothing was found if memory was refused, or if the lane was given
// up.
#[derive(Drop)]
pub(crate) struct Ended<R> {
    pub(crate) source: SourceOf<R>,
    pub(crate) found: Option<Found>,
}

// A lane's promise: what it gives back is this source, and what was found of it by this plan. The snapshots are of the
// source as it was before, and of the plan.
#[derive(Drop)]
pub(crate) struct Finds<R>(pub(crate) Snapshot<SourceOf<R>>, pub(crate) Snapshot<Plan>);

impl<R: Followed> Promise<Ended<R>> for Finds<R> {
    ghost use Rattle.aero_intake.specs.PlanTerms.{terms_of};
    ghost use Rattle.aero_lanes.specs.Ends.{IsEndOf};

    ghost kept_by = { λ p r. IsEndOf R.sight (terms_of p.1.value) p.0.value r };
}

// Reads and judges a source, and then sends its place: the lane has ended.
pub(crate) fn work<R: Followed + Drop, T: Wait + Copy>(
    shared: Shared<'_, T>,
    mut source: SourceOf<R>,
    place: u64,
) -> Ended<R>
    ensures { IsEndOf R.sight (terms_of shared.entry.plan.now) source result }
{
    let found = judge_source(
        shared.rt,
        shared.alloc,
        &mut source.reader,
        shared.plan,
        shared.is_given_up,
    );
    send_end(shared, place);
    Ended { source, found }
}

// Nobody listens any more where the calling thread has given up.
fn send_end<T: Wait + Copy>(shared: Shared<'_, T>, place: u64) {
    let _ = shared.ends.send(shared.rt, place);
}
