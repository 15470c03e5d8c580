//! Which lane is started, or awaited, next.
ghost use Rattle.std.specs.Prelude.{◌≡◌, ◌<◌, vec_len, IsTrue};
ghost use Rattle.aero_intake.specs.PlanTerms.{terms_of};
ghost use Rattle.aero_lanes.specs.Seats.{GoOn};
ghost use Rattle.aero_model.specs.Terms.{Terms};

use crate::seat::{Seat, end, is_running, may_wait, start};
use crate::shared::Shared;
use aero_intake::{Followed, Plan};
use crossbeam_channel::Receiver;
use std::sync::Wait;
use std::thread::{Scope, Threads};

// The seats of the sources, in their order; how many of them have had their lanes started, which are the first ones; how
// many lanes run; and the channel on which the places of those come that have ended.
#[derive(Drop)]
pub(crate) struct Lanes<R: Followed> {
    pub(crate) seats: Vec<Seat<R>>,
    pub(crate) started: usize,
    pub(crate) running: u32,
    pub(crate) ends: Receiver<u64>,
}

// Starts the next lane if it may be started, and else waits for the end of one. So many sources are told.
pub(crate) fn move_on<'s, E, R: Followed + Drop + Send + 's, T: Threads + Wait + Copy + Sync + 's>(
    scope: &Scope<'s, E>,
    shared: Shared<'s, T>,
    lanes: &mut Lanes<R>,
    told: usize,
)
    ensures goes { GoOn R.sight (terms_of shared.entry.plan.now) lanes.old.seats.items
        lanes.new.seats.items }
    ensures count { vec_len lanes.new.seats ≡ vec_len lanes.old.seats }
{
    if may_start(shared.plan, lanes, told) {
        start_next(scope, shared, lanes);
    } else {
        end_one(shared.rt, lanes);
    }
}

// Whether the next lane may be started: fewer run than the plan has workers, and its source may not wait, or all before it
// are told.
fn may_start<R: Followed>(plan: &Plan, lanes: &Lanes<R>, told: usize) -> bool
    ensures { IsTrue result → lanes.now.started < vec_len lanes.now.seats }
{
    let place = lanes.started;
    if lanes.running >= plan.workers || place >= lanes.seats.len() {
        return false;
    }
    told >= place || !may_wait(&lanes.seats[place])
}

fn start_next<'s, E, R: Followed + Drop + Send + 's, T: Wait + Copy + Sync + 's>(
    scope: &Scope<'s, E>,
    shared: Shared<'s, T>,
    lanes: &mut Lanes<R>,
)
    requires { lanes.old.started < vec_len lanes.old.seats }
    ensures goes { GoOn R.sight (terms_of shared.entry.plan.now) lanes.old.seats.items
        lanes.new.seats.items }
    ensures count { vec_len lanes.new.seats ≡ vec_len lanes.old.seats }
{
    let place = lanes.started;
    start(scope, shared, &mut lanes.seats[place], place as u64);
    let runs = is_running(&lanes.seats[place]);
    lanes.started = place + 1;
    lanes.running = lanes.running.saturating_add(u32::from(runs));
}

// Waits for the next lane that ends, and takes what it gives back.
fn end_one<R: Followed + Drop, T: Threads + Wait>(rt: &T, lanes: &mut Lanes<R>)
    ensures goes { (terms : Terms) →
        GoOn R.sight terms lanes.old.seats.items lanes.new.seats.items }
    ensures count { vec_len lanes.new.seats ≡ vec_len lanes.old.seats }
{
    let Some(place) = next_end(rt, &lanes.ends) else {
        return;
    };
    if place >= lanes.seats.len() || !is_running(&lanes.seats[place]) {
        return;
    }
    end(rt, &mut lanes.seats[place]);
    lanes.running = lanes.running.saturating_sub(1);
}

// The place of the source whose lane is the next to end.
fn next_end<T: Wait>(rt: &T, ends: &Receiver<u64>) -> Option<usize> {
    let place = ends.recv(rt).ok()?;
    usize::try_from(place).ok()
}
