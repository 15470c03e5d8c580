//! The run in lanes.
ghost use Rattle.std.specs.Prelude.{◌≡◌, ◌≤◌, [], map, vec_len, Some};
ghost use Rattle.aero_telling.specs.Founds.{sighted, WasTold};
ghost use Rattle.aero_telling.specs.Labels.{AreLabelsOf};
ghost use Rattle.aero_telling.specs.Telling.{cause_of};
ghost use Rattle.aero_intake.specs.PlanTerms.{terms_of};
ghost use Rattle.aero_lanes.specs.Judged.{HasJudged, IsReady};
ghost use Rattle.aero_model.specs.CallCounts.{seen_by};
ghost use Rattle.aero_model.specs.Verdicts.{no_counts};

use crate::lanes::Lanes;
use crate::room::{Room, all_back, room_for, seat_all};
use crate::shared::Shared;
use crate::steps::tell_all;
use aero_intake::{Followed, Plan, SourceOf};
use aero_model::Counting;
use aero_telling::{Cause, Report};
use std::alloc::Global;
use std::io::Write;
use std::sync::Wait;
use std::sync::atomic::{AtomicBool, Ordering};
use std::thread;
use std::thread::{Scope, Threads};

/// Reads and judges the sources, as many at once as the plan has workers, each in a lane of its own, and writes the line of
/// each source, in their order. No summary is written. The lines are those of `aero_batch::run_lines`, and so is all that is
/// said there of how sources end. With one worker one lane runs at a time.
///
/// A lane is a thread. Where the system gives none, the calling thread does a lane's work. A source that may wait is begun
/// once all before it are told. All lanes have ended when the call returns, and it gives all sources back, in their order.
///
/// Where memory is refused, or a write fails, the run stops: the report tells of the sources whose lines were written
/// whole, and says why. How far others were read isn't said. Nothing is flushed.
pub fn run_in_lanes<
    R: Followed + Drop + Send,
    W: Write,
    T: Threads + Wait + Copy + Send + Sync + 'static,
>(
    rt: T,
    alloc: Global,
    sources: Vec<SourceOf<R>>,
    writer: &mut Counting<W>,
    plan: &Plan,
) -> (Report, Vec<SourceOf<R>>)
    requires { vec_len sources ≤ 65536 }
    ensures told { WasTold (terms_of plan.now) plan.now.form (map (sighted R.sight) sources.items)
        (map (sighted R.sight) result.1.items)
        (seen_by W.contents writer.old) (seen_by W.contents writer.new) result.0.told.endings.items
        result.0.told.notables.items result.0.told.counts result.0.cause }
    ensures labels { AreLabelsOf (terms_of plan.now) (map (sighted R.sight) sources.items)
        (map (sighted R.sight) result.1.items) result.0.told.endings.items result.0.told.begun }
{
    let Ok((mut room, ends)) = room_for(alloc, sources.len(), plan.terms.except()) else {
        return (Report::refused(alloc), sources);
    };
    seat_all(&mut room.seats, sources);
    let is_given_up = AtomicBool::new(false);
    let shared = Shared {
        rt: &rt,
        alloc,
        plan,
        is_given_up: &is_given_up,
        ends: &ends,
    };
    judge_all(shared, room, writer)
}

// Starts the lanes, tells what they find, and waits until all have ended. The writer goes into the scope's closure, and
// comes back with its result.
fn judge_all<R: Followed + Drop + Send, W: Write, T: Threads + Wait + Copy + Sync>(
    shared: Shared<'_, T>,
    room: Room<R>,
    writer: &mut Counting<W>,
) -> (Report, Vec<SourceOf<R>>)
    requires { IsReady (terms_of shared.plan.now).rules.labels.labels room }
    ensures { HasJudged R.sight (terms_of shared.entry.plan.now) shared.entry.plan.now.form
        room.seats.items (seen_by W.contents writer.old) (seen_by W.contents writer.new) result.0
        result.1.items }
{
    let (report, sources, writer) = thread::scope(
        thread::scope_env(),
        shared.rt,
        move |scope| -> (Report, Vec<SourceOf<R>>, &mut Counting<W>)
            requires { IsReady (terms_of shared.plan.now).rules.labels.labels room }
            ensures told { HasJudged R.sight (terms_of shared.entry.plan.now)
                shared.entry.plan.now.form room.seats.items (seen_by W.contents writer.entry.now)
                (seen_by W.contents result.2.now) result.0 result.1.items }
            ensures same { result.2.ghost_name ≡ writer.entry.ghost_name }
        {
            let (report, sources) = judge_in(scope, shared, room, &mut *writer);
            (report, sources, writer)
        },
    );
    take_back(writer);
    (report, sources)
}

// Does nothing. By its clause the caller knows that the writer which came back is the one that went in.
fn take_back<T>(lent: &mut T)
    ensures { lent.new ≡ lent.old }
{}

// The same in a scope of threads.
fn judge_in<'s, E, R: Followed + Drop + Send + 's, W: Write, T: Threads + Wait + Copy + Sync + 's>(
    scope: &Scope<'s, E>,
    shared: Shared<'s, T>,
    room: Room<R>,
    writer: &mut Counting<W>,
) -> (Report, Vec<SourceOf<R>>)
    requires { IsReady (terms_of shared.plan.now).rules.labels.labels room }
    ensures { HasJudged R.sight (terms_of shared.entry.plan.now) shared.entry.plan.now.form
        room.seats.items (seen_by W.contents writer.old) (seen_by W.contents writer.new) result.0
        result.1.items }
{
    let Room {
        seats,
        mut told,
        back,
        ends,
    } = room;
    let mut lanes = Lanes {
        seats,
        started: 0,
        running: 0,
        ends,
    };
    let end = tell_all(scope, shared, &mut lanes, writer, &mut told);
    let cause = cause_in(end);
    shared.is_given_up.store(true, Ordering::SeqCst);
    let Lanes { seats, .. } = lanes;
    let sources = all_back(shared.rt, seats, back);
    (Report { told, cause }, sources)
}

// Why the telling stopped, if it did before its end.
fn cause_in(end: Result<(), Cause>) -> Option<Cause>
    ensures { result ≡ cause_of end }
{
    match end {
        Ok(()) => None,
        Err(cause) => Some(cause),
    }
}
