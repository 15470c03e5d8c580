//! The steps of the calling thread.
ghost use Rattle.std.specs.Prelude.{◌≡◌, true, vec_len, Some, IfOk, IfErr, OnOk};
ghost use Rattle.aero_telling.specs.Telling.{cause_of};
ghost use Rattle.aero_intake.specs.PlanTerms.{terms_of};
ghost use Rattle.aero_lanes.specs.Tellings.{HasNumbersOf, StandsSo, StopsSo};
ghost use Rattle.aero_model.specs.CallCounts.{Seen, seen_by};

use crate::lanes::{Lanes, move_on};
use crate::shared::Shared;
use crate::tell::tell_ready;
use aero_intake::Followed;
use aero_model::Counting;
use aero_telling::Cause;
use aero_telling::told::Told;
use std::io::Write;
use std::sync::Wait;
use std::thread::{Scope, Threads};

// All steps. Lanes may still run where it stops before its end.
pub(crate) fn tell_all<
    's,
    E,
    R: Followed + Drop + Send + 's,
    W: Write,
    T: Threads + Wait + Copy + Sync + 's,
>(
    scope: &Scope<'s, E>,
    shared: Shared<'s, T>,
    lanes: &mut Lanes<R>,
    writer: &mut Counting<W>,
    told: &mut Told,
) -> Result<(), Cause>
    requires { HasNumbersOf (vec_len lanes.old.seats) told.old }
    ensures count { vec_len lanes.new.seats ≡ vec_len lanes.old.seats }
    ensures stopped { (origin : _) →
        StandsSo R.sight (terms_of shared.entry.plan.now) shared.entry.plan.now.form origin
        (seen_by W.contents writer.old)
        (seen_by W.contents writer.old) lanes.old.seats.items told.old →
        StopsSo R.sight (terms_of shared.entry.plan.now) shared.entry.plan.now.form origin
        (seen_by W.contents writer.old)
        (seen_by W.contents writer.new) lanes.new.seats.items told.new (cause_of result) }
{
    'steps: for _ in shared.rt.forever() {
        match advance(scope, shared, lanes, writer, told) {
            Ok(false) => {}
            Ok(true) => return Ok(()),
            Err(cause) => return Err(cause),
        }
    }
    unreachable!()
}

// One step: the next line is written, or else the next lane is started, or else the end of a lane is awaited. The answer
// says whether all is done.
fn advance<'s, E, R: Followed + Drop + Send + 's, W: Write, T: Threads + Wait + Copy + Sync + 's>(
    scope: &Scope<'s, E>,
    shared: Shared<'s, T>,
    lanes: &mut Lanes<R>,
    writer: &mut Counting<W>,
    told: &mut Told,
) -> Result<bool, Cause>
    requires { HasNumbersOf (vec_len lanes.old.seats) told.old }
    ensures numbers { OnOk result (HasNumbersOf (vec_len lanes.new.seats) told.new) }
    ensures count { vec_len lanes.new.seats ≡ vec_len lanes.old.seats }
    ensures stands { OnOk result ((origin : _) (before : Seen) →
        StandsSo R.sight (terms_of shared.entry.plan.now) shared.entry.plan.now.form origin before
        (seen_by W.contents writer.old) lanes.old.seats.items told.old →
        StandsSo R.sight (terms_of shared.entry.plan.now) shared.entry.plan.now.form origin before
        (seen_by W.contents writer.new) lanes.new.seats.items told.new) }
    ensures stopped { IfErr result (λ cause. (origin : _) (before : Seen) →
        StandsSo R.sight (terms_of shared.entry.plan.now) shared.entry.plan.now.form origin before
        (seen_by W.contents writer.old) lanes.old.seats.items told.old →
        StopsSo R.sight (terms_of shared.entry.plan.now) shared.entry.plan.now.form origin before
        (seen_by W.contents writer.new) lanes.new.seats.items told.new (Some cause)) }
    ensures all_told { IfOk result (λ is_done. is_done ≡ true →
        vec_len told.new.endings ≡ vec_len lanes.new.seats) }
{
    if tell_ready(shared, lanes, writer, told)? {
        return Ok(false);
    }
    if told.endings.len() == lanes.seats.len() {
        return Ok(true);
    }
    move_on(scope, shared, lanes, told.endings.len());
    Ok(false)
}
