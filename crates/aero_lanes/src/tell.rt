//! Telling what the lanes found.
ghost use Rattle.std.specs.Prelude.{◌≡◌, true, false, length, slice_get, vec_len, Some, IfOk, IfErr, OnOk};
ghost use Rattle.aero_telling.specs.Telling.{HasRoom};
ghost use Rattle.aero_intake.specs.PlanTerms.{terms_of};
ghost use Rattle.aero_lanes.specs.Tellings.{HasNumbersOf, StandsSo, StopsSo, TellsEnd, TellsSeat, TellsNextSeat};
ghost use Rattle.aero_model.specs.CallCounts.{Seen, seen_by};

use crate::lanes::Lanes;
use crate::seat::Seat;
use crate::shared::Shared;
use aero_intake::{Followed, Found};
use aero_model::Counting;
use aero_telling::Cause;
use aero_telling::told::{Style, Told, tell_found};
use std::io::Write;

// How the texts of the run are made.
fn style_of<T: Copy>(shared: Shared<'_, T>) -> Style
    ensures { result.form ≡ shared.entry.plan.now.form }
{
    Style {
        alloc: shared.alloc,
        form: shared.plan.form,
    }
}

// Writes the text of the first source that isn't told yet, where its lane has ended, and says whether it has.
pub(crate) fn tell_ready<R: Followed, W: Write, T: Copy>(
    shared: Shared<'_, T>,
    lanes: &Lanes<R>,
    writer: &mut Counting<W>,
    told: &mut Told,
) -> Result<bool, Cause>
    requires { HasNumbersOf (vec_len lanes.now.seats) told.old }
    ensures numbers { OnOk result (HasNumbersOf (vec_len lanes.now.seats) told.new) }
    ensures stands { IfOk result (λ is_told. is_told ≡ true → (origin : _) (before : Seen) →
        StandsSo R.sight (terms_of shared.entry.plan.now) shared.entry.plan.now.form origin before
        (seen_by W.contents writer.old) lanes.now.seats.items told.old →
        StandsSo R.sight (terms_of shared.entry.plan.now) shared.entry.plan.now.form origin before
        (seen_by W.contents writer.new) lanes.now.seats.items told.new) }
    ensures unchanged { IfOk result (λ is_told. is_told ≡ false →
        (seen_by W.contents writer.new ≡ seen_by W.contents writer.old) × (told.new ≡ told.old)) }
    ensures stopped { IfErr result (λ cause. (origin : _) (before : Seen) →
        StandsSo R.sight (terms_of shared.entry.plan.now) shared.entry.plan.now.form origin before
        (seen_by W.contents writer.old) lanes.now.seats.items told.old →
        StopsSo R.sight (terms_of shared.entry.plan.now) shared.entry.plan.now.form origin before
        (seen_by W.contents writer.new) lanes.now.seats.items told.new (Some cause)) }
{
    tell_next_seat(style_of(shared), &lanes.seats, writer, told)
}

// The same, by what is told of one seat.
fn tell_next_seat<R: Followed, W: Write>(
    style: Style,
    seats: &[Seat<R>],
    writer: &mut Counting<W>,
    told: &mut Told,
) -> Result<bool, Cause>
    requires { HasNumbersOf (length seats.now) told.old }
    ensures { TellsNextSeat style.form (slice_get seats.now (vec_len told.old.endings))
        (seen_by W.contents writer.old)
        (seen_by W.contents writer.new) told.old told.new result }
{
    let place = told.endings.len();
    if place >= seats.len() {
        return Ok(false);
    }
    tell_seat(style, &seats[place], writer, told)
}

// Writes the text of a source, where its lane has ended, and says whether it has. An `Err` changes nothing that was told.
fn tell_seat<R: Followed, W: Write>(
    style: Style,
    seat: &Seat<R>,
    writer: &mut Counting<W>,
    told: &mut Told,
) -> Result<bool, Cause>
    requires room { HasRoom told.old }
    ensures { TellsSeat style.form seat.now (seen_by W.contents writer.old)
        (seen_by W.contents writer.new) told.old told.new result }
{
    match seat {
        Seat::Done(ended) => tell_end(
            style,
            ended.source.name.as_slice(),
            &ended.found,
            writer,
            told,
        ),
        Seat::Waiting(_) | Seat::Running(_) | Seat::Empty => Ok(false),
    }
}

// The same of a source whose lane has ended. A lane that found nothing was refused memory: none is given up while sources
// are told.
fn tell_end<W: Write>(
    style: Style,
    name: &[u8],
    found: &Option<Found>,
    writer: &mut Counting<W>,
    told: &mut Told,
) -> Result<bool, Cause>
    requires room { HasRoom told.old }
    ensures { TellsEnd style.form name.now found.now (seen_by W.contents writer.old)
        (seen_by W.contents writer.new) told.old told.new result }
{
    match found {
        Some(found) => tell_found(style, name, found, writer, told),
        None => Err(Cause::Memory),
    }
}
