//! What of some arrivals is entered, and in which order.
ghost use Rattle.std.specs.Prelude.{◌≡◌, filter};
ghost use Rattle.std.specs.List.Sorted.{IsPermutation};
ghost use Rattle.aero_witness.specs.declared.buckets.Arrival.{Arrival};
ghost use Rattle.aero_witness.specs.Reached.{reached_at};
ghost use Rattle.aero_witness.specs.Chosen.{is_none, AreChosen};

use crate::buckets::Arrival;
use crate::reached::{Reached, reached_of};
use aero_model::{Numbered, What};

// Whether both events are accesses of one variable, one of which writes it.
fn is_by_variable(events: &[Numbered], arrival: &Arrival) -> bool {
    match (
        what_at(events, arrival.from),
        what_at(events, arrival.enters),
    ) {
        (Some(What::Write(x)), Some(What::Read(y) | What::Write(y))) => x == y,
        (Some(What::Read(x)), Some(What::Write(y))) => x == y,
        _ => false,
    }
}

fn what_at(events: &[Numbered], place: u32) -> Option<What> {
    match events.get(place as usize) {
        Some(event) => Some(event.what),
        None => None,
    }
}

fn is_new(reached: &[Option<Reached>], place: u32) -> bool
    ensures { result ≡ is_none (reached_at reached.now place) }
{
    match reached_of(reached, place) {
        Some(_) => false,
        None => true,
    }
}

// Without those that come in at a place that is reached.
fn drop_reached(reached: &[Option<Reached>], arrivals: &mut Vec<Arrival>)
    ensures { arrivals.new.items ≡
        filter (λ (c : Arrival). is_none (reached_at reached.now c.enters)) arrivals.old.items }
{
    arrivals.retain(|arrival| is_new(reached, arrival.enters));
}

// Conflicts of variables come first, since a reader is told more by them. Then they are in the order of the places at
// which a walk comes in, and of these from the same event on.
fn put_in_order(events: &[Numbered], arrivals: &mut Vec<Arrival>)
    ensures { IsPermutation arrivals.old.items arrivals.new.items }
{
    arrivals.sort_unstable_by_key(|arrival| (
        !is_by_variable(events, arrival),
        arrival.enters,
        arrival.from,
    ));
}

// Leaves those that come in at places that aren't reached, in order. The others lead to nothing new: such are all that
// stay in one transaction, and these can be nearly as many as the events.
pub(crate) fn choose(events: &[Numbered], reached: &[Option<Reached>], arrivals: &mut Vec<Arrival>)
    ensures { AreChosen reached.now arrivals.old.items arrivals.new.items }
{
    drop_reached(reached, arrivals);
    put_in_order(events, arrivals);
}
