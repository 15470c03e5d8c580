//! Room for so many sources.
ghost use Rattle.std.specs.Prelude.{◌≡◌, ◌≤◌, [], vec_len, vec_capacity, IfOk};
ghost use Rattle.aero_lanes.specs.Seats.{AreSeated, AreBack, waiting};
ghost use Rattle.aero_lanes.specs.Tellings.{IsBegunSo};
ghost use Rattle.aero_model.specs.Terms.{Terms};

use crate::seat::{Seat, source_of};
use aero_intake::{Followed, SourceOf};
use aero_model::Except;
use aero_telling::told::Told;
use crossbeam_channel::{Receiver, Sender};
use std::alloc::{AllocError, Global};
use std::thread::Threads;

// The seats, what is told of the sources on them, the sources that come back, and the channel on which lanes say that they
// have ended.
#[derive(Drop)]
pub(crate) struct Room<R: Followed> {
    pub(crate) seats: Vec<Seat<R>>,
    pub(crate) told: Told,
    pub(crate) back: Vec<SourceOf<R>>,
    pub(crate) ends: Receiver<u64>,
}

// Room for so many sources and for what is told of the labels, and the lanes' end of the channel. The calling thread asks for no more memory, but to tell what
// was found.
pub(crate) fn room_for<R: Followed + Drop>(
    alloc: Global,
    sources: usize,
    except: &Except,
) -> Result<(Room<R>, Sender<u64>), AllocError>
    requires { sources ≤ 65536 }
    ensures seats { IfOk result (λ made. (made.0.seats.items ≡ []) ×
        (vec_capacity made.0.seats ≡ sources)) }
    ensures told { IfOk result (λ made. IsBegunSo except.now.labels sources made.0.told) }
    ensures back { IfOk result (λ made. (made.0.back.items ≡ []) ×
        (vec_capacity made.0.back ≡ sources)) }
{
    let seats = Vec::with_capacity(alloc, sources)?;
    let told = Told::new(alloc, sources, except)?;
    let back = Vec::with_capacity(alloc, sources)?;
    let (sender, ends) = crossbeam_channel::bounded(alloc, sources)?;
    let room = Room {
        seats,
        told,
        back,
        ends,
    };
    Ok((room, sender))
}

// Gives each source its seat, in their order.
pub(crate) fn seat_all<R: Followed + Drop>(seats: &mut Vec<Seat<R>>, sources: Vec<SourceOf<R>>)
    requires none { seats.old.items ≡ [] }
    requires room { vec_capacity seats.old ≡ vec_len sources }
    ensures { seats.new.items ≡ waiting sources.items }
{
    for source in sources {
        seats.push_reserved(Seat::Waiting(source));
    }
}

// The sources in their order, each once its lane has ended.
pub(crate) fn all_back<R: Followed + Drop, T: Threads>(
    rt: &T,
    seats: Vec<Seat<R>>,
    mut back: Vec<SourceOf<R>>,
) -> Vec<SourceOf<R>>
    requires none { back.items ≡ [] }
    requires room { vec_capacity back ≡ vec_len seats }
    ensures { (terms : Terms) (origin : _) → AreSeated R.sight terms origin seats.items →
        AreBack R.sight origin seats.items result.items }
{
    for seat in seats {
        if let Some(source) = source_of(rt, seat) {
            back.push_reserved(source);
        }
    }
    back
}
