//! Where the open blocks stand in one row, so that a row is gone through once.
ghost use Rattle.std.specs.Prelude.{◌≡◌, ◌==◌, ◌<◌, ℕ, OnOk, vec_len, slice_get, if◌then◌else◌};
ghost use Rattle.aero_leads.specs.Indexed.{place_of, place_in};

use std::alloc::{AllocError, Global};

/// A place for each thread. Only of the row that was entered last does it say anything.
#[derive(Drop)]
pub struct Index {
    pub places: Vec<usize>,
}

/// Nothing is entered.
pub(crate) fn no_row(alloc: Global) -> Index {
    Index {
        places: Vec::new(alloc),
    }
}

/// The place that was entered last for thread `w`, or 0.
pub(crate) fn place_at(index: &Index, w: u32) -> usize
    ensures { result ≡ place_of index.now w }
{
    match index.places.get(w as usize) {
        Some(place) => *place,
        None => 0,
    }
}

/// The open block of thread `w` stands at this place.
pub(crate) fn enter(index: &mut Index, w: u32, place: usize) -> Result<(), AllocError>
    ensures { OnOk result ((v : ℕ) →
        place_of index.new v ≡ (if v == w then place else place_of index.old v)) }
{
    reach(&mut index.places, w)?;
    index.places[w as usize] = place;
    Ok(())
}

fn reach(places: &mut Vec<usize>, w: u32) -> Result<(), AllocError>
    ensures room { OnOk result (w < vec_len places.new) }
    ensures same { (v : ℕ) → place_in (slice_get places.new.items v) ≡
        place_in (slice_get places.old.items v) }
{
    let at = w as usize;
    while places.len() <= at {
        places.push(0)?;
    }
    Ok(())
}
