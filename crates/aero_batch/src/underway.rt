//! How far a run is.
ghost use Rattle.std.specs.Prelude.{◌≡◌, replicate, IfOk};
ghost use Rattle.aero_intake.specs.Held.{nothing_read};
ghost use Rattle.aero_intake.specs.PlanTerms.{terms_of};
ghost use Rattle.aero_batch.specs.Steps.{IsStart};

use crate::inquiry::Inquiry;
use aero_intake::track::{Knowledge, Track};
use aero_intake::{Intake, Plan};
use aero_model::Ending;
use std::alloc::{AllocError, Global};

/// How far a run is. The sources are read one after the other, and their verdicts are asked for in
/// the same order.
#[derive(Drop)]
pub struct Underway {
    pub inquiry: Inquiry,
    /// What is known of each source.
    pub tracks: Vec<Track>,
    /// How many sources have ended. The next one is being read.
    pub read: usize,
    /// Of how many sources the verdict was asked for, where they need one.
    pub checked: usize,
    /// The source that is being read, and how many of its chunks were asked about.
    pub intake: Intake,
    pub chunks: u64,
    /// How its reading has ended, where it has: what is held is still to be cut then.
    pub ended: Option<Ending>,
}

impl Underway {
    /// Nothing is read yet of so many sources. Where nobody helps, nothing is posted.
    pub fn new(
        alloc: Global,
        plan: &Plan,
        sources: usize,
        is_alone: bool,
    ) -> Result<Underway, AllocError>
        ensures { IfOk result (IsStart (terms_of plan.now) sources) }
    {
        Ok(Underway {
            inquiry: Inquiry::new(alloc, is_alone)?,
            tracks: new_tracks(alloc, plan, sources)?,
            read: 0,
            checked: 0,
            intake: Intake::new(alloc, plan.piece)?,
            chunks: 0,
            ended: None,
        })
    }
}

// Nothing is known yet of so many sources, which are judged on the plan's terms.
fn new_tracks(alloc: Global, plan: &Plan, sources: usize) -> Result<Vec<Track>, AllocError>
    ensures { IfOk result (λ tracks. tracks.items ≡
        replicate sources (Track.Arriving (nothing_read (terms_of plan.now)))) }
{
    let mut tracks = Vec::with_capacity(alloc, sources)?;
    for i in 0..sources {
        tracks.push(Track::Arriving(Knowledge::new(alloc, plan.terms.share()?)))?;
    }
    Ok(tracks)
}
