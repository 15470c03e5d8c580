//! What stands between two steps of a run.
use crate::underway::Underway;
use aero_telling::Told;

/// How far a run is, and what was told in it.
#[derive(Drop)]
pub struct Standing {
    pub underway: Underway,
    pub told: Told,
}
