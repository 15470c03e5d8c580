//! What each step of a run is handed.
use aero_intake::Plan;
use std::alloc::Global;

/// By which handle a run waits, where its memory comes from, and its plan.
#[derive(Drop)]
pub struct Setting<'a, T> {
    pub rt: &'a T,
    pub alloc: Global,
    pub plan: &'a Plan,
}
