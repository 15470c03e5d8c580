//! What the calling thread and all lanes are handed.
use aero_intake::Plan;
use crossbeam_channel::Sender;
use std::alloc::Global;
use std::sync::atomic::AtomicBool;

// By which handle they wait, where their memory comes from, and the plan. The flag says that nothing more is of use of what
// a lane may find. A lane that ends sends the place of its source, counted from 0.
#[derive(Clone, Copy)]
pub(crate) struct Shared<'s, T> {
    pub(crate) rt: &'s T,
    pub(crate) alloc: Global,
    pub(crate) plan: &'s Plan,
    pub(crate) is_given_up: &'s AtomicBool,
    pub(crate) ends: &'s Sender<u64>,
}
