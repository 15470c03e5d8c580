use crate::said::{Event, Given, ROWS, Said, TESTED, first_misanswered, first_missaid};
use aero_engine::Spent;
use aero_leads::Leads;
use std::alloc::Global;

// Begins a block that is in no other.
fn begin(leads: &mut Leads, t: u32) -> Result<Option<u32>, Spent> {
    if leads.closed().is_some() || leads.in_block(t) || leads.begins(t) == u32::MAX {
        return Err(Spent);
    }
    leads.begin(t)
}

// Forks thread `u`, which has to have made no event.
fn fork(leads: &mut Leads, t: u32, u: u32) -> Result<Option<u32>, Spent> {
    if leads.closed().is_some() || t == u || leads.acted(u) {
        return Err(Spent);
    }
    leads.fork(t, u)
}

// Joins thread `u`, which may have made no event.
fn join(leads: &mut Leads, t: u32, u: u32) -> Result<Option<u32>, Spent> {
    if leads.closed().is_some() || t == u {
        return Err(Spent);
    }
    if leads.acted(u) {
        return leads.join(t, u);
    }
    leads.plain(t)?;
    Ok(None)
}

impl Given for Leads {
    fn fresh(alloc: Global) -> Self {
        Leads::new(alloc)
    }

    fn make(&mut self, t: u32, event: Event) -> Result<Option<u32>, Spent> {
        if self.closed().is_some() {
            return Err(Spent);
        }
        match event {
            Event::Begin => begin(self, t),
            Event::End if self.in_block(t) => self.end(t),
            Event::End => Err(Spent),
            Event::Read(x) => self.read(t, x),
            Event::Write(x) => self.write(t, x),
            Event::Acquire(l) => self.acquire(t, l),
            Event::Release(l) => self.release(t, l),
            Event::Fork(u) => fork(self, t, u),
            Event::Join(u) => join(self, t, u),
        }
    }

    fn answered(&self) -> Option<u32> {
        self.closed()
    }

    fn said_of(&self, t: u32) -> Said {
        (self.in_block(t), self.acted(t), self.begins(t))
    }
}

#[test]
fn the_last_event_closes_a_cycle_or_none(rt: HostRuntime) {
    assert_eq!(rt; first_misanswered::<Leads>(rt.alloc(), &ROWS), None);
}

#[test]
fn the_tests_answer_for_each_thread(rt: HostRuntime) {
    assert_eq!(rt; first_missaid::<Leads>(rt.alloc(), &TESTED), None);
}
