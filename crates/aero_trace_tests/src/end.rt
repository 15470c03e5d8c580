use crate::said::{Event, Given, ROWS, Said, TESTED, first_misanswered, first_missaid, run};
use aero_access::Clocks;
use aero_end::end;
use aero_engine::Spent;
use std::alloc::Global;

// Begins a block that is in no other.
fn begin(clocks: &mut Clocks, t: u32) -> Result<Option<u32>, Spent> {
    if clocks.closed().is_some() || clocks.in_block(t) || clocks.begins(t) == u32::MAX {
        return Err(Spent);
    }
    clocks.begin(t)
}

// Forks thread `u`, which has to have made no event.
fn fork(clocks: &mut Clocks, t: u32, u: u32) -> Result<Option<u32>, Spent> {
    if clocks.closed().is_some() || t == u || clocks.acted(u) {
        return Err(Spent);
    }
    clocks.fork(t, u)
}

// Joins thread `u`, which may have made no event.
fn join(clocks: &mut Clocks, t: u32, u: u32) -> Result<Option<u32>, Spent> {
    if clocks.closed().is_some() || t == u {
        return Err(Spent);
    }
    if clocks.acted(u) {
        return clocks.join(t, u);
    }
    clocks.plain(t)?;
    Ok(None)
}

impl Given for Clocks {
    fn fresh(alloc: Global) -> Self {
        Clocks::new(alloc)
    }

    fn make(&mut self, t: u32, event: Event) -> Result<Option<u32>, Spent> {
        if self.closed().is_some() {
            return Err(Spent);
        }
        match event {
            Event::Begin => begin(self, t),
            Event::End if self.in_block(t) => end(self, t),
            Event::End => Err(Spent),
            Event::Read(x) => self.read(t, x),
            Event::Write(x) => self.write(t, x),
            Event::Acquire(l) => self.acquire(t, l),
            Event::Release(l) => self.release(t, l),
            Event::Fork(u) => fork(self, t, u),
            Event::Join(u) => join(self, t, u),
        }
    }

    fn answered(&self) -> Option<u32> {
        self.closed()
    }

    fn said_of(&self, t: u32) -> Said {
        (self.in_block(t), self.acted(t), self.begins(t))
    }
}

#[test]
fn the_last_event_closes_a_cycle_or_none(rt: HostRuntime) {
    assert_eq!(rt; first_misanswered::<Clocks>(rt.alloc(), &ROWS), None);
}

#[test]
fn the_tests_answer_for_each_thread(rt: HostRuntime) {
    assert_eq!(rt; first_missaid::<Clocks>(rt.alloc(), &TESTED), None);
}

// Whether thread 0 leads to thread 1, the last write and the last read. These are listed, and thread 0 itself.
fn are_led(clocks: &Clocks) -> bool {
    clocks.in_block(0)
        && clocks.closed().is_none()
        && clocks.slots() == 4
        && clocks.leads(0, 1)
        && clocks.leads(0, 2)
        && clocks.leads(0, 3)
        && clocks.led(0) == 4
        && (clocks.led_slot(0, 0), clocks.led_slot(0, 1)) == (0, 1)
}

fn has_two_threads_and_two_last_events(clocks: &mut Clocks) -> bool {
    (clocks.threads(), clocks.slots()) == (0, 0)
        && run(clocks, "0|begin/0|w(0)/1|r(0)") == Ok(None)
        && (clocks.threads(), clocks.slots()) == (2, 4)
}

fn absorbs_thread_1(clocks: &mut Clocks) -> bool {
    clocks.in_block(0)
        && clocks.closed().is_none()
        && clocks.slots() == 4
        && clocks.absorb(0, 1) == Ok(None)
}

fn ends_its_block(clocks: &mut Clocks) -> bool {
    run(clocks, "0|end") == Ok(None)
        && !clocks.in_block(0)
        && clocks.acted(0)
        && clocks.begins(0) == 1
}

#[test]
fn slots_are_threads_and_then_last_events(rt: HostRuntime) {
    let mut clocks = Clocks::new(rt.alloc());
    assert!(rt;
        has_two_threads_and_two_last_events(&mut clocks)
            && are_led(&clocks)
            && absorbs_thread_1(&mut clocks)
            && ends_its_block(&mut clocks)
    );
}
