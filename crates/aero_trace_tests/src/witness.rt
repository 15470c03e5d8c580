//! What no run of the program does: a telling cycle is given by its visits, and a shorter one is asked for.
ghost use Rattle.std.specs.Prelude.{◌<◌, length};

use aero_model::{Numbered, What};
use aero_witness::{Visit, shorten};
use std::alloc::Global;

fn by(thread: u32, what: What) -> Numbered {
    Numbered { thread, what }
}

fn visit(enters: u32, leaves: u32) -> Visit {
    Visit { enters, leaves }
}

// How many visits the shorter cycle has, or 0 if the visits are no telling cycle.
fn shorter(alloc: Global, events: &[Numbered], visits: &[Visit]) -> Option<usize>
    requires { length events.now < 1000 }
{
    match shorten(alloc, events, visits).ok()? {
        Some(visits) => Some(visits.len()),
        None => Some(0),
    }
}

fn shorter_of(alloc: Global, events: &[Numbered], visits: &[Visit]) -> Option<usize> {
    if events.len() >= 1000 {
        return None;
    }
    shorter(alloc, events, visits)
}

#[test]
fn a_telling_cycle_is_shortened(rt: HostRuntime) {
    // Threads 1 and 2 write between a write and a read of thread 0's block.
    let events = [
        by(0, What::Begin(None)),
        by(0, What::Write(0)),
        by(1, What::Write(0)),
        by(2, What::Write(0)),
        by(0, What::Read(0)),
    ];
    let visits = [visit(4, 1), visit(2, 2), visit(3, 3)];
    assert_eq!(rt; shorter_of(rt.alloc(), &events, &visits), Some(2));
    // It doesn't come back.
    assert_eq!(rt; shorter_of(rt.alloc(), &events, &visits[..1]), Some(0));
}
