//! A search, event by event, for what stands in the way of an ill-formed event.
ghost use Rattle.std.specs.Prelude.{◌≡◌, ℕ, List, [], ◌∷◌, ◌++◌, IfOk, IfSome, unwrap_or};
ghost use Rattle.aero_model.specs.Named.{Named};
ghost use Rattle.aero_faults.specs.Hindrances.{Hinders};
ghost use Rattle.aero_faults.specs.Searches.{IsSeen, HasSeen, target_of as target_in, seen_at_first, by_holder as of_holder, by_join as of_join, by_deed as of_deed, by_start as of_start, by_blocks as of_blocks, by_itself as of_itself, hindrance_in};

use crate::deeds::{is_acquire_of, is_fork_of, is_join_of, is_release_of};
use crate::first::{Deed, FirstDeed, Sought, first_after};
use crate::hindrance::Hindrance;
use crate::holder::{Holder, Holding};
use crate::opened::opened_after;
use aero_model::{Event, Op, ShapeFault};
use std::alloc::{AllocError, Global};

/// A search for what stands in the way of an event that has this fault. It is handed the events
/// before it, one by one, and keeps the same few bytes of them however many there are.
#[derive(Drop)]
pub struct Search {
    fault: ShapeFault,
    event: Event,
    seen: Seen,
}

// What was seen of the events before, of what may explain the fault.
#[derive(Drop)]
enum Seen {
    Lock(Holder),
    Joins(Option<FirstDeed>),
    Starts(Option<FirstDeed>),
    // So many blocks are open, or an end was seen where none was.
    Blocks(Option<u64>),
    // The event explains itself.
    Nothing,
}

impl Search {
    /// A search that has seen no event yet.
    pub fn new(fault: ShapeFault, event: Event) -> Search
        ensures seen { HasSeen result [] }
        ensures fault { result.fault ≡ fault }
        ensures event { result.event ≡ event }
        ensures first { result.seen ≡ seen_at_first fault }
    {
        Search {
            fault,
            event,
            seen: Seen::at_first(fault),
        }
    }

    /// Sees the next of the events before, on this line.
    ///
    /// # Errors
    ///
    /// `AllocError` where memory is refused, to a name of more than 16 bytes.
    pub fn see(self, alloc: Global, line: u32, event: &Event) -> Result<Search, AllocError>
        ensures seen { IfOk result (λ search. (before : List (ℕ × Named)) → HasSeen self before →
            HasSeen search (before ++ (line, event.now) ∷ [])) }
        ensures fault { IfOk result (λ search. search.fault ≡ self.fault) }
        ensures event { IfOk result (λ search. search.event ≡ self.event) }
    {
        let Search {
            fault,
            event: sought,
            seen,
        } = self;
        let seen = seen.after(alloc, &sought, line, event)?;
        Ok(Search {
            fault,
            event: sought,
            seen,
        })
    }

    /// What stands in the event's way after all that was seen, where that explains the fault, and the
    /// event.
    pub fn finish(self) -> (Event, Option<Hindrance>)
        ensures event { result.0 ≡ self.event }
        ensures value { result.1 ≡ hindrance_in self.fault self.event self.seen }
        ensures hinders { IfSome result.1 (λ hindrance. (before : List (ℕ × Named)) →
            HasSeen self before → Hinders before self.event self.fault hindrance) }
    {
        let Search { fault, event, seen } = self;
        let hindrance = seen.hindrance(fault, &event);
        (event, hindrance)
    }
}

impl Seen {
    // Before any event.
    fn at_first(fault: ShapeFault) -> Seen
        ensures { result ≡ seen_at_first fault }
    {
        match fault {
            ShapeFault::LockHeldByOther | ShapeFault::LockNotHeld => Seen::Lock(Holder::Nobody),
            ShapeFault::ThreadJoined => Seen::Joins(None),
            ShapeFault::ForkStarted => Seen::Starts(None),
            ShapeFault::EndWithoutBegin => Seen::Blocks(Some(0)),
            _ => Seen::Nothing,
        }
    }

    // After one event more, in a search for what hinders the one that is sought.
    fn after(
        self,
        alloc: Global,
        sought: &Event,
        line: u32,
        event: &Event,
    ) -> Result<Seen, AllocError>
        ensures { IfOk result (λ seen. (before : List (ℕ × Named)) → IsSeen sought.now before self →
            IsSeen sought.now (before ++ (line, event.now) ∷ []) seen) }
    {
        let thread = sought.thread.bytes();
        match self {
            Seen::Lock(holder) => {
                let holder = holder.after(alloc, target_of(sought), line, event)?;
                Ok(Seen::Lock(holder))
            }
            Seen::Joins(first) => {
                let first = first_after(alloc, first, Sought::Joins, thread, line, event)?;
                Ok(Seen::Joins(first))
            }
            Seen::Starts(first) => {
                let target = target_of(sought);
                let first = first_after(alloc, first, Sought::Starts, target, line, event)?;
                Ok(Seen::Starts(first))
            }
            Seen::Blocks(count) => {
                let count = opened_after(count, thread, line, event)?;
                Ok(Seen::Blocks(count))
            }
            Seen::Nothing => Ok(Seen::Nothing),
        }
    }

    // What it says of an event with this fault.
    fn hindrance(self, fault: ShapeFault, event: &Event) -> Option<Hindrance>
        ensures { result ≡ hindrance_in fault event.now self }
    {
        match self {
            Seen::Lock(holder) => by_holder(fault, event, holder),
            Seen::Joins(first) => by_join(fault, first),
            Seen::Starts(first) => by_start(fault, event, first),
            Seen::Blocks(count) => by_blocks(fault, event, count),
            Seen::Nothing => by_itself(fault, event),
        }
    }
}

/// What the event is about: its target, or nothing.
pub fn target_of(event: &Event) -> &[u8]
    ensures { result.now ≡ target_in event.now }
{
    match &event.target {
        Some(target) => target.bytes(),
        None => &[],
    }
}

// Who holds the lock that the event is about, where that explains the fault.
fn by_holder(fault: ShapeFault, event: &Event, holder: Holder) -> Option<Hindrance>
    ensures { result ≡ of_holder fault event.now holder }
{
    match holder {
        Holder::Nobody => by_nobody(fault, event),
        Holder::Thread(holding) => by_thread(fault, event, holding),
        Holder::Unclear => None,
    }
}

fn by_nobody(fault: ShapeFault, event: &Event) -> Option<Hindrance>
    ensures { result ≡ of_holder fault event.now Holder.Nobody }
{
    if matches!(fault, ShapeFault::LockNotHeld) && is_release_of(event, target_of(event)) {
        Some(Hindrance::Free)
    } else {
        None
    }
}

fn by_thread(fault: ShapeFault, event: &Event, holding: Holding) -> Option<Hindrance>
    ensures { result ≡ of_holder fault event.now (Holder.Thread holding) }
{
    let is_about = match fault {
        ShapeFault::LockHeldByOther => is_acquire_of(event, target_of(event)),
        ShapeFault::LockNotHeld => is_release_of(event, target_of(event)),
        _ => false,
    };
    let Holding { thread, line, .. } = holding;
    if is_about && thread.bytes() != event.thread.bytes() {
        Some(Hindrance::Held { thread, line })
    } else {
        None
    }
}

fn by_join(fault: ShapeFault, first: Option<FirstDeed>) -> Option<Hindrance>
    ensures { result ≡ of_join fault first }
{
    match (fault, first) {
        (ShapeFault::ThreadJoined, Some(first)) => Some(joined(first)),
        _ => None,
    }
}

fn joined(first: FirstDeed) -> Hindrance
    ensures { result ≡ Hindrance.Joined first.thread first.line }
{
    let FirstDeed { thread, line, .. } = first;
    Hindrance::Joined { thread, line }
}

// The first event of the thread that the event forks.
fn by_start(fault: ShapeFault, event: &Event, first: Option<FirstDeed>) -> Option<Hindrance>
    ensures { result ≡ of_start fault event.now first }
{
    let first = first?;
    if matches!(fault, ShapeFault::ForkStarted) && is_fork_of(event, target_of(event)) {
        Some(by_deed(first))
    } else {
        None
    }
}

fn by_deed(first: FirstDeed) -> Hindrance
    ensures { result ≡ of_deed first first.deed }
{
    match first.deed {
        Deed::Acted => Hindrance::Acted { line: first.line },
        Deed::Forked => Hindrance::Forked { line: first.line },
        Deed::Joined => joined(first),
    }
}

fn by_blocks(fault: ShapeFault, event: &Event, count: Option<u64>) -> Option<Hindrance>
    ensures { result ≡ of_blocks fault event.now count }
{
    let count = count?;
    if matches!(fault, ShapeFault::EndWithoutBegin) && matches!(event.op, Op::End) && count == 0 {
        Some(Hindrance::NoneOpen)
    } else {
        None
    }
}

// The event forks or joins its own thread.
fn by_itself(fault: ShapeFault, event: &Event) -> Option<Hindrance>
    ensures { result ≡ of_itself fault event.now }
{
    let thread = event.thread.bytes();
    let is_own = match fault {
        ShapeFault::ForkSelf => is_fork_of(event, thread),
        ShapeFault::JoinSelf => is_join_of(event, thread),
        _ => false,
    };
    if is_own {
        Some(Hindrance::Itself)
    } else {
        None
    }
}
