//! Faults, verdicts and findings, and how many there were of each kind.
use crate::event::Event;
use crate::name::Name;
use crate::words::{line_words, shape_words};
use thiserror::Error;

/// Why a line has no event, in the order of the checks.
#[derive(Clone, Copy, Debug, PartialEq, Eq, Error)]
#[error("{}", line_words(*self))]
pub enum LineFault {
    TooLong,
    BadByte,
    NoOperation,
    EmptyThread,
    UnknownOperation,
    BadParenthesis,
    MissingTarget,
    NameTooLong,
    TooManyLines,
    Memory,
}

/// Why a trace isn't well-formed at an event, in the order of the checks.
#[derive(Clone, Copy, Debug, PartialEq, Eq, Error)]
#[error("{}", shape_words(*self))]
pub enum ShapeFault {
    TooManyThreads,
    TooManyNames,
    ThreadJoined,
    LockHeldByOther,
    LockNotHeld,
    ForkSelf,
    ForkStarted,
    JoinSelf,
    EndWithoutBegin,
    Memory,
}

/// What is said of a trace. Line numbers count from 1. `events` counts the events, and `blocks` the
/// outermost begins. A fault is the trace's own: `check_trace`, which makes verdicts, promises that
/// none is `Memory`.
#[derive(Drop)]
pub enum Verdict {
    /// Every line and every event is in order, every block has ended, and no violation is found.
    Serializable {
        events: u32,
        blocks: u32,
    },
    /// The same, but so many blocks are still open.
    Pending {
        events: u32,
        blocks: u32,
        pending: u32,
    },
    /// With the event on this line a cycle closes that begins in the open block of this thread.
    /// Its outermost begin stands on line `begun`.
    Violation {
        line: u32,
        thread: Name,
        begun: u32,
    },
    /// The first malformed line stands before anything else that is wrong.
    Malformed {
        line: u32,
        fault: LineFault,
    },
    /// The first ill-formed event stands on this line, before anything else that is wrong.
    IllFormed {
        line: u32,
        fault: ShapeFault,
    },
}

/// A transaction in a serial order: the line of its first event, from 1, and the thread that made it.
#[derive(Drop)]
pub struct Step {
    pub line: u32,
    pub thread: Name,
}

/// An event of a telling cycle: its line, the line of the first event of its transaction, both from 1, and what it says.
#[derive(Drop)]
pub struct CycleStep {
    pub line: u32,
    pub first: u32,
    pub event: Event,
}

/// What a transaction of a telling cycle is.
#[derive(Drop)]
pub enum Extent {
    /// An event by itself, outside all blocks that are transactions.
    Alone,
    /// A block: its label, if it has one, and the line of its end, if it has ended by the closing event.
    Block {
        label: Option<Name>,
        end: Option<u32>,
    },
}

/// A transaction of a telling cycle: the line of its first event, from 1, the thread that made it, and what it is.
#[derive(Drop)]
pub struct CycleTransaction {
    pub first: u32,
    pub thread: Name,
    pub extent: Extent,
}

/// What shows a violation: the label of the block that the verdict names, if it has one, and the events of a telling
/// cycle that begins in it, in the order in which it is gone round. With them stand the transactions through which it
/// goes, in the same order, that block first, and the event that closes it.
#[derive(Drop)]
pub struct Cycle {
    pub label: Option<Name>,
    pub steps: Vec<CycleStep>,
    pub transactions: Vec<CycleTransaction>,
    pub closing: Event,
}

/// A block that is open at the end of a trace: the line of its outermost begin, from 1, its thread, and its label, if it
/// has one.
#[derive(Drop)]
pub struct OpenBlock {
    pub line: u32,
    pub thread: Name,
    pub label: Option<Name>,
}

/// How the reading of a source ended: at its end, at a read that failed, at one byte more than may come, or, where a
/// run stops early, once the verdict was certain.
#[derive(Clone, Copy, Debug, PartialEq, Eq)]
pub enum Ending {
    Whole,
    Broken,
    TooLarge,
    Stopped,
}

/// What is said of a source: the verdict on its trace, or how many bytes came before a read failed,
/// or that there were too many.
#[derive(Drop)]
pub enum Finding {
    Judged(Verdict),
    /// The verdict, which is `Serializable`, and the transactions in the serial order.
    Ordered(Verdict, Vec<Step>),
    /// The verdict, which is `Violation`, and a telling cycle.
    Explained(Verdict, Cycle),
    /// The verdict, which is `Pending`, and the open blocks in the order of their lines, of over 64 the first 64.
    Opened(Verdict, Vec<OpenBlock>),
    Broken(u64),
    TooLarge,
}

impl Finding {
    ghost use Rattle.std.specs.Prelude.{◌≡◌, None, Some, IfNone, IfSome};
    ghost use Rattle.aero_model.specs.Verdicts.{verdict_of};

    /// The verdict on the trace of the source, or `None` if its bytes didn't come whole.
    pub fn verdict(&self) -> Option<&Verdict>
        ensures some { IfSome result (λ verdict. verdict_of self.now ≡ Some verdict.now) }
        ensures none { IfNone result (verdict_of self.now ≡ None) }
    {
        match self {
            Finding::Judged(verdict) => Some(verdict),
            Finding::Ordered(verdict, _) => Some(verdict),
            Finding::Explained(verdict, _) => Some(verdict),
            Finding::Opened(verdict, _) => Some(verdict),
            Finding::Broken(_) | Finding::TooLarge => None,
        }
    }
}

/// How many sources were found to be what.
#[derive(Clone, Copy, Debug, PartialEq, Eq)]
pub struct Counts {
    pub serializable: u64,
    pub pending: u64,
    pub violations: u64,
    pub faults: u64,
}

impl Counts {
    ghost use Rattle.std.specs.Prelude.{◌≡◌, ◌<◌, ◌+◌, ◌-◌, ◌^◌};
    ghost use Rattle.aero_model.specs.Verdicts.{counted, counted_verdict, no_counts, total};

    /// No source is counted yet.
    pub fn none() -> Counts
        ensures { result ≡ no_counts }
    {
        Counts {
            serializable: 0,
            pending: 0,
            violations: 0,
            faults: 0,
        }
    }

    /// The counts with one more source, of which this was found. A source whose bytes didn't come whole counts as a fault.
    /// Together they count fewer than 2^64 - 1 sources.
    pub fn with(&self, finding: &Finding) -> Counts
        requires { total self.now < 2 ^ 64 - 1 }
        ensures counts { result ≡ counted self.now finding.now }
        ensures total { total result ≡ total self.now + 1 }
    {
        match finding.verdict() {
            Some(verdict) => self.with_verdict(verdict),
            None => Counts {
                faults: self.faults + 1,
                ..*self
            },
        }
    }

    fn with_verdict(&self, verdict: &Verdict) -> Counts
        requires { total self.now < 2 ^ 64 - 1 }
        ensures counts { result ≡ counted_verdict self.now verdict.now }
        ensures total { total result ≡ total self.now + 1 }
    {
        let mut counts = *self;
        match verdict {
            Verdict::Serializable { .. } => counts.serializable += 1,
            Verdict::Pending { .. } => counts.pending += 1,
            Verdict::Violation { .. } => counts.violations += 1,
            Verdict::Malformed { .. } | Verdict::IllFormed { .. } => counts.faults += 1,
        }
        counts
    }
}
