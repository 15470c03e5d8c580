//! A verdict as numbers.
ghost use Rattle.std.specs.Prelude.{◌≡◌};
ghost use Rattle.aero_c.specs.Numbers.{numbers_of};

use aero_model::Verdict;

/// The kind of a verdict, from 0: serializable, blocks open, violation, malformed, ill-formed. Then its numbers, of
/// which those are 0 that it doesn't have. Lines count from 1.
#[repr(C)]
#[derive(Clone, Copy)]
pub struct Numbers {
    pub kind: u32,
    pub line: u32,
    pub begun: u32,
    pub events: u32,
    pub blocks: u32,
    pub open_blocks: u32,
}

// The verdict as numbers.
pub(crate) fn in_numbers(verdict: &Verdict) -> Numbers
    ensures { result ≡ numbers_of verdict.now }
{
    match verdict {
        Verdict::Serializable { events, blocks } => counts(0, *events, *blocks, 0),
        Verdict::Pending {
            events,
            blocks,
            pending,
        } => counts(1, *events, *blocks, *pending),
        Verdict::Violation {
            line,
            thread: _,
            begun,
        } => lines(2, *line, *begun),
        Verdict::Malformed { line, fault: _ } => lines(3, *line, 0),
        Verdict::IllFormed { line, fault: _ } => lines(4, *line, 0),
    }
}

fn counts(kind: u32, events: u32, blocks: u32, open_blocks: u32) -> Numbers
    ensures { result ≡ record {
      kind = kind;
      line = 0;
      begun = 0;
      events = events;
      blocks = blocks;
      open_blocks = open_blocks;
    } }
{
    Numbers {
        kind,
        line: 0,
        begun: 0,
        events,
        blocks,
        open_blocks,
    }
}

fn lines(kind: u32, line: u32, begun: u32) -> Numbers
    ensures { result ≡ record {
      kind = kind;
      line = line;
      begun = begun;
      events = 0;
      blocks = 0;
      open_blocks = 0;
    } }
{
    Numbers {
        kind,
        line,
        begun,
        events: 0,
        blocks: 0,
        open_blocks: 0,
    }
}
