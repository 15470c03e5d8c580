//! What is noted of a source beside its line.
ghost use Rattle.std.specs.Prelude.{◌≡◌};
ghost use Rattle.aero_telling.specs.Notables.{notable_of as notable_in, verdict_notable as verdict_notable_in};

use aero_model::{Finding, LineFault, ShapeFault, Verdict};

/// What is wrong with a line: it is no event, or its event can't stand there.
#[derive(Clone, Copy, Debug, PartialEq, Eq)]
pub enum Fault {
    Malformed(LineFault),
    IllFormed(ShapeFault),
}

/// The faulty line of a source: its number, from 1, and what is wrong with it.
#[derive(Clone, Copy, Debug, PartialEq, Eq)]
pub struct FaultyLine {
    pub line: u32,
    pub fault: Fault,
}

/// What a run notes of a source beside its line in the report.
#[derive(Clone, Copy, Debug, PartialEq, Eq)]
pub enum Notable {
    /// This line is faulty, and so the verdict says.
    Faulty(FaultyLine),
    /// The source is serializable, and there was no block to check: none begins, or each has a label that is left out.
    Unchecked,
}

// What is noted of a source of which this was found.
pub(crate) fn notable_of(finding: &Finding) -> Option<Notable>
    ensures { result ≡ notable_in finding.now }
{
    match finding.verdict() {
        Some(verdict) => verdict_notable(verdict),
        None => None,
    }
}

fn verdict_notable(verdict: &Verdict) -> Option<Notable>
    ensures { result ≡ verdict_notable_in verdict.now }
{
    match verdict {
        Verdict::Malformed { line, fault } => Some(Notable::Faulty(FaultyLine {
            line: *line,
            fault: Fault::Malformed(*fault),
        })),
        Verdict::IllFormed { line, fault } => Some(Notable::Faulty(FaultyLine {
            line: *line,
            fault: Fault::IllFormed(*fault),
        })),
        Verdict::Serializable { blocks: 0, .. } => Some(Notable::Unchecked),
        _ => None,
    }
}
