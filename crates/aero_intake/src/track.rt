//! What is known of a source while it is worked on.
ghost use Rattle.std.specs.Prelude.{◌≡◌, ◌||◌, length, true, OnOk, IfOk, ◌↔◌, IsTrue};
ghost use Rattle.std.specs.List.{list_all};
ghost use Rattle.aero_intake.specs.Begun.{begins_in};
ghost use Rattle.aero_intake.specs.Held.{decides, nothing_read, with_next, IsBasis, IsFinal};
ghost use Rattle.aero_intake.specs.Surveys.{IsSaidOf};
ghost use Rattle.aero_intake.specs.Tracks.{with_part, with_finding, with_value, with_arrival, certain_of, is_faulty, is_told, is_told_of, IsDecided, IsReady};
ghost use Rattle.aero_intake.specs.Tracks.{TakesArrival, GivesParts};

use crate::begun::Begun;
use crate::found::Found;
use crate::held::{Basis, Held, add_to, basis_of, held_count, is_certain, nothing_held};
use crate::survey::Survey;
use aero_grammar::Parsed;
use aero_model::{Ending, Finding, Terms};
use aero_pieces::{Parts, Value};
use std::alloc::{AllocError, Global};
use std::marker::Model;
use std::mem;

/// On what terms a source is judged, and what its first chunks say, in their order.
#[derive(Drop)]
pub struct Knowledge {
    terms: Terms,
    held: Held,
    survey: Survey,
}

impl Model for Knowledge {
    ghost use Rattle.aero_intake.specs.Held.{Known};

    ghost Value = { Known };

    ghost use Rattle.aero_intake.specs.Held.{parts_in, live_in, certain_in, CountsEvents, FitsTerms};

    ghost view = { λ r. record { terms = r.terms; parts = parts_in r.held; live = live_in r.held; certain = certain_in r.held } };

    ghost use Rattle.aero_intake.specs.Surveys.{IsSurveyOf};

    ghost invariant = { λ r. record {
      fits : FitsTerms r.terms r.held;
      counted : CountsEvents r.held;
      survey : IsSurveyOf r.terms.rules.labels.labels (parts_in r.held) r.survey;
    } };
}

impl Knowledge {
    /// Nothing is read yet of a source that is judged on these terms.
    pub fn new(alloc: Global, terms: Terms) -> Knowledge
        ensures { result ≡ nothing_read terms }
    {
        Knowledge {
            terms,
            held: nothing_held(alloc),
            survey: Survey::none(alloc),
        }
    }

    /// Adds what the next chunk says. At most so many events are kept: once more have come the source is live.
    /// An `AllocError` says that memory was refused.
    pub fn add(&mut self, alloc: Global, part: Parsed, most: u64) -> Result<(), AllocError>
        ensures { OnOk result (self.new ≡ with_next most self.new.certain self.old part) }
    {
        let added = match self.survey.add(alloc, self.terms.except(), &part) {
            Ok(()) => add_to(&mut self.held, alloc, part, &self.terms, most),
            Err(refused) => Err(refused),
        };
        if added.is_err() {
            self.held = nothing_held(alloc);
            self.survey = Survey::none(alloc);
        }
        added
    }

    /// Whether it is known that they decide, whatever chunks come after them: a line of them is malformed, or they
    /// have more lines than may be, or they are judged as they come, the verdict is certain, and a block begins with each
    /// label that is listed, or the source is read no further than it must be.
    pub fn decide(&self) -> bool
        ensures told { result ≡ is_told_of self.now }
        ensures faulty { decides self.now.terms.rules.limits self.now.parts ≡ true → IsTrue result }
        ensures decisive { IsTrue result → IsFinal self.now.terms self.now.parts }
    {
        self.have_fault() || is_certain(&self.held) && self.need_no_label()
    }

    // Whether a line of them is malformed, or they have more lines than may be.
    fn have_fault(&self) -> bool
        ensures { result ≡ decides self.now.terms.rules.limits self.now.parts }
    {
        self.survey.is_faulty(self.terms.limits())
    }

    // Whether a block begins with each label that is listed, or nothing is told of the labels.
    fn need_no_label(&self) -> bool
        ensures { result ≡ (self.now.terms.stop ||
            list_all (begins_in self.now.parts) self.now.terms.rules.labels.labels) }
    {
        self.terms.stop() || self.survey.has_all(self.terms.except())
    }

    pub fn len(&self) -> u64
        ensures { result ≡ length self.now.parts }
    {
        held_count(&self.held)
    }

    /// What a source that has come, and ended so, is judged by, and which listed labels begin a block of it: nothing, where
    /// sources are read no further than they must be. An `AllocError` says that memory was refused.
    pub fn into_basis(self, ending: Ending) -> Result<(Basis, Option<Begun>), AllocError>
        ensures basis { IfOk result (λ given. IsBasis self.parts self.terms given.0) }
        ensures begun { IfOk result (λ given. IsSaidOf self.terms self.parts ending given.1) }
    {
        let Knowledge {
            terms,
            held,
            survey,
        } = self;
        let begun = match ending {
            Ending::Whole => survey.into_begun(&terms),
            Ending::Broken | Ending::TooLarge | Ending::Stopped => None,
        };
        Ok((basis_of(held, &terms)?, begun))
    }
}

/// How far a source is.
#[derive(Drop)]
pub enum Track {
    /// Its bytes are coming, or are still to come. This is what its first chunks say.
    Arriving(Knowledge),
    /// It is whole, or is read no further: so many bytes came, they ended so, and so many of its chunks were asked about.
    Arrived {
        bytes: u64,
        ending: Ending,
        chunks: u64,
        known: Knowledge,
    },
    /// The chunks that were asked about were read, and the verdict is asked for. So many bytes came, they ended so, and these
    /// labels begin a block.
    Checking {
        bytes: u64,
        ending: Ending,
        begun: Option<Begun>,
    },
    /// This was found.
    Found(Found),
}

/// Gives a value to the track of its source, of which so many events are kept at most. What is of no use any more is
/// dropped. An `AllocError` says that memory was refused.
pub fn take_value(
    track: &mut Track,
    alloc: Global,
    value: Value,
    most: u64,
) -> Result<(), AllocError>
    ensures { OnOk result (track.new ≡ with_value most (certain_of track.new) track.old value) }
{
    match value {
        Value::Parsed(part) => take_part(track, alloc, part, most),
        Value::Judged(verdict) => {
            take_finding(track, Finding::Judged(verdict));
            Ok(())
        }
        Value::Ordered(verdict, steps) => {
            take_finding(track, Finding::Ordered(verdict, steps));
            Ok(())
        }
        Value::Explained(verdict, cycle) => {
            take_finding(track, Finding::Explained(verdict, cycle));
            Ok(())
        }
        Value::Opened(verdict, blocks) => {
            take_finding(track, Finding::Opened(verdict, blocks));
            Ok(())
        }
    }
}

fn take_part(track: &mut Track, alloc: Global, part: Parsed, most: u64) -> Result<(), AllocError>
    ensures { OnOk result (track.new ≡ with_part most (certain_of track.new) track.old part) }
{
    match track {
        Track::Arriving(known) => known.add(alloc, part, most),
        Track::Arrived { known, .. } => known.add(alloc, part, most),
        Track::Checking { .. } | Track::Found(_) => Ok(()),
    }
}

fn take_finding(track: &mut Track, finding: Finding)
    ensures { track.new ≡ with_finding track.old finding }
{
    let (bytes, ending, begun) = match track {
        Track::Checking {
            bytes,
            ending,
            begun,
        } => (*bytes, *ending, begun.take()),
        _ => return,
    };
    *track = Track::Found(Found {
        bytes,
        ending,
        finding,
        begun,
    });
}

// A track that stands only while another one changes.
fn nothing_known() -> Track {
    Track::Checking {
        bytes: 0,
        ending: Ending::Broken,
        begun: None,
    }
}

/// Notes that a source has come, whole or as far as it is read: that so many bytes came, that they ended so, and that so
/// many of its chunks were asked about.
pub fn arrive(track: &mut Track, bytes: u64, ending: Ending, chunks: u64)
    ensures { track.new ≡ with_arrival track.old bytes ending chunks }
{
    *track = match mem::replace(track, nothing_known()) {
        Track::Arriving(known) => Track::Arrived {
            bytes,
            ending,
            chunks,
            known,
        },
        other => other,
    };
}

/// Whether nothing more is awaited before the source can be checked, or can be told.
pub fn is_ready(track: &Track) -> bool
    ensures { IsTrue result ↔ IsReady track.now }
{
    match track {
        Track::Arrived { chunks, known, .. } => known.len() == *chunks,
        Track::Found(_) => true,
        _ => false,
    }
}

/// Whether it is known that what was read of a source that is still coming decides what is to be said of it, unless
/// its bytes end otherwise than whole: no later chunk of it counts.
pub fn is_decided(track: &Track) -> bool
    ensures told { result ≡ is_told track.now }
    ensures faulty { is_faulty track.now ≡ true → IsTrue result }
    ensures decided { IsTrue result → IsDecided track.now }
{
    match track {
        Track::Arriving(known) => known.decide(),
        Track::Arrived { .. } | Track::Checking { .. } | Track::Found(_) => false,
    }
}

/// Takes what the chunks of a source that has come say that were asked about, where that is what its verdict
/// is to be asked for. Where the source was judged as they came, it is noted what is found of it. An `AllocError`
/// says that memory was refused.
pub fn take_parts(track: &mut Track) -> Result<Option<Parts>, AllocError>
    ensures { IfOk result (GivesParts track.old track.new) }
{
    let Some(
        Arrival {
            bytes,
            ending,
            known,
        },
    ) = take_arrival(track)
    else {
        return Ok(None);
    };
    let (basis, begun) = known.into_basis(ending)?;
    match basis {
        Basis::ByParts(parts) => {
            *track = Track::Checking {
                bytes,
                ending,
                begun,
            };
            Ok(Some(parts))
        }
        Basis::Already(finding) => {
            *track = Track::Found(Found {
                bytes,
                ending,
                finding,
                begun,
            });
            Ok(None)
        }
    }
}

// A source that has come: how many bytes came, how they ended, and what its chunks say.
#[derive(Drop)]
struct Arrival {
    bytes: u64,
    ending: Ending,
    known: Knowledge,
}

// Takes what is known of a source that has come. Any other track stays as it is.
fn take_arrival(track: &mut Track) -> Option<Arrival>
    ensures { TakesArrival track.old track.new result }
{
    match mem::replace(track, nothing_known()) {
        Track::Arrived {
            bytes,
            ending,
            known,
            ..
        } => Some(Arrival {
            bytes,
            ending,
            known,
        }),
        other => {
            *track = other;
            None
        }
    }
}
