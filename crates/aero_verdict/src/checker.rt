//! The events of a trace, one after another, up to the first that is ill-formed or closes a cycle.
ghost use Rattle.std.specs.Prelude.{◌≡◌, List, option_copied};
ghost use Rattle.aero_model.specs.Exempt.{label_of};
ghost use Rattle.aero_grammar.specs.Tabled.{op_of, target_in};
ghost use Rattle.aero_engine.specs.Given.{IsLabelGiven};
ghost use Rattle.aero_verdict.specs.declared.checker.Stop.{Stop};
ghost use Rattle.aero_verdict.specs.Known.{tables_in, HasLabel};

use crate::blocks::Blocks;
use crate::ended::{last_ends, open_blocks, with_ends};
use crate::known::{ChunkNames, Exemptions, Known};
use crate::numbering::Numbering;
use aero_engine::Engine;
use aero_grammar::LineEvent;
use aero_model::{Limits, Name, Numbered, ShapeFault, What};
use aero_names::NameList;
use aero_shape::Shape;
use std::alloc::{AllocError, Global};

// Why no further event is admitted.
#[derive(Clone, Copy, Debug, PartialEq, Eq)]
pub(crate) enum Stop {
    // The event is ill-formed, or memory was refused.
    Refused(ShapeFault),
    // A cycle closes that begins in the open block of this thread.
    Closed(u32),
}

/// What is kept of the events that were admitted: their names, what they make of each thread and
/// lock, the engine that judges them, and their outermost blocks.
#[derive(Drop)]
pub struct Checker<E: Engine> {
    // Whether blocks that are open end before their thread is joined, and at the end.
    ends: bool,
    /// The names of the events.
    pub numbering: Numbering,
    shape: Shape,
    /// What judges the events, and what it keeps of them.
    pub engine: E,
    blocks: Blocks,
}

// The label of the event, if it is a begin with one and the engine asks for labels.
#[inline(always)]
fn label_given<E: Engine>(chunk: ChunkNames<'_>, what: What) -> Option<&[u8]>
    requires { HasLabel chunk.labels.now what }
    ensures { IsLabelGiven E.ASKS_LABELS (option_copied result)
        (label_of (op_of what) (target_in (tables_in chunk.entry) chunk.entry.labels.now what)) }
{
    if E::ASKS_LABELS {
        return chunk.label(what);
    }
    None
}

impl<E: Engine> Checker<E> {
    ghost use Rattle.std.specs.Prelude.{◌≡◌, ◌↔◌, ◌+◌, ◌-◌, ◌≤◌, ◌<◌, ◌^◌, ℕ, List, length, slice_get, All, false, None, Some, Ok, IsOk, IsTrue, OnOk, OnErr, IfOk, IfErr};
    ghost use Rattle.aero_model.specs.Exempt.{Listed};
    ghost use Rattle.aero_model.specs.Named.{Named};
    ghost use Rattle.aero_model.specs.Names.{most_inline_bytes};
    ghost use Rattle.aero_grammar.specs.Words.{IsName, IsEvent};
    ghost use Rattle.aero_engine.specs.Given.{words_of};
    ghost use Rattle.aero_verdict.specs.Begun.{begin_line};
    ghost use Rattle.aero_verdict.specs.Standing.{StandsFor, IsNext, IsExpected, Refuses, Judged, names_of, up_to, AreNext, AreExpected, StopsIn};
    ghost use Rattle.aero_verdict.specs.Ending.{GoesBehind, HasAdmitted, HasEnded, StandsBehind};
    ghost use Rattle.aero_verdict.specs.Verdict.{with_ends};
    ghost use Rattle.aero_grammar.specs.Tabled.{named_in, lines_in, IsTabled, AreNames};
    ghost use Rattle.aero_verdict.specs.Known.{tables_in, Knows, is_told_exempt, HasLabel};
    ghost use Rattle.aero_model.specs.Terms.{Rules, ruled};
    ghost use Rattle.aero_verdict.specs.Limited.{names_in, IsNamedThread, HasLongName};

    // No event was admitted yet.
    pub(crate) fn new(alloc: Global, limits: &Limits, ends: bool) -> Checker<E>
        ensures none { result.shape.admitted ≡ 0 }
        ensures kept { (labels : Listed) (events : List (ℕ × Named)) →
            StandsFor (words_of E.stands_for E.keeps) (ruled limits.now labels ends) result events }
    {
        Checker {
            ends,
            numbering: Numbering::new(alloc, limits),
            shape: Shape::new(alloc),
            engine: E::new(alloc),
            blocks: Blocks::new(alloc),
        }
    }

    /// The names of the events, and the engine that judged them.
    pub fn into_parts(self) -> (Numbering, E)
        ensures names { result.0 ≡ self.numbering }
        ensures engine { result.1 ≡ self.engine }
    {
        let Checker {
            ends: _,
            numbering,
            shape: _,
            engine,
            blocks: _,
        } = self;
        (numbering, engine)
    }

    // How many events were admitted.
    pub(crate) fn events(&self) -> u32
        ensures { result ≡ self.now.shape.admitted }
    {
        self.shape.admitted()
    }

    // How many of them are outermost begins.
    pub(crate) fn blocks(&self) -> u32
        ensures { result ≡ self.now.blocks.begun }
    {
        self.blocks.begun()
    }

    // How many blocks are open.
    pub(crate) fn pending(&self) -> u32
        ensures { result ≡ self.now.blocks.begun - self.now.blocks.ended }
    {
        self.blocks.pending()
    }

    // The name of the thread with this number, which an event has named. It takes no memory up to 16
    // bytes. An error says that memory was refused to a longer name.
    pub(crate) fn thread_name(&self, alloc: Global, t: u32) -> Result<Name, AllocError>
        requires { IsNamedThread self.now.numbering t }
        ensures name { IfOk result (λ name. slice_get (names_in self.now.numbering).threads t ≡
            Some name) }
        ensures long { OnErr result (HasLongName self.now.numbering t) }
        ensures short { (name : List ℕ) →
            slice_get (names_in self.now.numbering).threads t ≡ Some name → IsName name →
            length name ≤ most_inline_bytes → IsOk result }
    {
        self.numbering.thread_name(alloc, t)
    }

    // The line of the latest outermost begin of this thread.
    pub(crate) fn begin_line(&self, t: u32) -> u32
        ensures { result ≡ begin_line self.now.blocks t }
    {
        self.blocks.begin_line(t)
    }

    // Admits the next event, which stands on this line and has these numbers in its chunk: the
    // thread in whose open block a cycle begins that closes with it, if there is one. Or says why the
    // event is ill-formed, or that memory was refused. No event is admitted after an error or a thread.
    #[inline(always)]
    fn admit(
        &mut self,
        known: &mut Known,
        chunk: ChunkNames<'_>,
        line: u32,
        event: Numbered,
    ) -> Result<Option<u32>, ShapeFault>
        requires next { IsExpected (words_of E.stands_for E.keeps) self.old
            (line, named_in (tables_in chunk) chunk.labels.now event)
            (is_told_exempt chunk.exempt.now event.what) }
        requires known { Knows self.old.numbering (tables_in chunk) known.old }
        requires labelled { HasLabel chunk.labels.now event.what }
        requires named { IsEvent (named_in (tables_in chunk) chunk.labels.now event) }
        ensures counted { OnOk result (self.new.shape.admitted ≡ self.old.shape.admitted + 1) }
        ensures judged { IfOk result (λ told. (rules : Rules) (events : List (ℕ × Named)) →
            IsNext (words_of E.stands_for E.keeps) rules self.old events
            (line, named_in (tables_in chunk.entry) chunk.entry.labels.now event)
            (is_told_exempt chunk.entry.exempt.now event.what) →
            Judged (words_of E.stands_for E.keeps) rules self.new events self.old.shape.admitted
            told) }
        ensures refused { IfErr result (λ fault. (rules : Rules) (events : List (ℕ × Named)) →
            IsNext (words_of E.stands_for E.keeps) rules self.old events
            (line, named_in (tables_in chunk.entry) chunk.entry.labels.now event)
            (is_told_exempt chunk.entry.exempt.now event.what) →
            Refuses rules self.old events fault) }
        ensures known { OnOk result (Knows self.new.numbering (tables_in chunk.entry) known.new) }
    {
        let numbered = self.numbering.number(known, chunk, event)?;
        let admitted = self.shape.admit(&numbered, chunk.is_exempt(event.what))?;
        if self.blocks.count(admitted, numbered.thread, line).is_err() {
            return Err(ShapeFault::Memory);
        }
        let label = label_given::<E>(chunk, event.what);
        match self.engine.judge(line, &numbered, admitted, label) {
            Ok(told) => Ok(told),
            Err(_) => Err(ShapeFault::Memory),
        }
    }

    // Admits the events on lines up to `most`, one after another, up to the first that is ill-formed
    // or closes a cycle: the number of its line, and why. So many lines stand before those of these
    // events, and count in the number.
    pub(crate) fn admit_all(
        &mut self,
        alloc: Global,
        chunk: ChunkNames<'_>,
        events: &[LineEvent],
        before: u32,
        most: u32,
    ) -> Result<(), (u32, Stop)>
        requires next { AreExpected (words_of E.stands_for E.keeps) self.old chunk.labels.now
            chunk.exempt.now before (up_to most
            (lines_in (tables_in chunk) chunk.labels.now events.now)) }
        requires labelled { All (λ e. HasLabel chunk.labels.now e.1.what) events.now }
        requires named { All (λ e. IsEvent (named_in (tables_in chunk) chunk.labels.now e.1))
            events.now }
        requires lines { before + most < 2 ^ 32 }
        ensures counted { OnOk result (self.new.shape.admitted ≡ self.old.shape.admitted + length
            (up_to most (lines_in (tables_in chunk.entry) chunk.entry.labels.now events.now))) }
        ensures kept { OnOk result ((rules : Rules) (all : List (ℕ × Named)) →
            AreNext (words_of E.stands_for E.keeps) rules self.old all chunk.entry.labels.now
            chunk.entry.exempt.now before (up_to most
            (lines_in (tables_in chunk.entry) chunk.entry.labels.now events.now)) →
            StandsFor (words_of E.stands_for E.keeps) rules self.new all) }
        ensures stopped { IfErr result (λ stopped. (rules : Rules) (all : List (ℕ × Named)) →
            AreNext (words_of E.stands_for E.keeps) rules self.old all chunk.entry.labels.now
            chunk.entry.exempt.now before (up_to most
            (lines_in (tables_in chunk.entry) chunk.entry.labels.now events.now)) →
            StopsIn (words_of E.stands_for E.keeps) rules self.new all self.old.shape.admitted
            before (up_to most (lines_in (tables_in chunk.entry) chunk.entry.labels.now events.now))
            stopped.0 stopped.1) }
    {
        let mut known = Known::new(alloc);
        for event in events {
            let (line, event) = event.parts();
            if line > most {
                continue;
            }
            let line = before + line;
            match self.admit(&mut known, chunk, line, event) {
                Ok(None) => {}
                Ok(Some(t)) => return Err((line, Stop::Closed(t))),
                Err(fault) => return Err((line, Stop::Refused(fault))),
            }
        }
        Ok(())
    }

    // Admits these events as `admit_all` does; if blocks end, with an end before each join of another thread for each block of
    // that thread that is open, on the join's line. An `AllocError` says that memory was refused, or that there would be 2^32
    // events with them.
    pub(crate) fn admit_part(
        &mut self,
        alloc: Global,
        chunk: ChunkNames<'_>,
        events: &[LineEvent],
        before: u32,
        most: u32,
    ) -> Result<Option<(u32, Stop)>, AllocError>
        requires next { (rules : Rules) × (front : List (ℕ × Named)) ×
            GoesBehind (words_of E.stands_for E.keeps) rules self.old front chunk.labels.now
            chunk.exempt.now (up_to most
            (lines_in (tables_in chunk) chunk.labels.now events.now)) }
        requires tabled { IsTabled (tables_in chunk) chunk.labels.now events.now }
        requires names { AreNames (tables_in chunk) chunk.labels.now }
        requires lines { before + most < 2 ^ 32 }
        ensures { IfOk result (λ stopped. (rules : Rules) (front : List (ℕ × Named)) →
            GoesBehind (words_of E.stands_for E.keeps) rules self.old front
            chunk.entry.labels.now chunk.entry.exempt.now (up_to most
            (lines_in (tables_in chunk.entry) chunk.entry.labels.now events.now)) →
            HasAdmitted (words_of E.stands_for E.keeps) rules self.old self.new
            chunk.entry.labels.now chunk.entry.exempt.now before (with_ends rules (names_of front)
            (up_to most (lines_in (tables_in chunk.entry) chunk.entry.labels.now events.now)))
            stopped) }
    {
        if !self.ends {
            return Ok(self.admit_all(alloc, chunk, events, before, most).err());
        }
        let open = open_blocks(alloc, &self.numbering, &self.shape, chunk.threads)?;
        let ended = with_ends(alloc, open, events, most)?;
        if !self.has_room(ended.len()) {
            return Err(AllocError);
        }
        Ok(self.admit_all(alloc, chunk, &ended, before, most).err())
    }

    // If blocks end, admits an end on the line after so many for each block that is open, thread by thread, up to one with
    // which a cycle closes: that line, and why. An `AllocError` says that memory was refused, or that there would be 2^32
    // events with them.
    pub(crate) fn admit_last_ends(
        &mut self,
        alloc: Global,
        before: u32,
    ) -> Result<Option<(u32, Stop)>, AllocError>
        requires next { (rules : Rules) × (front : List (ℕ × Named)) ×
            StandsBehind (words_of E.stands_for E.keeps) rules self.old front }
        requires lines { before + 1 < 2 ^ 32 }
        ensures told { IfOk result (λ stopped. (rules : Rules) (front : List (ℕ × Named)) →
            StandsBehind (words_of E.stands_for E.keeps) rules self.old front →
            HasEnded (words_of E.stands_for E.keeps) rules self.old self.new before front stopped) }
        ensures none { self.old.ends ≡ false → result ≡ Ok None }
    {
        if !self.ends {
            return Ok(None);
        }
        let (threads, ends) = last_ends(alloc, &self.numbering, &self.shape)?;
        if !self.has_room(ends.len()) {
            return Err(AllocError);
        }
        let none = NameList::new(alloc);
        let exempt = Exemptions {
            labels: Vec::new(alloc),
            unlabelled: false,
        };
        let chunk = ChunkNames {
            threads: &threads,
            variables: &none,
            locks: &none,
            labels: &none,
            exempt: &exempt,
        };
        Ok(self.admit_all(alloc, chunk, &ends, before, 1).err())
    }

    // Whether there are fewer than 2^32 events with so many more.
    fn has_room(&self, more: usize) -> bool
        ensures { IsTrue result ↔ (self.now.shape.admitted + more < 2 ^ 32) }
    {
        more <= (u32::MAX - self.shape.admitted()) as usize
    }
}
