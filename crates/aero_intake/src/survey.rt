//! What the chunks of a source have beside its verdict: lines, a malformed one, and blocks with listed labels.
ghost use Rattle.std.specs.Prelude.{◌≡◌, ◌<◌, ◌++◌, ◌∷◌, ℕ, List, [], length, take, bytes_eq, false, true, OnOk};
ghost use Rattle.std.specs.List.{list_all, list_any};
ghost use Rattle.aero_grammar.specs.Reading.{Reading};
ghost use Rattle.aero_grammar.specs.Tabled.{name_at};
ghost use Rattle.aero_intake.specs.Begun.{AreNoted};
ghost use Rattle.aero_intake.specs.Held.{decides};
ghost use Rattle.aero_intake.specs.Surveys.{CountsLines, NotesLabels, IsSurveyOf, IsFirstWithout, IsSaidOf, MarksNames};
ghost use Rattle.aero_model.specs.declared.verdict.Ending.{Ending};

use crate::begun::Begun;
use aero_grammar::Parsed;
use aero_model::{Except, Limits, Terms};
use aero_names::NameList;
use std::alloc::{AllocError, Global};

/// How many lines the first chunks of a source have, whether one is malformed, and which labels of a list begin a block of
/// them.
#[derive(Drop)]
pub struct Survey {
    pub begun: Begun,
    /// How many labels, the first of the list, begin a block. The next one doesn't.
    pub passed: usize,
    /// How many lines there are, up to the first fault, but no more than 2^32 - 1.
    pub lines: u32,
    pub has_fault: bool,
}

impl Survey {
    /// No chunk has come. It takes no memory.
    pub fn none(alloc: Global) -> Survey
        ensures { (labels : List (List ℕ)) → IsSurveyOf labels [] result }
    {
        Survey {
            begun: Begun::none(alloc),
            passed: 0,
            lines: 0,
            has_fault: false,
        }
    }

    /// Adds the next chunk. The labels are the same at each call. They are looked up as long as one is missing.
    ///
    /// # Errors
    ///
    /// `AllocError` if memory is refused. The survey is of no use then.
    pub fn add(&mut self, alloc: Global, except: &Except, part: &Parsed) -> Result<(), AllocError>
        ensures { OnOk result ((parts : List Reading) →
            IsSurveyOf except.now.labels parts self.old →
            IsSurveyOf except.now.labels (parts ++ part.now ∷ []) self.new) }
    {
        self.add_lines(part);
        self.add_labels(alloc, except, part)
    }

    /// Whether a line is malformed, or one too many.
    pub fn is_faulty(&self, limits: &Limits) -> bool
        ensures { (parts : List Reading) → CountsLines parts self.now →
            result ≡ decides limits.now parts }
    {
        self.has_fault || self.lines > limits.lines
    }

    /// Whether a block begins with each label.
    pub fn has_all(&self, except: &Except) -> bool
        ensures { (holds : List ℕ → _) → IsFirstWithout except.now.labels holds self.now.passed →
            result ≡ list_all holds except.now.labels }
    {
        let labels = except.labels();
        if self.passed < labels.len() {
            return false;
        }
        true
    }

    /// Which labels begin a block of a whole source that is judged on these terms. Nothing is said if a line is malformed, or one
    /// too many, and nothing where sources are read no further than they must be.
    pub fn into_begun(self, terms: &Terms) -> Option<Begun>
        ensures { (parts : List Reading) →
            IsSurveyOf terms.now.rules.labels.labels parts self →
            IsSaidOf terms.now parts Ending.Whole result }
    {
        if terms.stop() || self.is_faulty(terms.limits()) {
            return None;
        }
        Some(self.begun)
    }

    // Counts the lines of the next chunk.
    fn add_lines(&mut self, part: &Parsed)
        ensures counted { (parts : List Reading) → CountsLines parts self.old →
            CountsLines (parts ++ part.now ∷ []) self.new }
        ensures begun { self.new.begun ≡ self.old.begun }
        ensures passed { self.new.passed ≡ self.old.passed }
    {
        if !self.has_fault {
            self.lines = self.lines.saturating_add(part.lines);
            self.has_fault = part.fault.is_some();
        }
    }

    // Notes the labels of the next chunk.
    fn add_labels(
        &mut self,
        alloc: Global,
        except: &Except,
        part: &Parsed,
    ) -> Result<(), AllocError>
        ensures noted { OnOk result ((parts : List Reading) →
            NotesLabels except.now.labels parts self.old →
            NotesLabels except.now.labels (parts ++ part.now ∷ []) self.new) }
        ensures lines { self.new.lines ≡ self.old.lines }
        ensures fault { self.new.has_fault ≡ self.old.has_fault }
    {
        if self.has_all(except) {
            return Ok(());
        }
        self.begun.make_room(alloc, except.labels().len())?;
        mark_all(&mut self.begun, except, &part.labels);
        self.passed = first_without(except, &self.begun, self.passed);
        Ok(())
    }
}

// Sets the flags of the names that are listed.
fn mark_all(begun: &mut Begun, except: &Except, names: &NameList)
    requires { length begun.old.flags.items ≡ length except.now.labels }
    ensures count { length begun.new.flags.items ≡ length begun.old.flags.items }
    ensures marks { MarksNames except.now.labels names.now begun.old.flags.items
        begun.new.flags.items }
{
    for number in 0..names.len() {
        mark(begun, except, name_of(names, number));
    }
}

fn name_of(names: &NameList, number: u32) -> &[u8]
    requires { number < length names.now }
    ensures { result.now ≡ name_at names.now number }
{
    match names.name(number) {
        Some(name) => name,
        None => unreachable!(),
    }
}

// Sets the flag of the name, if it is listed.
fn mark(begun: &mut Begun, except: &Except, name: &[u8])
    requires { length begun.old.flags.items ≡ length except.now.labels }
    ensures count { length begun.new.flags.items ≡ length begun.old.flags.items }
    ensures marks { MarksNames except.now.labels (name.now ∷ []) begun.old.flags.items
        begun.new.flags.items }
{
    if let Some(place) = except.place_of(name) {
        begun.flags[place] = true;
    }
}

// The place of the first label that begins no block, where all before this place begin one.
fn first_without(except: &Except, begun: &Begun, place: usize) -> usize
    ensures { (holds : List ℕ → _) → AreNoted except.now.labels holds begun.now.flags.items →
        list_all holds (take place except.now.labels) ≡ true →
        IsFirstWithout except.now.labels holds result }
{
    let labels = except.labels();
    let mut place = place;
    while place < labels.len() && has_begun(except, begun, labels[place].bytes()) {
        place += 1;
    }
    place
}

// Whether a block begins with this label of the list.
fn has_begun(except: &Except, begun: &Begun, label: &[u8]) -> bool
    requires { list_any (bytes_eq label.now) except.now.labels ≡ true }
    ensures { (holds : List ℕ → _) → AreNoted except.now.labels holds begun.now.flags.items →
        result ≡ holds label.now }
{
    match except.place_of(label) {
        Some(place) => begun.has(place),
        None => false,
    }
}
