//! A source that one thread reads and judges.
ghost use Rattle.std.specs.Prelude.{◌≡◌, ◌<◌, ◌≤◌, ◌^◌, ◌++◌, [], true, false, length, map, option_to_list, Option, Some, None, IfOk, IfSome, OnOk};
ghost use Rattle.aero_grammar.specs.Reading.{reading_of};
ghost use Rattle.aero_intake.specs.Alone.{IsFoundIn, HasEnough, MayRead, StandsAlone, IsJudgedOut, SurveysFed, found_so};
ghost use Rattle.aero_intake.specs.Held.{NeedsNoLabel};
ghost use Rattle.aero_intake.specs.Intake.{nothing_taken};
ghost use Rattle.aero_intake.specs.PlanTerms.{terms_of};
ghost use Rattle.aero_intake.specs.Source.{Sight, place_in};
ghost use Rattle.aero_model.specs.declared.verdict.Ending.{Ending as AnyEnding};
ghost use Rattle.aero_model.specs.Terms.{to_the_end};
ghost use Rattle.aero_judge.specs.Finding.{IsTraceFinding};
ghost use Rattle.aero_judge.specs.Judging.{judging_of, nothing_judged};

use crate::begun::Begun;
use crate::found::Found;
use crate::intake::{Intake, Taken};
use crate::plan::Plan;
use crate::source::Followed;
use crate::survey::Survey;
use aero_grammar::parse_block;
use aero_judge::Judge;
use aero_lines::Block;
use aero_model::{Ending, Except, Finding, Terms};
use std::alloc::{AllocError, Global};
use std::sync::Wait;
use std::sync::atomic::{AtomicBool, Ordering};

/// Reads a source as far as the plan asks for, judges its chunks as they come, and returns the finding. It keeps one chunk
/// at a time.
///
/// Once the source has ended no file of the reader is open.
///
/// It returns `None` if memory was refused, or if the flag was set before the source had ended. The reader then stays
/// where it is.
pub fn judge_source<R: Followed, T: Wait>(
    rt: &T,
    alloc: Global,
    reader: &mut R,
    plan: &Plan,
    is_given_up: &AtomicBool,
) -> Option<Found>
    ensures found { IfSome result
        (IsFoundIn (terms_of plan.now) (R.sight reader.old) (R.sight reader.new)) }
    ensures place { place_in (R.sight reader.new) ≡ place_in (R.sight reader.old) }
{
    let Ok(mut so_far) = SoFar::new(alloc, plan) else {
        return None;
    };
    let ending = read_all(rt, &mut so_far, reader, plan, is_given_up)?;
    so_far.finish(&plan.terms, ending).ok()
}

// Reads until the source has ended. `None` says that memory was refused, or that the flag was set before.
fn read_all<R: Followed, T: Wait>(
    rt: &T,
    so_far: &mut SoFar,
    reader: &mut R,
    plan: &Plan,
    is_given_up: &AtomicBool,
) -> Option<Ending>
    requires may { MayRead (terms_of plan.now) so_far.old.intake
        (judging_of so_far.old.judge) so_far.old.survey }
    requires stands { StandsAlone (terms_of plan.now) (R.sight reader.old) (R.sight reader.old) None
        so_far.old.intake
        (judging_of so_far.old.judge) }
    ensures terms { IfSome result (λ ending.
        (judging_of so_far.new.judge).terms ≡ to_the_end (terms_of plan.now)) }
    ensures surveyed { IfSome result (λ ending.
        SurveysFed (judging_of so_far.new.judge) so_far.new.survey) }
    ensures stands { IfSome result (λ ending. StandsAlone (terms_of plan.now)
        (R.sight reader.old) (R.sight reader.new) (Some ending) so_far.new.intake
        (judging_of so_far.new.judge)) }
    ensures place { place_in (R.sight reader.new) ≡ place_in (R.sight reader.old) }
{
    'reads: for _ in rt.forever() {
        if is_given_up.load(Ordering::SeqCst) {
            return None;
        }
        match so_far.read_on(reader, plan) {
            Err(_) => return None,
            Ok(Some(ending)) => return Some(ending),
            Ok(None) => {}
        }
    }
    unreachable!()
}

// A source as far as it was read and judged.
#[derive(Drop)]
struct SoFar {
    alloc: Global,
    intake: Intake,
    judge: Judge,
    survey: Survey,
}

impl SoFar {
    // Nothing of the source was read. An `AllocError` says that memory was refused.
    fn new(alloc: Global, plan: &Plan) -> Result<SoFar, AllocError>
        ensures intake { IfOk result (λ so_far. so_far.intake ≡ nothing_taken) }
        ensures judge { IfOk result (λ so_far. judging_of so_far.judge ≡
            nothing_judged (to_the_end (terms_of plan.now))) }
        ensures surveyed { IfOk result (λ so_far.
            SurveysFed (judging_of so_far.judge) so_far.survey) }
    {
        Ok(SoFar {
            alloc,
            intake: Intake::new(alloc, plan.piece)?,
            judge: Judge::new(alloc, &plan.terms)?,
            survey: Survey::none(alloc),
        })
    }

    // Reads one piece, and judges what is held if it is long, or if the plan stops early: its lines may decide, and the next
    // piece of a pipe may be long in coming. Returns how the reading has ended, if it has. An `AllocError` says that memory
    // was refused.
    fn read_on<R: Followed>(
        &mut self,
        reader: &mut R,
        plan: &Plan,
    ) -> Result<Option<Ending>, AllocError>
        requires { MayRead (terms_of plan.now) self.old.intake
            (judging_of self.old.judge) self.old.survey }
        ensures may { OnOk result (MayRead (terms_of plan.now) self.new.intake
            (judging_of self.new.judge) self.new.survey) }
        ensures stands { IfOk result (λ ended. (before : Sight) →
            StandsAlone (terms_of plan.now) before (R.sight reader.old) None self.old.intake
            (judging_of self.old.judge) →
            StandsAlone (terms_of plan.now) before (R.sight reader.new) ended self.new.intake
            (judging_of self.new.judge)) }
        ensures place { place_in (R.sight reader.new) ≡ place_in (R.sight reader.old) }
    {
        if self.stops_here(plan) {
            reader.close();
            self.intake.pass_over();
            return Ok(Some(Ending::Stopped));
        }
        match self
            .intake
            .take(reader, plan.piece, plan.terms.limits().bytes)
        {
            Taken::Ended(ending) => Ok(Some(ending)),
            Taken::Piece => {
                self.judge_if_due(&plan.terms)?;
                Ok(None)
            }
        }
    }

    // Whether the source is read no further: the plan asks for that, no further chunk counts, and it isn't too large.
    fn stops_here(&self, plan: &Plan) -> bool
        requires on { (judging_of self.now.judge).terms ≡ to_the_end (terms_of plan.now) }
        requires surveyed { SurveysFed (judging_of self.now.judge) self.now.survey }
        ensures asked_for { result ≡ true → (terms_of plan.now).stop ≡ true }
        ensures enough { result ≡ true → HasEnough (terms_of plan.now) self.now.intake
            (judging_of self.now.judge) }
        ensures within { result ≡ true →
            self.now.intake.count ≤ (terms_of plan.now).rules.limits.bytes }
    {
        plan.terms.stop()
            && self.intake.count() <= plan.terms.limits().bytes
            && self.has_enough(&plan.terms)
    }

    // Whether no further chunk counts.
    fn has_enough(&self, terms: &Terms) -> bool
        requires on { (judging_of self.now.judge).terms ≡ to_the_end terms.now }
        requires surveyed { SurveysFed (judging_of self.now.judge) self.now.survey }
        ensures enough { result ≡ true → HasEnough terms.now self.now.intake
            (judging_of self.now.judge) }
        ensures none_passed { result ≡ false → self.now.intake.passed ≡ false }
    {
        self.intake.has_passed() || self.judge.is_certain() && self.needs_no_label(terms)
    }

    // Whether no further chunk counts for the labels: a block begins with each, or nothing is told of them.
    fn needs_no_label(&self, terms: &Terms) -> bool
        requires on { (judging_of self.now.judge).terms ≡ to_the_end terms.now }
        requires surveyed { SurveysFed (judging_of self.now.judge) self.now.survey }
        ensures { result ≡ true → NeedsNoLabel terms.now (judging_of self.now.judge).parts }
    {
        terms.stop() || self.survey.is_faulty(terms.limits()) || self.survey.has_all(terms.except())
    }

    // Judges what is held if it is long, or if the terms stop early.
    fn judge_if_due(&mut self, terms: &Terms) -> Result<(), AllocError>
        requires on { (judging_of self.old.judge).terms ≡ to_the_end terms.now }
        requires surveyed { SurveysFed (judging_of self.old.judge) self.old.survey }
        ensures terms { (judging_of self.new.judge).terms ≡ (judging_of self.old.judge).terms }
        ensures surveyed { OnOk result
            (SurveysFed (judging_of self.new.judge) self.new.survey) }
        ensures room { OnOk result (length self.new.intake.held < 2 ^ 18) }
        ensures count { OnOk result (self.new.intake.count ≡ self.old.intake.count) }
        ensures stands { OnOk result ((before now : Sight) (ended : Option AnyEnding) →
            StandsAlone terms.now before now ended self.old.intake
            (judging_of self.old.judge) →
            StandsAlone terms.now before now ended self.new.intake
            (judging_of self.new.judge)) }
    {
        if !terms.stop() && !self.intake.is_full() {
            return Ok(());
        }
        self.judge_held(terms)
    }

    // Cuts what is held and judges its chunk, or passes over it if no further chunk counts.
    fn judge_held(&mut self, terms: &Terms) -> Result<(), AllocError>
        requires on { (judging_of self.old.judge).terms ≡ to_the_end terms.now }
        requires surveyed { SurveysFed (judging_of self.old.judge) self.old.survey }
        ensures terms { (judging_of self.new.judge).terms ≡ (judging_of self.old.judge).terms }
        ensures surveyed { OnOk result
            (SurveysFed (judging_of self.new.judge) self.new.survey) }
        ensures none_held { OnOk result (self.new.intake.held ≡ []) }
        ensures count { OnOk result (self.new.intake.count ≡ self.old.intake.count) }
        ensures stands { OnOk result ((before now : Sight) (ended : Option AnyEnding) →
            StandsAlone terms.now before now ended self.old.intake
            (judging_of self.old.judge) →
            StandsAlone terms.now before now ended self.new.intake
            (judging_of self.new.judge)) }
    {
        if self.has_enough(terms) {
            self.intake.pass_over();
            return Ok(());
        }
        let chunk = self.intake.cut()?;
        self.judge_chunk(chunk, terms.except())
    }

    // Judges a chunk, if there is one.
    fn judge_chunk(&mut self, chunk: Option<Block>, except: &Except) -> Result<(), AllocError>
        requires labels { except.now ≡ (judging_of self.old.judge).terms.rules.labels }
        requires surveyed { SurveysFed (judging_of self.old.judge) self.old.survey }
        requires short { IfSome chunk (λ bytes. length bytes ≤ 2 ^ 30) }
        ensures intake { self.new.intake ≡ self.old.intake }
        ensures terms { (judging_of self.new.judge).terms ≡ (judging_of self.old.judge).terms }
        ensures surveyed { OnOk result
            (SurveysFed (judging_of self.new.judge) self.new.survey) }
        ensures parts { OnOk result ((judging_of self.new.judge).parts ≡
            (judging_of self.old.judge).parts ++ map reading_of (option_to_list chunk)) }
    {
        let Some(chunk) = chunk else {
            return Ok(());
        };
        let part = parse_block(self.alloc, chunk.bytes())?;
        self.survey.add(self.alloc, except, &part)?;
        self.judge.feed(&part, except)?;
        Ok(())
    }

    // Judges the last line of a whole source of which nothing is held, if no byte 10 ended it and it counts.
    fn judge_last(&mut self, terms: &Terms) -> Result<(), AllocError>
        requires on { (judging_of self.old.judge).terms ≡ to_the_end terms.now }
        requires surveyed { SurveysFed (judging_of self.old.judge) self.old.survey }
        ensures terms { (judging_of self.new.judge).terms ≡ (judging_of self.old.judge).terms }
        ensures surveyed { OnOk result
            (SurveysFed (judging_of self.new.judge) self.new.survey) }
        ensures judged { OnOk result ((before now : Sight) → self.old.intake.held ≡ [] →
            StandsAlone terms.now before now (Some Ending.Whole) self.old.intake
            (judging_of self.old.judge) →
            IsJudgedOut terms.now before now self.old.intake.count (judging_of self.new.judge)) }
    {
        if self.has_enough(terms) {
            return Ok(());
        }
        let last = self.intake.finish()?;
        self.judge_chunk(last, terms.except())
    }

    // What is found of a source that has ended so. An `AllocError` says that memory was refused.
    fn finish(self, terms: &Terms, ending: Ending) -> Result<Found, AllocError>
        requires on { (judging_of self.judge).terms ≡ to_the_end terms.now }
        requires surveyed { SurveysFed (judging_of self.judge) self.survey }
        ensures { IfOk result (λ found. (before now : Sight) →
            StandsAlone terms.now before now (Some ending) self.intake (judging_of self.judge) →
            IsFoundIn terms.now before now found) }
    {
        let bytes = self.intake.count();
        let (finding, begun) = self.finding(terms, ending)?;
        Ok(Found {
            bytes,
            ending,
            finding,
            begun,
        })
    }

    // The finding alone, and which labels begin a block.
    fn finding(self, terms: &Terms, ending: Ending) -> Result<(Finding, Option<Begun>), AllocError>
        requires on { (judging_of self.judge).terms ≡ to_the_end terms.now }
        requires surveyed { SurveysFed (judging_of self.judge) self.survey }
        ensures { IfOk result (λ said. (before now : Sight) →
            StandsAlone terms.now before now (Some ending) self.intake (judging_of self.judge) →
            IsFoundIn terms.now before now
            (found_so self.intake.count ending said.0 said.1)) }
    {
        match ending {
            Ending::Broken => Ok((Finding::Broken(self.intake.count()), None)),
            Ending::TooLarge => Ok((Finding::TooLarge, None)),
            Ending::Stopped => Ok((self.finding_as_far()?, None)),
            Ending::Whole => self.finding_of_all(terms),
        }
    }

    // The finding on what the judge was fed.
    fn finding_as_far(self) -> Result<Finding, AllocError>
        ensures { IfOk result (IsTraceFinding (judging_of self.judge).parts
            (judging_of self.judge).terms) }
    {
        self.judge.finish()
    }

    // The finding on a whole source, and which labels begin a block.
    fn finding_of_all(mut self, terms: &Terms) -> Result<(Finding, Option<Begun>), AllocError>
        requires on { (judging_of self.judge).terms ≡ to_the_end terms.now }
        requires surveyed { SurveysFed (judging_of self.judge) self.survey }
        ensures { IfOk result (λ said. (before now : Sight) →
            StandsAlone terms.now before now (Some Ending.Whole) self.intake
            (judging_of self.judge) → IsFoundIn terms.now before now
            (found_so self.intake.count Ending.Whole said.0 said.1)) }
    {
        self.judge_held(terms)?;
        self.judge_last(terms)?;
        let SoFar { judge, survey, .. } = self;
        let begun = survey.into_begun(terms);
        Ok((judge.finish()?, begun))
    }
}
