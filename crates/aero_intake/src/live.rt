//! A source that is judged as it comes.
ghost use Rattle.std.specs.Prelude.{◌≡◌, ◌++◌, ◌∷◌, [], ◌-◌, length, is_some, IfOk, IfSome, OnOk};
ghost use Rattle.aero_verdict.specs.Fed.{IsCertain};
ghost use Rattle.aero_judge.specs.Finding.{IsTraceFinding};
ghost use Rattle.aero_model.specs.Terms.{to_the_end};
ghost use Rattle.aero_judge.specs.Judging.{judging_of};

use aero_grammar::Parsed;
use aero_judge::Judge;
use aero_model::{Except, Finding, Terms};
use std::alloc::{AllocError, Global};
use std::collections::VecDeque;
use std::marker::Model;
use std::mem;

/// What judges the chunks of a source as they come. What was kept of it before waits, and for each chunk that comes
/// two are judged, the first ones first, and let go: so no chunk holds the others up for long.
#[derive(Drop)]
pub struct Live {
    judge: Judge,
    // The chunks that came and aren't judged yet.
    waiting: VecDeque<Parsed>,
    count: u64,
}

impl Model for Live {
    ghost use Rattle.aero_intake.specs.Lives.{Watched};
    ghost use Rattle.aero_judge.specs.Judging.{judging_of};

    ghost Value = { Watched };

    ghost use Rattle.std.specs.Prelude.{◌≡◌, ◌++◌, length};

    ghost view = { λ l. record {
      parts = (judging_of l.judge).parts ++ l.waiting.items;
      waiting = length l.waiting.items;
      terms = (judging_of l.judge).terms;
      certain = (judging_of l.judge).certain;
    } };

    ghost invariant = { λ l. l.count ≡ length ((judging_of l.judge).parts ++ l.waiting.items) };
}

impl Live {
    /// What was kept of a source is to be judged on these terms. An `AllocError` says that memory was refused.
    pub fn new(alloc: Global, terms: &Terms, kept: Vec<Parsed>) -> Result<Live, AllocError>
        ensures parts { IfOk result (λ live. live.parts ≡ kept.items) }
        ensures waiting { IfOk result (λ live. live.waiting ≡ length kept.items) }
        ensures terms { IfOk result (λ live. live.terms ≡ to_the_end terms.now) }
    {
        let count = kept.len() as u64;
        Ok(Live {
            judge: Judge::new(alloc, terms)?,
            waiting: VecDeque::from_vec(kept),
            count,
        })
    }

    /// Takes what the next chunk says, and judges the next two that wait, with the same labels as at first: one waits
    /// less than before, if one did. An `AllocError` says that memory was refused.
    pub fn feed(&mut self, part: Parsed, except: &Except) -> Result<(), AllocError>
        requires { except.now ≡ self.old.terms.rules.labels }
        ensures parts { OnOk result (self.new.parts ≡ self.old.parts ++ part ∷ []) }
        ensures waiting { OnOk result (self.new.waiting ≡ self.old.waiting - 1) }
        ensures terms { self.new.terms ≡ self.old.terms }
    {
        let Some(count) = self.count.checked_add(1) else {
            return Err(AllocError);
        };
        self.waiting.push_back(part)?;
        self.count = count;
        judge_next(&mut self.judge, &mut self.waiting, except)?;
        judge_next(&mut self.judge, &mut self.waiting, except)
    }

    /// Judges all chunks that wait, with the same labels as at first. Where memory is refused, `finish` says so.
    pub fn catch_up(&mut self, alloc: Global, except: &Except)
        requires { except.now ≡ self.old.terms.rules.labels }
        ensures parts { self.new.parts ≡ self.old.parts }
        ensures waiting { self.new.waiting ≡ 0 }
        ensures terms { self.new.terms ≡ self.old.terms }
    {
        let waiting = mem::replace(&mut self.waiting, VecDeque::new(alloc));
        judge_rest(&mut self.judge, waiting, except);
    }

    /// How many chunks have come.
    pub fn len(&self) -> u64
        ensures { result ≡ length self.now.parts }
    {
        self.count
    }

    /// Whether the verdict is certain by what was judged so far, whatever chunks come.
    pub fn is_certain(&self) -> bool
        ensures told { result ≡ is_some self.now.certain }
        ensures certain { IfSome self.now.certain (IsCertain self.now.parts self.now.terms.rules) }
    {
        self.judge.is_certain()
    }

    /// What is found of what came, with the same labels as at first. An `AllocError` says that memory was refused.
    pub fn finish(self, except: &Except) -> Result<Finding, AllocError>
        requires { except.now ≡ self.terms.rules.labels }
        ensures { IfOk result (IsTraceFinding self.parts self.terms) }
    {
        let Live {
            mut judge,
            waiting,
            count: _,
        } = self;
        judge_rest(&mut judge, waiting, except);
        judge.finish()
    }
}

// Judges all that wait. Where memory is refused the judge says so at its end.
fn judge_rest(judge: &mut Judge, waiting: VecDeque<Parsed>, except: &Except)
    requires { except.now ≡ (judging_of judge.old).terms.rules.labels }
    ensures parts { (judging_of judge.new).parts ≡ (judging_of judge.old).parts ++ waiting.items }
    ensures terms { (judging_of judge.new).terms ≡ (judging_of judge.old).terms }
{
    let rest = waiting.into_vec();
    judge.feed_all(&rest, except);
}

// Judges the first chunk that waits, if one does, and lets it go.
fn judge_next(
    judge: &mut Judge,
    waiting: &mut VecDeque<Parsed>,
    except: &Except,
) -> Result<(), AllocError>
    requires { except.now ≡ (judging_of judge.old).terms.rules.labels }
    ensures parts { (judging_of judge.new).parts ++ waiting.new.items ≡
        (judging_of judge.old).parts ++ waiting.old.items }
    ensures waiting { length waiting.new.items ≡ length waiting.old.items - 1 }
    ensures terms { (judging_of judge.new).terms ≡ (judging_of judge.old).terms }
{
    let Some(part) = waiting.pop_front() else {
        return Ok(());
    };
    judge.feed(&part, except)?;
    Ok(())
}
