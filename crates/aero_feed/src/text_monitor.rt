//! A text that is judged piece by piece, as soon as a line is whole.
ghost use Rattle.std.specs.Prelude.{◌≡◌, ◌≤◌, ◌^◌, ◌++◌, ◌∷◌, [], true, false, None, length, map, is_some, option_to_list, IfOk, IfSome, OnOk};
ghost use Rattle.aero_model.specs.Lines.{EndsLine};
ghost use Rattle.aero_model.specs.Verdicts.{HasOwnFault};
ghost use Rattle.aero_grammar.specs.Reading.{reading_of};
ghost use Rattle.aero_lines.specs.Cutting.{fed, block_of, last_block};
ghost use Rattle.aero_verdict.specs.Fed.{IsCertain, IsOpen};
ghost use Rattle.aero_judge.specs.Judging.{judging_of};
ghost use Rattle.aero_feed.specs.Feeding.{nothing_fed, FeedsOn, IsTextVerdict, IsCertainOf, IsOpenText, ShowsText};
ghost use Rattle.aero_feed.specs.Reads.{IsJudgedOut};

use crate::ghost_text::GhostText;
use aero_judge::Judge;
use aero_lines::Cutter;
use aero_model::{Cycle, Except, Terms, Verdict};
use std::alloc::{AllocError, Global};
use std::marker::Model;

/// A text of which pieces come. What they say is judged at once, and none is kept but an open line.
#[derive(Drop)]
pub(crate) struct TextMonitor {
    alloc: Global,
    terms: Terms,
    cutter: Cutter,
    judge: Judge,
    is_spent: bool,
    text: GhostText,
}

impl Model for TextMonitor {
    ghost use Rattle.aero_feed.specs.Feeding.{Feeding};

    ghost Value = { Feeding };

    ghost use Rattle.std.specs.Prelude.{◌≡◌, false};
    ghost use Rattle.aero_feed.specs.Reads.{StandsAt};
    ghost use Rattle.aero_judge.specs.Judging.{judging_of};

    ghost view = { λ t. record {
      rules = (judging_of t.judge).terms.rules;
      explains = (judging_of t.judge).terms.explain;
      text = t.text.bytes;
      certain = (judging_of t.judge).certain;
      is_spent = t.is_spent;
    } };

    ghost invariant = { λ t. record {
      labels : t.terms.rules.labels ≡ (judging_of t.judge).terms.rules.labels;
      stands : t.is_spent ≡ false → StandsAt t.text.bytes t.cutter (judging_of t.judge) (judging_of t.judge).certain;
    } };
}

impl TextMonitor {
    // No byte has come. The text is judged on these terms. An `AllocError` says that memory was refused.
    pub(crate) fn new(alloc: Global, terms: Terms) -> Result<TextMonitor, AllocError>
        ensures { IfOk result (λ monitor. monitor ≡ nothing_fed terms.rules terms.explain) }
    {
        let judge = Judge::new(alloc, &terms)?;
        Ok(TextMonitor {
            alloc,
            cutter: Cutter::new(alloc),
            judge,
            terms,
            is_spent: false,
            text: GhostText::none(),
        })
    }

    // Judges the next piece, up to the last line that is whole now. An `AllocError` says that memory was refused, and
    // at each call from then on.
    pub(crate) fn take(&mut self, piece: &[u8]) -> Result<(), AllocError>
        requires { length piece.now ≤ 2 ^ 20 }
        ensures text { self.new.text ≡ self.old.text ++ piece.now }
        ensures feeds_on { FeedsOn self.old self.new result }
        ensures unspent { OnOk result (self.new.is_spent ≡ false) }
    {
        self.text = GhostText::with(&self.text, piece);
        if self.is_spent {
            return Err(AllocError);
        }
        if self.judge.is_certain() {
            return Ok(());
        }
        let judged = judge_piece(
            self.alloc,
            &mut self.cutter,
            &mut self.judge,
            self.terms.except(),
            piece,
        );
        self.is_spent = judged.is_err();
        judged
    }

    // Whether the verdict is certain, whatever comes.
    pub(crate) fn is_certain(&self) -> bool
        ensures told { result ≡ is_some self.now.certain }
        ensures certain { self.now.is_spent ≡ false →
            IfSome self.now.certain (IsCertainOf self.now.text self.now.rules) }
        ensures going_on { self.now.is_spent ≡ false → result ≡ false → EndsLine self.now.text →
            IsOpenText self.now.text self.now.rules }
    {
        self.judge.is_certain()
    }

    // What shows the violation that is certain, where one is and is to be shown. An `AllocError` says that memory was refused.
    pub(crate) fn explain(&self) -> Result<Option<Cycle>, AllocError>
        ensures { self.now.is_spent ≡ false →
            IfOk result (ShowsText self.now.explains self.now.certain self.now.text self.now.rules) }
    {
        self.judge.explain()
    }

    // Whether memory was refused.
    pub(crate) fn is_spent(&self) -> bool
        ensures { result ≡ self.now.is_spent }
    {
        self.is_spent
    }

    // Memory was refused elsewhere.
    pub(crate) fn spend(&mut self)
        ensures { self.new ≡ record self.old { is_spent = true } }
    {
        self.is_spent = true;
    }

    // The verdict on exactly the bytes that came. An `AllocError` says that memory was refused.
    pub(crate) fn finish(self) -> Result<Verdict, AllocError>
        ensures verdict { IfOk result (IsTextVerdict self.text self.rules) }
        ensures own_fault { IfOk result HasOwnFault }
        ensures was_unspent { OnOk result (self.is_spent ≡ false) }
    {
        let TextMonitor {
            alloc,
            terms,
            cutter,
            mut judge,
            is_spent,
            text: _,
        } = self;
        let judged = judge_rest(alloc, cutter, &mut judge, terms.except(), is_spent);
        let verdict = judge.verdict();
        judged?;
        verdict
    }
}

// Judges the line that no byte 10 ended, where there is one and it isn't certain what the verdict is. An `AllocError` says
// that memory is or was refused.
fn judge_rest(
    alloc: Global,
    cutter: Cutter,
    judge: &mut Judge,
    except: &Except,
    is_spent: bool,
) -> Result<(), AllocError>
    requires labels { except.now ≡ (judging_of judge.old).terms.rules.labels }
    ensures judged { OnOk result (IsJudgedOut (judging_of judge.old) cutter (judging_of judge.new)) }
    ensures was_unspent { OnOk result (is_spent ≡ false) }
{
    if is_spent {
        return Err(AllocError);
    }
    if judge.is_certain() {
        return Ok(());
    }
    judge_last(alloc, cutter, judge, except)
}

// Judges what is cut of the next piece.
fn judge_piece(
    alloc: Global,
    cutter: &mut Cutter,
    judge: &mut Judge,
    except: &Except,
    piece: &[u8],
) -> Result<(), AllocError>
    requires labels { except.now ≡ (judging_of judge.old).terms.rules.labels }
    requires short { length piece.now ≤ 2 ^ 20 }
    requires open { (judging_of judge.old).certain ≡ None }
    ensures cut { OnOk result (cutter.new ≡ fed cutter.old piece.now) }
    ensures terms { (judging_of judge.new).terms ≡ (judging_of judge.old).terms }
    ensures parts { OnOk result ((judging_of judge.new).parts ≡ (judging_of judge.old).parts ++
        map reading_of (option_to_list (block_of cutter.old piece.now))) }
    ensures certain { IfSome (judging_of judge.new).certain
        (IsCertain (judging_of judge.new).parts (judging_of judge.new).terms.rules) }
    ensures going_on { OnOk result
        (IsOpen (judging_of judge.old).parts (judging_of judge.old).terms.rules →
        (judging_of judge.new).certain ≡ None →
        IsOpen (judging_of judge.new).parts (judging_of judge.new).terms.rules) }
{
    match cutter.feed(piece)? {
        None => Ok(()),
        Some(block) => {
            judge.feed_text(alloc, block.bytes(), except)?;
            Ok(())
        }
    }
}

// Judges the line that no byte 10 ended, where there is one.
fn judge_last(
    alloc: Global,
    cutter: Cutter,
    judge: &mut Judge,
    except: &Except,
) -> Result<(), AllocError>
    requires labels { except.now ≡ (judging_of judge.old).terms.rules.labels }
    requires open { (judging_of judge.old).certain ≡ None }
    ensures terms { (judging_of judge.new).terms ≡ (judging_of judge.old).terms }
    ensures parts { OnOk result ((judging_of judge.new).parts ≡ (judging_of judge.old).parts ++
        map reading_of (option_to_list (last_block cutter))) }
{
    match cutter.finish()? {
        None => Ok(()),
        Some(block) => {
            judge.feed_text(alloc, block.bytes(), except)?;
            Ok(())
        }
    }
}
