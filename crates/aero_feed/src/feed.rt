//! A text that comes in pieces.
ghost use Rattle.std.specs.Prelude.{◌≡◌, ◌≤◌, ◌^◌, ◌++◌, [], true, false, None, length, is_some, IfOk, IfSome, OnOk};
ghost use Rattle.aero_model.specs.Lines.{EndsLine};
ghost use Rattle.aero_model.specs.Verdicts.{HasOwnFault};
ghost use Rattle.aero_feed.specs.Feeding.{nothing_fed, FeedsOn, IsTextVerdict, IsCertainOf, IsOpenText, ShowsText};

use crate::text_monitor::TextMonitor;
use aero_model::{Cycle, Terms, Verdict};
use std::alloc::{AllocError, Global};
use std::marker::Model;

// How many bytes are gathered before they are judged, unless it is asked whether the verdict is certain.
const HELD_BYTES: usize = 1 << 16;

/// The text of a trace, of which pieces come. It is judged as it comes and let go: what is kept are 131,072 bytes at
/// most, names, and what is known of threads, variables, locks and open blocks.
///
/// Contracts see the rules, whether a violation is to be shown, the bytes that were fed, and the verdict that is known to be
/// certain, if one is.
#[derive(Drop)]
pub struct Feed {
    monitor: TextMonitor,
    // What isn't judged yet.
    held: Vec<u8>,
}

impl Model for Feed {
    ghost use Rattle.aero_feed.specs.Feeding.{Feeding};

    ghost Value = { Feeding };

    ghost use Rattle.std.specs.Prelude.{◌≤◌, ◌^◌, ◌++◌, length};

    ghost view = { λ f. record { rules = f.monitor.rules; explains = f.monitor.explains; text = f.monitor.text ++ f.held.items; certain = f.monitor.certain; is_spent = f.monitor.is_spent } };

    ghost invariant = { λ f. length f.held.items ≤ 2 ^ 17 };
}

impl Feed {
    /// A text of which no byte has come, judged on these terms. If they ask for an explanation, `explain` shows a
    /// violation. For that the feed also keeps 28 bytes for each event that can be in a telling cycle, and the labels of
    /// begins among them, until an event completes one. The order that they may ask for isn't returned.
    ///
    /// # Errors
    ///
    /// `AllocError` if memory was refused: there is no feed.
    pub fn new(alloc: Global, terms: Terms) -> Result<Feed, AllocError>
        ensures { IfOk result (λ feed. feed ≡ nothing_fed terms.rules terms.explain) }
    {
        Ok(Feed {
            monitor: TextMonitor::new(alloc, terms)?,
            held: Vec::new(alloc),
        })
    }

    /// Takes the next piece, of any length: lines may be cut anywhere.
    ///
    /// # Errors
    ///
    /// `AllocError` where memory was refused, and at each call from then on.
    pub fn feed(&mut self, piece: &[u8]) -> Result<(), AllocError>
        ensures text { OnOk result (self.new.text ≡ self.old.text ++ piece.now) }
        ensures feeds_on { FeedsOn self.old self.new result }
    {
        let mut rest = piece;
        while rest.len() > HELD_BYTES {
            let (front, back) = rest.split_at(HELD_BYTES);
            self.hold(front)?;
            rest = back;
        }
        self.hold(rest)
    }

    /// Judges what came so far, up to the last line that is whole, and says whether the verdict is certain, whatever
    /// comes: a line is malformed, an event is ill-formed or closes a cycle, or there are two lines more than may be.
    /// Each call looks at the lines that came since the last one: asked after each event it makes a feed slow.
    ///
    /// # Errors
    ///
    /// `AllocError` where memory was refused, and at each call from then on.
    pub fn is_certain(&mut self) -> Result<bool, AllocError>
        ensures text { OnOk result (self.new.text ≡ self.old.text) }
        ensures feeds_on { FeedsOn self.old self.new result }
        ensures told { IfOk result (λ is_certain. is_certain ≡ is_some self.new.certain) }
        ensures certain { OnOk result (IfSome self.new.certain
            (IsCertainOf self.new.text self.new.rules)) }
        ensures going_on { IfOk result (λ is_certain. is_certain ≡ false → EndsLine self.new.text →
            IsOpenText self.new.text self.new.rules) }
    {
        judge_held(&mut self.monitor, &mut self.held)?;
        Ok(self.monitor.is_certain())
    }

    /// Judges what came so far, as `is_certain` does, and gives what shows the verdict if it is a violation and certain: the
    /// label of the block that it names, and the events of a telling cycle, as `judge_trace` of aero_judge finds them.
    /// `None` if no violation is certain, or if the terms ask for no explanation. Once one is certain, each call takes as long
    /// as there are events up to it.
    ///
    /// # Errors
    ///
    /// `AllocError` where memory was refused, and at each call from then on.
    pub fn explain(&mut self) -> Result<Option<Cycle>, AllocError>
        ensures text { OnOk result (self.new.text ≡ self.old.text) }
        ensures feeds_on { FeedsOn self.old self.new result }
        ensures shown { IfOk result (ShowsText self.new.explains self.new.certain self.new.text
            self.new.rules) }
        ensures certain { OnOk result (IfSome self.new.certain
            (IsCertainOf self.new.text self.new.rules)) }
        ensures going_on { OnOk result (self.new.certain ≡ None → EndsLine self.new.text →
            IsOpenText self.new.text self.new.rules) }
    {
        judge_held(&mut self.monitor, &mut self.held)?;
        // (tells the proof what is certain)
        let _is_certain = self.monitor.is_certain();
        let shown = self.monitor.explain();
        if shown.is_err() {
            self.monitor.spend();
        }
        shown
    }

    /// The verdict on exactly the bytes that were fed, as one text.
    ///
    /// # Errors
    ///
    /// `AllocError` where memory is or was refused.
    pub fn finish(self) -> Result<Verdict, AllocError>
        ensures verdict { IfOk result (IsTextVerdict self.text self.rules) }
        ensures own_fault { IfOk result HasOwnFault }
        ensures was_unspent { OnOk result (self.is_spent ≡ false) }
    {
        let Feed { monitor, held } = self;
        let mut monitor = monitor;
        monitor.take(&held)?;
        monitor.finish()
    }

    /// Memory was refused to whoever brings the text, so that some of it is missing: each later call returns an
    /// `AllocError`.
    pub fn spend(&mut self)
        ensures { self.new ≡ record self.old { is_spent = true } }
    {
        self.monitor.spend();
    }

    // Holds a short piece, and judges what is held once it is long.
    fn hold(&mut self, piece: &[u8]) -> Result<(), AllocError>
        requires { length piece.now ≤ 2 ^ 16 }
        ensures text { OnOk result (self.new.text ≡ self.old.text ++ piece.now) }
        ensures feeds_on { FeedsOn self.old self.new result }
    {
        if self.monitor.is_spent() {
            return Err(AllocError);
        }
        if self.held.len() >= HELD_BYTES {
            judge_held(&mut self.monitor, &mut self.held)?;
        }
        let held = self.held.extend_from_slice(piece);
        if held.is_err() {
            self.monitor.spend();
        }
        held
    }
}

// Judges what is held, and lets it go.
fn judge_held(monitor: &mut TextMonitor, held: &mut Vec<u8>) -> Result<(), AllocError>
    requires { length held.old.items ≤ 2 ^ 17 }
    ensures text { OnOk result (monitor.new.text ++ held.new.items ≡ monitor.old.text ++
        held.old.items) }
    ensures none { OnOk result (held.new.items ≡ []) }
    ensures short { length held.new.items ≤ length held.old.items }
    ensures feeds_on { FeedsOn monitor.old monitor.new result }
    ensures unspent { OnOk result (monitor.new.is_spent ≡ false) }
{
    monitor.take(held.as_slice())?;
    held.clear();
    Ok(())
}
