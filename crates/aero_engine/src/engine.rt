//! What judges the events of a trace, one after another.
use crate::spent::Spent;
use aero_model::Numbered;
use aero_shape::Admitted;
use std::alloc::Global;

/// What tells, event by event, whose open block closes a telling cycle.
///
/// An engine stands for a list of events as they are judged: for none at first, and after an event to
/// which it returns `None` for what that is judged as too. What it tells is said by the list alone, so
/// two engines that are given the same events tell the same, but where memory is refused.
///
/// It may keep something of each event that it is given, also of the one at which it returns a thread. What
/// that is its ghost member `keeps` says, of the events as they were given.
pub trait Engine: Drop {
    ghost use Rattle.std.specs.Prelude.{◌++◌, ◌∷◌, [], ℕ, Bool, List, length, Option, option_copied, IfOk, OnOk};
    ghost use Rattle.aero_model.specs.declared.numbered.Numbered.{Numbered};
    ghost use Rattle.aero_model.specs.Exempt.{IsJudgedAs};
    ghost use Rattle.aero_engine.specs.Given.{Given, IsLabelGiven};
    ghost use Rattle.aero_engine.specs.Judging.{IsAdmitted, ComesAfter, Tells};

    /// Whether it stands for these events.
    ghost stands_for: { Self → List Numbered → Type 0 };

    /// Whether it keeps what it is to keep of these events, which it was given.
    ghost keeps: { Self → List Given → Type 0 };

    /// Whether it asks for the labels of begins. Where it doesn't it is given none, and what it keeps it keeps whatever
    /// they are: so who keeps none of them needn't look for any.
    const ASKS_LABELS: bool;

    ghost ASKS_LABELS: { Bool };

    /// An engine that was given no event.
    fn new(alloc: Global) -> Self
        ensures stands { stands_for result [] }
        ensures none { keeps result [] };

    /// Takes the next event as it was read on this line, which is judged as one that `Shape` has admitted as
    /// this after the events so far, of which there are fewer than 2^32 - 1: the least thread whose open
    /// block closes a telling cycle with it, or `None` where there is no telling cycle. After a thread
    /// no event may be given. By the label of a begin, if it has one and the engine asks for it, nothing is judged.
    ///
    /// `Spent` says that memory was refused. Then the engine stands for no events that are known, so what
    /// this call requires can't be shown again: it can only be let go.
    fn judge(
        &mut self,
        line: u32,
        event: &Numbered,
        admitted: Admitted,
        label: Option<&[u8]>,
    ) -> Result<Option<u32>, Spent>
        requires { IsAdmitted (stands_for self.old) event.now admitted }
        ensures told { (h : List Numbered) (judged : Numbered) → IsJudgedAs event.now judged →
            ComesAfter (stands_for self.old) h judged admitted →
            IfOk result (Tells (stands_for self.new) (h ++ judged ∷ []) (length h)) }
        ensures kept { OnOk result ((given : List Given) (named : Option (List ℕ)) →
            IsLabelGiven ASKS_LABELS (option_copied label.entry) named → keeps self.old given →
            keeps self.new (given ++ record
            { line = line; event = event.now; admitted = admitted; label = named } ∷ [])) };
}
