//! First places as an engine that also gathers the transactions, for their serial order.
ghost use Rattle.std.specs.Prelude.{◌≡◌, ◌++◌, ◌∷◌, [], ℕ, List, length, Option, IfOk, OnOk};
ghost use Rattle.aero_model.specs.declared.numbered.Numbered.{Numbered};
ghost use Rattle.aero_model.specs.Exempt.{IsJudgedAs};
ghost use Rattle.aero_engine.specs.Given.{Given};
ghost use Rattle.aero_engine.specs.Judging.{IsAdmitted, ComesAfter, Tells};
ghost use Rattle.aero_verdict.specs.InOrder.{StandsForBoth, KeepsInOrder};

use aero_engine::{Engine, Spent, by_kind};
use aero_leads::Leads;
use aero_model::Numbered;
use aero_order::Transactions;
use aero_shape::Admitted;
use std::alloc::Global;

/// What judges the events, by first places, and what keeps their transactions.
#[derive(Drop)]
pub struct InOrder {
    leads: Leads,
    transactions: Transactions,
}

impl InOrder {
    ghost use Rattle.std.specs.Prelude.{◌≡◌};

    // The transactions of the events so far.
    pub(crate) fn into_transactions(self) -> Transactions
        ensures { result ≡ self.transactions }
    {
        let InOrder {
            leads: _,
            transactions,
        } = self;
        transactions
    }
}

impl Engine for InOrder {
    ghost use Rattle.std.specs.Prelude.{false};

    ghost stands_for = { StandsForBoth };

    ghost keeps = { KeepsInOrder };

    const ASKS_LABELS: bool = false;

    ghost ASKS_LABELS = { false };

    fn new(alloc: Global) -> InOrder {
        InOrder {
            leads: Leads::new(alloc),
            transactions: Transactions::new(alloc),
        }
    }

    fn judge(
        &mut self,
        line: u32,
        event: &Numbered,
        admitted: Admitted,
        _label: Option<&[u8]>,
    ) -> Result<Option<u32>, Spent> {
        judge(self, line, event, admitted)
    }
}

// The thread whose open block closes a cycle with this event, if there is one. The event is kept with its
// transaction.
fn judge(
    both: &mut InOrder,
    line: u32,
    event: &Numbered,
    admitted: Admitted,
) -> Result<Option<u32>, Spent>
    requires { IsAdmitted (StandsForBoth both.old) event.now admitted }
    ensures told { (h : List Numbered) (judged : Numbered) → IsJudgedAs event.now judged →
        ComesAfter (StandsForBoth both.old) h judged admitted →
        IfOk result (Tells (StandsForBoth both.new) (h ++ judged ∷ []) (length h)) }
    ensures kept { OnOk result ((given : List Given) (label : Option (List ℕ)) →
        KeepsInOrder both.old given → KeepsInOrder both.new
        (given ++ record {
          line = line;
          event = event.now;
          admitted = admitted;
          label = label;
        } ∷ [])) }
{
    let inside = both.leads.in_block(event.thread);
    let told = by_kind::judge(&mut both.leads, event, admitted)?;
    both.transactions.add(line, event, inside)?;
    Ok(told)
}
