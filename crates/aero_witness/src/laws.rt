ghost use Rattle.aero_witness.specs.Trail.{TrailHasTellingCycles};
ghost use Rattle.aero_witness.specs.Led.{NoneIsLedLater, LaterCyclesAreLed, LedAsAWhole, TrailIsLed};
ghost use Rattle.aero_witness.specs.Thinned.{ThinnedHasTransactions, ThinnedHasTellingCycles, EnoughStays, LedIsEnough, EnoughHasShortest};

/// Where each begin or end that isn't outermost is recorded as `What::Exempt`, and all else as it is but
/// for labels, what is recorded has the transactions and the telling cycles of the trace.
pub fn a_trail_has_the_telling_cycles_of_its_trace()
    ensures { TrailHasTellingCycles }
{}

/// What a block leads to after more events, a block that is open already leads to, unless it is one of these events.
pub fn open_blocks_lead_to_no_earlier_event_later()
    ensures { NoneIsLedLater }
{}

/// A telling cycle that there is after more events, and that begins in a block that is open or begins later, has of the
/// events before only those to which an open block leads.
pub fn later_cycles_have_what_open_blocks_lead_to()
    ensures { LaterCyclesAreLed }
{}

/// Open blocks lead to all events of a transaction, or to none.
pub fn open_blocks_lead_to_whole_transactions()
    ensures { LedAsAWhole }
{}

/// Where each begin or end that isn't outermost is recorded as `What::Exempt`, open blocks lead to the same events.
pub fn open_blocks_lead_to_the_same_events_in_a_trail()
    ensures { TrailIsLed }
{}

/// Where whole transactions are left out, what is kept has the transactions of the trace, and they have ended where
/// they had.
pub fn what_is_kept_has_the_transactions_of_its_trace()
    ensures { ThinnedHasTransactions }
{}

/// Where whole transactions are left out, visits are a telling cycle of what is kept exactly where they are one of the
/// trace.
pub fn what_is_kept_has_telling_cycles_of_its_trace()
    ensures { ThinnedHasTellingCycles }
{}

/// What is kept of a trace is enough where whole transactions are left out, and none to which an open block leads. With
/// the next event it is still enough.
pub fn what_is_enough_is_enough_with_the_next_event()
    ensures { EnoughStays }
{}

/// Of what is enough, just what open blocks lead to is enough.
pub fn what_open_blocks_lead_to_is_enough()
    ensures { LedIsEnough }
{}

/// A shortest telling cycle of what is enough, of those that begin in an open block, is a shortest one of the trace, and
/// there is one where the trace has one.
pub fn what_is_enough_has_the_shortest_telling_cycles()
    ensures { EnoughHasShortest }
{}
