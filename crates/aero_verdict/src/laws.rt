//! The laws of verdicts: that a trace has exactly one, and what it says of the graph of transactions.
ghost use Rattle.aero_verdict.specs.Laws.{SomeVerdict, OneVerdict, SerializableHasNoCycle, ViolationHasCycle, PendingCyclesPassTwoOpen, EndsHideNothing};

/// All parts have a verdict under all limits and labels, whatever they hold.
pub fn a_trace_has_a_verdict()
    ensures { SomeVerdict }
{}

/// Two verdicts on the same parts under the same limits are equal. So whoever judges a trace by the
/// definitions, in whatever way, finds what `check_trace` returns.
pub fn a_trace_has_one_verdict()
    ensures { OneVerdict }
{}

/// Where the verdict is `Serializable`, the transactions have no cycle of conflicts at all: the
/// blocks behave as if each had run alone.
pub fn a_serializable_trace_has_no_cycle()
    ensures { SerializableHasNoCycle }
{}

/// Where the verdict is `Violation`, the events up to the line that is told have a cycle of
/// conflicts among their transactions, and it begins in the block that is told: no alarm is false.
pub fn a_violation_is_a_cycle()
    ensures { ViolationHasCycle }
{}

/// Where the verdict is `Pending`, each cycle of conflicts passes at least two blocks that have not
/// ended: a cycle is left untold only where the trace ends before all its blocks but one have ended.
pub fn each_cycle_of_a_pending_trace_passes_two_open_blocks()
    ensures { PendingCyclesPassTwoOpen }
{}

/// Where blocks that are open end, before their thread is joined and at the end, no verdict is `Pending`,
/// and where it is `Serializable`, the transactions have no cycle of conflicts without the added ends
/// either: no block that the trace leaves open hides one.
pub fn where_blocks_end_nothing_is_hidden()
    ensures { EndsHideNothing }
{}
