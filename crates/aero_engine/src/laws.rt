//! The laws of the clock rules over whole runs.
ghost use Rattle.aero_engine.specs.Laws.{ClocksExist, ClocksCountWhatLeads, NothingIsMissed, TheOpenerIsNamed, TheOpenerIsNamedAtEnd, BeginClockIsATest, NoEventNoCount, JudgedBegins, JudgedBeginsAtEnd};

/// The first events of each trace have clocks by the rules.
pub fn clocks_exist()
    ensures { ClocksExist }
{}

/// Clocks by the rules count exactly the blocks that lead to an event.
pub fn clocks_count_what_leads()
    ensures { ClocksCountWhatLeads }
{}

/// Where no event is judged there is no telling cycle.
pub fn nothing_is_missed()
    ensures { NothingIsMissed }
{}

/// The first event that is judged is the closing event, and the opener is named.
pub fn the_opener_is_named()
    ensures { TheOpenerIsNamed }
{}

/// The same of an event that ends a block.
pub fn the_opener_is_named_at_an_end()
    ensures { TheOpenerIsNamedAtEnd }
{}

/// The clock of a block's begin can be compared in place of the block's number.
pub fn a_begin_clock_is_a_test()
    ensures { BeginClockIsATest }
{}

/// The clock of a slot without a last event counts nothing.
pub fn no_event_no_count()
    ensures { NoEventNoCount }
{}

/// What is judged begins a telling cycle, also where the clocks miss something.
pub fn what_is_judged_begins_a_cycle()
    ensures { JudgedBegins }
{}

/// The same of an event that ends a block.
pub fn what_is_judged_at_an_end_begins_a_cycle()
    ensures { JudgedBeginsAtEnd }
{}
