//! What rows tell of the events of a trace.
ghost use Rattle.aero_leads.specs.Laws.{LeastTellsWhatIsLed};

/// An open block leads to an event exactly where the least place that the rows have for the event's thread is the event's
/// or an earlier one.
pub fn the_least_place_tells_to_which_events_open_blocks_lead()
    ensures { LeastTellsWhatIsLed }
{}
