//! That values come in the order of the questions, and that each call is a step of the schedule.
ghost use Rattle.aero_gather.specs.Laws.{CallsAreSteps, GivesInOrder};

/// Whatever is called on a new gatherer, in whatever order, and whatever answers come, the values
/// that it gives are those of the first questions asked, in the order in which they were asked, and
/// the questions that are open are the rest.
pub fn values_are_given_in_the_order_of_the_questions()
    ensures { GivesInOrder }
{}

/// Each call is a step of the schedule: from a world that has the gatherer's open questions to one
/// that has those after the call.
pub fn each_call_is_a_step_of_the_schedule()
    ensures { CallsAreSteps }
{}
