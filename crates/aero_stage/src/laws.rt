//! That each change of the queue is a step of the schedule.
ghost use Rattle.aero_stage.specs.Steps.{ChangesAreSteps, OpensAsStart};

/// A new queue with its ends is the start of a schedule of questions, jobs and answers.
pub fn a_new_queue_is_the_start_of_a_schedule()
    ensures { OpensAsStart }
{}

/// Each change of the queue is a step of the schedule of questions, jobs and answers: a post, a take
/// or a taking back. Where a stop comes or goes, or a Taker rejoins, the schedule stands still.
pub fn each_change_of_the_queue_is_a_step_of_the_schedule()
    ensures { ChangesAreSteps }
{}
