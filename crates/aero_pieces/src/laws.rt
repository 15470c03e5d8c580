//! What every schedule of questions, jobs and answers keeps.
ghost use Rattle.aero_pieces.specs.Laws.{KeepsJobs, KeepsOrder};

/// Whatever happens, and in whatever order, the values that were given are those of the first
/// questions asked, in the order in which they were asked, and the questions that are open are the
/// rest.
pub fn values_are_given_in_the_order_of_the_questions()
    ensures { KeepsOrder }
{}

/// Whatever happens, and in whatever order, the queue, the workers' hands and what was taken back
/// have jobs in the order in which they were posted, and together each as often as it was posted.
pub fn each_posted_job_is_in_one_place()
    ensures { KeepsJobs }
{}
