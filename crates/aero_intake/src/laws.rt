//! The laws of sources that are judged by their chunks.
ghost use Rattle.aero_intake.specs.Laws.{ChunksJudgeAsTheText, FirstChunksDecide};

/// However the bytes of a source came, what its chunks say has the verdicts that its text has, the
/// same serial order, and the same events of telling cycles.
pub fn chunks_are_judged_as_the_text()
    ensures { ChunksJudgeAsTheText }
{}

/// Once a line is malformed, or there are more lines than may be, no chunk that comes later changes
/// the verdicts, nor the serial order, nor the events of telling cycles.
pub fn chunks_after_a_fault_do_not_count()
    ensures { FirstChunksDecide }
{}
