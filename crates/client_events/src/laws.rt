//! What the definitions say, shown on functions that do nothing.
ghost use Rattle.client_events.specs.Answers.{AnswersAreRuns, AnswersGrow, AnswersSuit};

/// Lines that were answered, and one more.
pub fn answers_grow()
    ensures { AnswersGrow }
{}

/// Lines that were answered, without the bad ones, are a run of the crowd.
pub fn answers_are_runs()
    ensures runs { AnswersAreRuns }
    ensures suit { AnswersSuit }
{}
