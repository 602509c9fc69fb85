//! What the definitions say, shown on functions that do nothing.
ghost use Rattle.pair_session.specs.Lines.{AnswersAreTranscripts, AnswersSuit};

/// The texts of replies that a pair allows to lines are a transcript, and the replies suit the lines.
pub fn answers_are_transcripts()
    ensures transcripts { AnswersAreTranscripts }
    ensures suit { AnswersSuit }
{}
