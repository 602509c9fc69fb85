//! What the definitions say, as the contracts of functions that do nothing.
ghost use Rattle.running_words.specs.RunningLaws.{RunningLaws};

/// What a core knows by the machine that it stands for, and which machine it stands for after a call.
pub fn running_cores()
    ensures { RunningLaws }
{}
