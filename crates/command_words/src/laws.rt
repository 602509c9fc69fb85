//! What the definitions say, as the contract of a function that does nothing.
ghost use Rattle.std.specs.Prelude.{◌≡◌, List, String};
ghost use Rattle.std.specs.declared.alloc.Global.{Global};
ghost use Rattle.command_words.specs.Meaning.{Means};
ghost use Rattle.command_words.specs.Options.{IsInRange};
ghost use Rattle.command_words.specs.Plain.{IsPlain};
ghost use Rattle.command_words.specs.declared.words.Command.{Command};

/// Plain words mean what they say, and words mean one command at most.
pub fn plain_is_meant()
    ensures plain { (words : List (String Global)) (c : Command) → IsPlain words c → Means words c }
    ensures one { (words : List (String Global)) (c d : Command) → Means words c → Means words d → c ≡ d }
{}

/// Each number of a command that words mean is in its range.
pub fn what_is_meant_is_in_range()
    ensures { (words : List (String Global)) (c : Command) → Means words c → IsInRange c }
{}
