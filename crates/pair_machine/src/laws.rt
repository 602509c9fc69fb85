//! What the definitions of a pair say, as the contracts of functions that do nothing.
ghost use Rattle.pair_machine.specs.Laws.{PairsStay, AllowedAreAllowed, TranscriptsAreTranscripts, AgreeingAreSame};

/// What holds of every pair holds after every call, a refused call changes nothing, and each call has an allowed
/// reply.
pub fn pairs_stay()
    ensures { PairsStay }
{}

/// The transcripts of the machine of files and windows are of the form that those of pairs have.
pub fn one_form_of_transcripts()
    ensures allowed { AllowedAreAllowed }
    ensures same { TranscriptsAreTranscripts }
{}

/// Files of a disk that agree with permanent files of bytes alone are those files.
pub fn agreeing_files_are_same()
    ensures { AgreeingAreSame }
{}
