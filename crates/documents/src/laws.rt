//! What the clauses of a put and of a get give together, shown on functions that do nothing.
ghost use Rattle.documents.specs.Beside.{SettledBeside};
ghost use Rattle.documents.specs.Laws.{WhatIsKeptIsGot, WhatIsPutIsGot, WhatIsPutLasts, WhatIsPutStays};
ghost use Rattle.documents.specs.Refusals.{WhatIsPutIsFound};

/// What is got of a file is what was put into it, whichever machine has the file by then.
pub fn what_is_put_is_got()
    ensures { WhatIsPutIsGot }
{}

/// A file that is the document of some bytes is never found to be none.
pub fn what_is_put_is_found()
    ensures { WhatIsPutIsFound }
{}

/// What was put outlasts a stop of the volume, and its end.
pub fn what_is_put_stays()
    ensures { WhatIsPutStays }
{}

/// What was put is on the disk at each later stop, as long as the volume has it and nothing was stored to it.
pub fn what_is_put_lasts()
    ensures { WhatIsPutLasts }
{}

/// A document that is being put, a temporary file yet, is none that a stop leaves, and changes nothing else of what it
/// leaves.
pub fn what_is_temporary_is_unseen()
    ensures { SettledBeside }
{}

/// What is got of it in a session that begins later is what was put: after a close, and after a restoration of what a stop
/// left.
pub fn what_is_kept_is_got()
    ensures { WhatIsKeptIsGot }
{}
