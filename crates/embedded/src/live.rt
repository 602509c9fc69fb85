//! A session with what its calls require of it.
ghost use Rattle.std.specs.Prelude.{◌≡◌};
ghost use Rattle.running_words.specs.Session.{IsOpen};
ghost use Rattle.embedded.specs.Once.{is_open_once};
ghost use Rattle.filer_kernel.specs.View.{FitsLayout};
ghost use Rattle.fault_core.specs.Core.{state};

use labelled_disk::Disk;
use pilot_engine::Session;
use std::alloc::Allocator;

/// A session whose disk has as many sectors as its layout, and whose root may be written.
#[derive(Drop)]
pub(crate) struct Live<D: Disk, A: Allocator> {
    pub(crate) session: Session<D, A>,
    ghost size: { FitsLayout (state session.core) },
    ghost opened: { IsOpen (state session.core).layout session.volume } by { is_open_once (state session.core).layout session.volume },
}

impl<D: Disk, A: Allocator> Live<D, A> {
    pub(crate) fn of(session: Session<D, A>) -> Live<D, A>
        requires size { FitsLayout (state session.core) }
        requires opened { IsOpen (state session.core).layout session.volume }
        ensures { result.session ≡ session }
    {
        Live { session }
    }

    /// Gives up the session.
    pub(crate) fn into_session(self) -> Session<D, A>
        ensures { result ≡ self.session }
    {
        let Live { session } = self;
        session
    }
}
