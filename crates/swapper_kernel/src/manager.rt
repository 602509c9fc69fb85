//! The two maps of a volume.
ghost use Rattle.std.specs.Prelude.{◌≡◌, ◌<◌, ◌+◌};
ghost use Rattle.swapper_kernel.specs.Homes.{IsLayout};
ghost use Rattle.swapper_kernel.specs.Maps.{id_of, pages_of, map_home};

use frame_pool::Home;
use labelled_disk::{FileId, Layout};

/// A map whose pages stand where the layout says.
#[derive(Clone, Copy, Debug, PartialEq, Eq)]
pub enum Manager {
    /// Which sectors are used.
    AllocationMap,
    /// Which page of which file stands in which sector.
    FileMap,
}

impl Manager {
    /// The identifier that the labels of its pages have.
    pub fn id(self) -> FileId
        ensures { result ≡ id_of self }
    {
        match self {
            Manager::AllocationMap => 1,
            Manager::FileMap => 2,
        }
    }

    /// How many pages it has.
    pub fn pages(self, layout: &Layout) -> u32
        ensures { result ≡ pages_of self layout.now }
    {
        match self {
            Manager::AllocationMap => layout.vam,
            Manager::FileMap => layout.vfm,
        }
    }

    /// The home of one of its pages.
    pub fn home(self, layout: &Layout, page: u32) -> Home
        requires layout { IsLayout layout.now }
        requires page { page < pages_of self layout.now }
        ensures { result ≡ map_home self layout.now page }
    {
        let start = match self {
            Manager::AllocationMap => 1,
            Manager::FileMap => 1 + layout.vam,
        };
        Home {
            sector: start + page,
            id: self.id(),
            page,
        }
    }
}
