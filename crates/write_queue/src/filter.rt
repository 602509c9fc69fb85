//! A filter of sectors: one that it does not admit was not added.
ghost use Rattle.std.specs.Prelude.{◌≡◌, ℕ, false};
ghost use Rattle.write_queue.specs.Filtering.{admits, Adds, Renews};
ghost use Rattle.write_queue.specs.Finding.{Misses};

// How many places there are. The place of a sector is its number modulo that.
const PLACES: usize = 512;

// After so many additions sectors that were taken away are let go.
const MOST: u32 = 128;

/// The places of sectors that were added.
#[derive(Drop)]
pub(crate) struct Filter {
    taken: [bool; PLACES],
    // How many were added since the places were looked for anew.
    added: u32,
}

impl Filter {
    pub(crate) fn empty() -> Filter
        ensures { (sector : ℕ) → admits result sector ≡ false }
    {
        Filter {
            taken: [false; PLACES],
            added: 0,
        }
    }

    // Whether the sector may be one that was added.
    pub(crate) fn admits(&self, sector: u32) -> bool
        ensures { result ≡ admits self.now sector }
    {
        self.taken[sector as usize % PLACES]
    }

    pub(crate) fn add(&mut self, sector: u32)
        ensures { Adds sector self.old self.new }
    {
        self.taken[sector as usize % PLACES] = true;
        self.added = self.added.saturating_add(1);
    }

    // From time to time, lets go what is none of these sectors.
    pub(crate) fn renew(&mut self, sectors: &[u32])
        ensures { Renews sectors.now self.old self.new }
    {
        if self.added < MOST {
            return;
        }
        *self = Filter::of(sectors);
    }

    fn of(sectors: &[u32]) -> Filter
        ensures { (sector : ℕ) → admits result sector ≡ false → Misses sector sectors.now }
    {
        let mut taken = [false; PLACES];
        for sector in sectors {
            taken[*sector as usize % PLACES] = true;
        }
        Filter { taken, added: 0 }
    }
}
