//! A list of homes.
ghost use Rattle.std.specs.Prelude.{◌≡◌, ◌≤◌, length};

use frame_pool::Home;

pub(crate) const MOST: usize = 16;

/// 1 to 16 homes of pages in a row of one file.
#[derive(Drop)]
pub struct Homes {
    pub(crate) homes: [Home; MOST],
    pub(crate) count: u32,
    ghost some: { 1 ≤ count },
    ghost few: { count ≤ 16 },
}

impl Homes {
    ghost use Rattle.fault_core.specs.Homes.{homes_in};

    /// The homes, in the order of their pages.
    pub fn as_slice(&self) -> &[Home]
        ensures value { result.now ≡ homes_in self.now }
        ensures some { 1 ≤ length result.now }
        ensures few { length result.now ≤ 16 }
    {
        &self.homes[..self.count as usize]
    }
}
