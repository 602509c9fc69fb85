//! Where the parts of a volume lie on a disk.
ghost use Rattle.std.specs.Prelude.{◌≡◌, IfOk, IfErr};
ghost use Rattle.labelled_disk.specs.Layout.{IsCount, layout_of};

use crate::TABLE_PAGES;
use thiserror::Error;

/// The parts of a volume, in sectors.
#[derive(Clone, Copy, Debug, PartialEq, Eq)]
pub struct Layout {
    /// All sectors of the disk.
    pub sectors: u32,
    /// The sectors of the allocation map, which starts at sector 1.
    pub vam: u32,
    /// The sectors of the file map, which follows it.
    pub vfm: u32,
    /// The first data sector.
    pub first: u32,
    /// The data sectors that files may have, their leaders among them.
    pub capacity: u32,
}

/// The first thing in which a sector 0 differs from the root of a volume. The texts are those of the last lines.
#[derive(Clone, Copy, Debug, PartialEq, Eq, Error)]
pub enum Difference {
    #[error("label")]
    Label,
    #[error("magic")]
    Magic,
    /// The root's count of sectors is not the disk's.
    #[error("count")]
    Count(u32),
    #[error("serial")]
    Serial,
    #[error("counter")]
    Counter,
    /// The clean flag is neither 0 nor 1.
    #[error("flag")]
    Flag(u16),
    /// This byte, the first such after the fields, is not 0.
    #[error("rest")]
    Rest(u16),
}

/// Why a volume is refused.
#[derive(Clone, Copy, Debug, PartialEq, Eq, Error)]
pub enum RootFault {
    #[error("the disk has no volume: {0}")]
    NotVolume(Difference),
    #[error("the volume was not closed")]
    Unclean,
    #[error("the volume has version {0}")]
    Version(u16),
    /// A volume has from 256 to 1,048,576 sectors.
    #[error("a disk of {0} sectors can't hold a volume")]
    BadCount(u32),
    #[error("the disk failed")]
    Disk,
}

impl Layout {
    /// The layout of a volume on a disk of so many sectors, from 256 to 1,048,576. Sector 0 is the
    /// root; `TABLE_PAGES` data sectors are kept for the space tables of a session.
    pub fn of(sectors: u32) -> Result<Layout, RootFault>
        ensures layout { IfOk result (λ layout. IsCount sectors × (layout ≡ layout_of sectors)) }
        ensures refused { IfErr result (λ fault. ¬ IsCount sectors
            × (fault ≡ RootFault.BadCount sectors)) }
    {
        if sectors < 256 || sectors > 1_048_576 {
            return Err(RootFault::BadCount(sectors));
        }
        let vam = sectors.div_ceil(4096);
        let vfm = sectors / 8 + 2;
        Ok(Layout {
            sectors,
            vam,
            vfm,
            first: 1 + vam + vfm,
            capacity: sectors - 1 - vam - vfm - TABLE_PAGES,
        })
    }
}
