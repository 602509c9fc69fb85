//! How a function says that it writes as permitted.
ghost use Rattle.std.specs.Prelude.{◌<◌, ◌≤◌, ◌+◌, length};
ghost use Rattle.label_laws.specs.PermittedRuns.{LawfullyLater};

use labelled_disk::{Disk, DiskError, Page, Wanted};

/// Writes bytes for the page that the label there names, twice.
pub fn put_twice<D: Disk>(
    disk: &mut D,
    sector: u32,
    wanted: Wanted,
    page: &Page,
) -> Result<(), DiskError>
    requires above { 0 < sector }
    requires exists { sector < (D.state disk.old).sectors }
    ensures permitted { LawfullyLater (D.state disk.old) (D.state disk.new) }
{
    disk.write_data(sector, wanted, page)?;
    disk.write_data(sector, wanted, page)
}

/// Writes bytes for pages in sectors that follow each other.
pub fn put_pages<D: Disk>(
    disk: &mut D,
    first: u32,
    id: u64,
    pages: &[Page],
) -> Result<(), DiskError>
    requires above { 0 < first }
    requires exist { first + length pages.now ≤ (D.state disk.old).sectors }
    requires few { length pages.now < 65536 }
    ensures permitted { LawfullyLater (D.state disk.old) (D.state disk.new) }
{
    for i in 0..pages.len() {
        let page = i as u32;
        disk.write_data(first + page, Wanted { id, page }, &pages[i])?;
    }
    Ok(())
}
