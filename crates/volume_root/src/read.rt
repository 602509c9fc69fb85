//! The root of a volume, as it is read and judged.
ghost use Rattle.std.specs.Prelude.{◌≡◌, ℕ, List, Some, Err, length, slice_get, IfOk};
ghost use Rattle.labelled_disk.specs.Calls.{OnlyReads, ReadsAtMost, Rose};
ghost use Rattle.labelled_disk.specs.Layout.{IsCount};
ghost use Rattle.labelled_disk.specs.Sectors.{Sector};
ghost use Rattle.volume_root.specs.RootPage.{judged, judged_by, first_of, is_labelled, is_magic, is_version, is_counted, has_serial, has_counter, is_flagged, is_rest, is_closed, root_in, IsUnlessFault, IsValidRoot};

use crate::page::{first_rest, has_magic, number_at, short_at};
use crate::{Difference, Layout, Root, RootFault};
use labelled_disk::{Disk, Label, PAGE_BYTES, Wanted};

/// The version of the volumes that are read.
pub(crate) const VERSION: u16 = 3;

fn first_of(tests: &[Option<RootFault>]) -> Option<RootFault>
    ensures { result ≡ first_of tests.now }
{
    for test in tests {
        if test.is_some() {
            return *test;
        }
    }
    None
}

fn is_labelled(label: &Label) -> Option<RootFault>
    ensures { result ≡ is_labelled label.now }
{
    (!label.names(Wanted::ROOT)).then_some(RootFault::NotVolume(Difference::Label))
}

fn is_magic(page: &[u8]) -> Option<RootFault>
    requires { length page.now ≡ 512 }
    ensures { result ≡ is_magic page.now }
{
    (!has_magic(page)).then_some(RootFault::NotVolume(Difference::Magic))
}

fn is_version(page: &[u8]) -> Option<RootFault>
    requires { length page.now ≡ 512 }
    ensures { result ≡ is_version page.now }
{
    let version = short_at(page, 8);
    (version != VERSION).then_some(RootFault::Version(version))
}

fn is_counted(sectors: u32, page: &[u8]) -> Option<RootFault>
    requires { length page.now ≡ 512 }
    ensures { result ≡ is_counted sectors page.now }
{
    let count = number_at(page, 12);
    (count != sectors).then_some(RootFault::NotVolume(Difference::Count(count)))
}

fn has_serial(page: &[u8]) -> Option<RootFault>
    requires { length page.now ≡ 512 }
    ensures { result ≡ has_serial page.now }
{
    (number_at(page, 16) == 0).then_some(RootFault::NotVolume(Difference::Serial))
}

fn has_counter(page: &[u8]) -> Option<RootFault>
    requires { length page.now ≡ 512 }
    ensures { result ≡ has_counter page.now }
{
    (number_at(page, 20) == 0).then_some(RootFault::NotVolume(Difference::Counter))
}

fn is_flagged(page: &[u8]) -> Option<RootFault>
    requires { length page.now ≡ 512 }
    ensures { result ≡ is_flagged page.now }
{
    let flag = short_at(page, 10);
    (flag > 1).then_some(RootFault::NotVolume(Difference::Flag(flag)))
}

fn is_rest(page: &[u8]) -> Option<RootFault>
    requires { length page.now ≡ 512 }
    ensures { result ≡ is_rest page.now }
{
    let at = first_rest(page)?;
    Some(RootFault::NotVolume(Difference::Rest(at)))
}

fn is_closed(clean_only: bool, page: &[u8]) -> Option<RootFault>
    requires { length page.now ≡ 512 }
    ensures { result ≡ is_closed clean_only page.now }
{
    (clean_only && short_at(page, 10) == 0).then_some(RootFault::Unclean)
}

fn root_in(page: &[u8]) -> Root
    requires { length page.now ≡ 512 }
    ensures { result ≡ root_in page.now }
{
    Root {
        version: short_at(page, 8),
        clean: short_at(page, 10) == 1,
        sectors: number_at(page, 12),
        serial: number_at(page, 16),
        counter: number_at(page, 20),
    }
}

/// The root of a disk of so many sectors whose first one has this label and page; `version` is the
/// test of its version.
pub(crate) fn judge(
    version: Option<RootFault>,
    clean_only: bool,
    sectors: u32,
    label: &Label,
    page: &[u8],
) -> Result<Root, RootFault>
    requires { length page.now ≡ 512 }
    ensures { result ≡ judged_by version clean_only sectors (label.now, page.now) }
{
    let tests = [
        is_labelled(label),
        is_magic(page),
        version,
        is_counted(sectors, page),
        has_serial(page),
        has_counter(page),
        is_flagged(page),
        is_rest(page),
        is_closed(clean_only, page),
    ];
    match first_of(&tests) {
        Some(fault) => Err(fault),
        None => Ok(root_in(page)),
    }
}

/// Reads the root of a volume, and tests it in a fixed order: the disk's count of sectors, the
/// label, the magic text, the version, the root's own count, serial, counter, clean flag, the bytes
/// after, and where `clean_only` is set that the volume was closed. The first test that fails is
/// the answer.
pub fn read_root<D: Disk>(disk: &mut D, clean_only: bool) -> Result<Root, RootFault>
    ensures count { ¬ IsCount (D.state disk.old).sectors
        → result ≡ Err (RootFault.BadCount (D.state disk.old).sectors) }
    ensures bad_count { (n : ℕ) → result ≡ Err (RootFault.BadCount n)
        → ¬ IsCount (D.state disk.old).sectors × (n ≡ (D.state disk.old).sectors) }
    ensures judged { IsCount (D.state disk.old).sectors → (d : List Sector) → (D.state disk.old).contents ≡ Some d
        → (s : Sector) → slice_get d 0 ≡ Some s → IsUnlessFault result (judged clean_only (length d) s) }
    ensures valid { IfOk result (IsValidRoot (D.state disk.old).sectors) }
    ensures cause { result ≡ Err RootFault.Disk → Rose (D.state disk.old).faults (D.state disk.new).faults }
    ensures only_reads { OnlyReads (D.state disk.old) (D.state disk.new) }
    ensures at_most { ReadsAtMost 1 (D.state disk.old) (D.state disk.new) }
{
    let sectors = disk.sectors();
    let _layout = Layout::of(sectors)?;
    let mut page = [0; PAGE_BYTES];
    let Ok(label) = disk.read(0, &mut page) else {
        return Err(RootFault::Disk);
    };
    judge(is_version(&page), clean_only, sectors, &label, &page)
}
