//! A new volume.
ghost use Rattle.std.specs.Prelude.{◌≡◌, ◌-◌, ◌≤◌, ◌<◌, ℕ, List, Some, Ok, Err, true, length, replicate};
ghost use Rattle.std.specs.Prelude.{IfOk, IfErr, OnOk, OnErr};
ghost use Rattle.cut_words.specs.Barriers.{HasBarriers};
ghost use Rattle.cut_words.specs.Between.{EachCutFromFirstSync};
ghost use Rattle.labelled_disk.specs.Calls.{OnlyReads, Rose, Syncs, Writes};
ghost use Rattle.labelled_disk.specs.Layout.{IsCount, layout_of};
ghost use Rattle.labelled_disk.specs.Sectors.{Sector, zero_sector};
ghost use Rattle.labelled_disk.specs.WriteRuns.{Appended};
ghost use Rattle.volume_root.specs.Format.{format_writes, formatted, IsFormatFault, IsNoneOrNew, JudgesCount, PartMade};
ghost use Rattle.volume_root.specs.Format.{new_sector, sector_writes, volume_writes};
ghost use Rattle.volume_root.specs.Format.{used_byte, used_page};
ghost use Rattle.volume_root.specs.Later.{IsLater};
ghost use Rattle.volume_root.specs.RootPage.{IsValidRoot};

use crate::read::VERSION;
use crate::{Layout, Root, RootFault, write_root};
use labelled_disk::{Disk, DiskError, DiskWrite, Label, PAGE_BYTES, Page};

// The bytes whose first bits are set: none, one, and so on.
const HIGH_BITS: [u8; 9] = [0, 128, 192, 224, 240, 248, 252, 254, 255];

fn used_byte(used: u32, at: u32) -> u8
    requires { at < 131072 }
    ensures { result ≡ used_byte used at }
{
    HIGH_BITS[used.saturating_sub(8 * at).min(8) as usize]
}

fn used_page(used: u32, page: u32) -> Page
    requires { page < 256 }
    ensures { result ≡ used_page used page }
{
    let mut bytes = [0; PAGE_BYTES];
    for at in 0..PAGE_BYTES {
        bytes[at] = used_byte(used, PAGE_BYTES as u32 * page + at as u32);
    }
    bytes
}

#[tactic(auto, unfolding(crate::specs::Format::new_sector))]
fn new_sector(layout: &Layout, sector: u32) -> (Label, Page)
    requires { layout.now.vam ≤ 256 }
    ensures { result ≡ new_sector layout.now sector }
{
    if sector == 0 {
        (Label::FREE, [0; PAGE_BYTES])
    } else if sector <= layout.vam {
        (
            Label::of_page(1, 0, sector - 1),
            used_page(layout.first, sector - 1),
        )
    } else if sector < layout.first {
        (
            Label::of_page(2, 0, sector - 1 - layout.vam),
            [0; PAGE_BYTES],
        )
    } else {
        (Label::FREE, [0; PAGE_BYTES])
    }
}

// Whether the sector is free and has zeros: sector 0, as long as there is no root, and the data sectors.
fn is_bare(layout: &Layout, sector: u32) -> bool
    ensures { result ≡ true → new_sector layout.now sector ≡ zero_sector }
{
    sector == 0 || sector > layout.vam && sector >= layout.first
}

// Writes a sector as a new volume has it before its root. The zeros are made once for all sectors.
fn write_sector<D: Disk>(
    disk: &mut D,
    layout: &Layout,
    sector: u32,
    zeros: &Page,
) -> Result<(), DiskError>
    requires inside { sector < (D.state disk.old).sectors }
    requires vam { layout.now.vam ≤ 256 }
    requires zeros { zeros.now ≡ replicate 512 0 }
    ensures { Writes (DiskWrite.Whole sector (new_sector layout.now sector).0 (new_sector layout.now sector).1)
        (D.state disk.old) result (D.state disk.new) }
{
    if is_bare(layout, sector) {
        return disk.write(sector, &Label::FREE, zeros);
    }
    let (label, page) = new_sector(layout, sector);
    disk.write(sector, &label, &page)
}

// Writes the sectors from `from` up to `to`, ascending, as a new volume has them before its root.
fn write_sectors<D: Disk>(
    disk: &mut D,
    layout: &Layout,
    from: u32,
    to: u32,
) -> Result<(), RootFault>
    requires order { from ≤ to }
    requires inside { to ≤ (D.state disk.old).sectors }
    requires vam { layout.now.vam ≤ 256 }
    ensures made { OnOk result (Appended (sector_writes layout.now from (to - from))
        (D.state disk.old) (D.state disk.new)) }
    ensures part { OnErr result (PartMade (sector_writes layout.now from (to - from))
        (D.state disk.old) (D.state disk.new)) }
    ensures cause { OnErr result (Rose (D.state disk.old).faults (D.state disk.new).faults) }
    ensures err_disk { IfErr result (λ fault. fault ≡ RootFault.Disk) }
    ensures later { IsLater (D.state disk.old) (D.state disk.new) }
    ensures syncs { (D.state disk.new).syncs ≡ (D.state disk.old).syncs }
{
    let zeros = [0; PAGE_BYTES];
    for sector in from..to {
        let Ok(()) = write_sector(disk, layout, sector, &zeros) else {
            return Err(RootFault::Disk);
        };
    }
    Ok(())
}

fn sync<D: Disk>(disk: &mut D) -> Result<(), RootFault>
    ensures ok { OnOk result (Syncs (D.state disk.old) (Ok tt) (D.state disk.new)) }
    ensures err { OnErr result (Syncs (D.state disk.old) (Err DiskError.Failed) (D.state disk.new)) }
    ensures err_disk { IfErr result (λ fault. fault ≡ RootFault.Disk) }
{
    match disk.sync() {
        Ok(()) => Ok(()),
        Err(_) => Err(RootFault::Disk),
    }
}

// Makes a volume with this root. No other sector is written before the free sector 0 is on the
// medium, and the root is not written before all others are.
fn make_volume<D: Disk>(disk: &mut D, layout: &Layout, root: &Root) -> Result<(), RootFault>
    requires layout { layout.now ≡ layout_of (D.state disk.old).sectors }
    requires root { IsValidRoot (D.state disk.old).sectors root.now }
    ensures made { OnOk result (HasBarriers (volume_writes layout.now root.now)
        (length (volume_writes layout.now root.now)) (D.state disk.old) (D.state disk.new)) }
    ensures part { OnErr result ((made : ℕ)
        × HasBarriers (volume_writes layout.now root.now) made (D.state disk.old) (D.state disk.new)) }
    ensures synced { OnOk result ((D.state disk.new).synced ≡ true) }
    ensures cause { OnErr result (Rose (D.state disk.old).faults (D.state disk.new).faults) }
    ensures err_disk { IfErr result (λ fault. fault ≡ RootFault.Disk) }
    ensures later { IsLater (D.state disk.old) (D.state disk.new) }
{
    write_sectors(disk, layout, 0, 1)?;
    sync(disk)?;
    write_sectors(disk, layout, 1, layout.sectors)?;
    sync(disk)?;
    write_root(disk, root)?;
    sync(disk)
}

/// Makes a new volume of all sectors of the disk, clean and without a file. Sector 0 is written as a
/// free one, so that no older root is left; then every other sector, ascending; and then the root.
/// Each of the three waits until what was written before it is on the medium, and so does the
/// answer.
pub fn format<D: Disk>(disk: &mut D, serial: u32, counter: u32) -> Result<Layout, RootFault>
    requires serial { 1 ≤ serial }
    requires counter { 1 ≤ counter }
    ensures layout { IfOk result (λ layout. layout ≡ layout_of (D.state disk.old).sectors) }
    ensures contents { OnOk result ((d : List Sector) → (D.state disk.old).contents ≡ Some d
        → (D.state disk.new).contents ≡ Some (formatted (length d) serial counter)) }
    ensures made { OnOk result (Appended (format_writes (D.state disk.old).sectors serial counter)
        (D.state disk.old) (D.state disk.new)) }
    ensures synced { OnOk result ((D.state disk.new).synced ≡ true) }

    // What stands where the power went, whatever it answers.
    ensures cuts { EachCutFromFirstSync (λ d e. IsNoneOrNew (D.state disk.old).sectors serial counter e)
        (D.state disk.old) (D.state disk.new) }

    ensures count { JudgesCount (D.state disk.old) (D.state disk.new) result }

    // The disk failed.
    ensures part { result ≡ Err RootFault.Disk
        → PartMade (format_writes (D.state disk.old).sectors serial counter)
        (D.state disk.old) (D.state disk.new) }
    ensures cause { result ≡ Err RootFault.Disk
        → Rose (D.state disk.old).faults (D.state disk.new).faults }

    ensures err { IfErr result IsFormatFault }
    ensures later { IsLater (D.state disk.old) (D.state disk.new) }
{
    let layout = Layout::of(disk.sectors())?;
    let root = Root {
        version: VERSION,
        clean: true,
        sectors: layout.sectors,
        serial,
        counter,
    };
    make_volume(disk, &layout, &root)?;
    Ok(layout)
}
