//! The root of a volume, as it is written.
ghost use Rattle.std.specs.Prelude.{◌≡◌, ◌≤◌, ◌⊎◌, ◌++◌, drop, length};
ghost use Rattle.std.specs.Prelude.{IfErr, OnOk, OnErr};
ghost use Rattle.labelled_disk.specs.Calls.{Moves, Rose, RevealsSame, RevealsWrite};
ghost use Rattle.volume_root.specs.RootPage.{IsValidRoot, root_bytes, root_write};
ghost use Rattle.volume_root.specs.RootPage.{number_bytes, root_fields};

use crate::page::MAGIC;
use crate::{Root, RootFault};
use byteorder::{BigEndian, ByteOrder};
use labelled_disk::{Disk, Label, PAGE_BYTES, Page};

fn write_numbers(bytes: &mut [u8], root: &Root)
    requires { 12 ≤ length bytes.old }
    ensures { bytes.new ≡ number_bytes root.now ++ drop 12 bytes.old }
{
    BigEndian::write_u32(bytes, root.sectors);
    BigEndian::write_u32(&mut bytes[4..], root.serial);
    BigEndian::write_u32(&mut bytes[8..], root.counter);
}

fn write_fields(bytes: &mut [u8], root: &Root)
    requires { 24 ≤ length bytes.old }
    ensures { bytes.new ≡ root_fields root.now ++ drop 24 bytes.old }
{
    bytes[..8].copy_from_slice(MAGIC);
    BigEndian::write_u16(&mut bytes[8..], root.version);
    BigEndian::write_u16(&mut bytes[10..], u16::from(root.clean));
    write_numbers(&mut bytes[12..], root);
}

fn page_of(root: &Root) -> Page
    ensures { result ≡ root_bytes root.now }
{
    let mut page = [0; PAGE_BYTES];
    write_fields(&mut page, root);
    page
}

/// Writes sector 0 with the root's label and the page of this root. Its fields must be those of a
/// volume on this disk.
pub fn write_root<D: Disk>(disk: &mut D, root: &Root) -> Result<(), RootFault>
    requires { IsValidRoot (D.state disk.old).sectors root.now }
    ensures ok { OnOk result (RevealsWrite (root_write root.now)
        (D.state disk.old) (D.state disk.new)) }
    ensures err { OnErr result (RevealsSame (D.state disk.old) (D.state disk.new)
        ⊎ RevealsWrite (root_write root.now) (D.state disk.old) (D.state disk.new)) }
    ensures err_disk { IfErr result (λ fault. fault ≡ RootFault.Disk) }
    ensures cause { OnErr result (Rose (D.state disk.old).faults (D.state disk.new).faults) }
    ensures moves { Moves (D.state disk.old) (D.state disk.new) }
{
    match disk.write(0, &Label::ROOT, &page_of(root)) {
        Ok(()) => Ok(()),
        Err(_) => Err(RootFault::Disk),
    }
}
