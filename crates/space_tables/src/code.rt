//! The 32 bytes of an interval, and of a slot of the hierarchy.
ghost use Rattle.std.specs.Prelude.{◌≡◌, ◌≤◌, ◌==◌, true, Some, None, IfSome, is_some, if◌then◌else◌};
ghost use Rattle.record_table.specs.Field.{field};
ghost use Rattle.swap_units.specs.Mode.{mode_in};
ghost use Rattle.projection_laws.specs.Stored.{bytes_of, interval_in, slot_bytes, slot_in, space_in, window_in};
ghost use Rattle.projection_laws.specs.Sight.{mode_of};
ghost use Rattle.space_tables.specs.Form.{lies_in_root, is_unit, may_be_shown, in_form, is_interval_record, is_slot_record, space_in_form, has_plain_bytes};

use byteorder::{BigEndian, ByteOrder};
use flat_machine::{Space, Window};
use labelled_disk::FileId;
use record_table::field;
use swap_units::{Interval, Mode, ROOT_PAGES};

/// The bytes of a record.
pub type Record = [u8; 32];

fn lies_in_root(first: u32, pages: u32) -> bool
    ensures { result ≡ lies_in_root first pages }
{
    1 <= pages && u64::from(first) + u64::from(pages) <= u64::from(ROOT_PAGES)
}

fn is_unit(unit: u8) -> bool
    ensures { result ≡ is_unit unit }
{
    1 <= unit && unit <= 16
}

fn may_be_shown(id: FileId, page: u32, pages: u32) -> bool
    ensures { result ≡ may_be_shown id page pages }
{
    16 <= id && u64::from(page) + u64::from(pages) <= 1 << 32
}

fn in_form(x: &Interval) -> bool
    ensures { result ≡ in_form x.now }
{
    lies_in_root(x.first, x.pages)
        && is_unit(x.unit)
        && (!x.mode.is_mapped() || may_be_shown(x.id, x.page, x.pages))
        && x.space <= 511
        && x.mapped <= 511
        && x.start <= x.first
}

// The interval in a record, with the mode that its byte has.
fn interval_of(bytes: &Record, mode: Mode) -> Interval
    ensures { result ≡ record (interval_in bytes.now) { mode = mode } }
{
    Interval {
        first: field!(u32, bytes, 0),
        pages: field!(u32, bytes, 4),
        space: field!(u16, bytes, 8),
        unit: bytes[10],
        mode,
        start: field!(u32, bytes, 12),
        id: field!(u64, bytes, 16),
        page: field!(u32, bytes, 24),
        mapped: field!(u16, bytes, 28),
    }
}

// The interval in a record, or None where no mode has the byte of its mode.
fn decoded(bytes: &Record) -> Option<Interval>
    ensures { result ≡ (if is_some (mode_in (field 1 11 bytes.now)) then Some (interval_in bytes.now) else None) }
{
    let mode = Mode::from_code(bytes[11])?;
    Some(interval_of(bytes, mode))
}

fn ends_in_zeros(bytes: &Record) -> bool
    ensures { result ≡ (field 2 30 bytes.now == 0) }
{
    field!(u16, bytes, 30) == 0
}

/// The interval in a record, or None where the record breaks its form.
pub fn read_interval(bytes: &Record) -> Option<Interval>
    ensures interval { result ≡ (if is_interval_record bytes.now then Some (interval_in bytes.now) else None) }
    ensures form { IfSome result (λ x. in_form x ≡ true) }
{
    let interval = decoded(bytes)?;
    if in_form(&interval) && ends_in_zeros(bytes) {
        Some(interval)
    } else {
        None
    }
}

/// The record of an interval.
pub fn interval_bytes(x: &Interval) -> Record
    ensures { result ≡ bytes_of x.now }
{
    let mut bytes = [0; 32];
    field!(u32, bytes, 0 => x.first);
    field!(u32, bytes, 4 => x.pages);
    field!(u16, bytes, 8 => x.space);
    bytes[10] = x.unit;
    bytes[11] = x.mode.to_code();
    field!(u32, bytes, 12 => x.start);
    field!(u64, bytes, 16 => x.id);
    field!(u32, bytes, 24 => x.page);
    field!(u16, bytes, 28 => x.mapped);
    bytes
}

/// The mode of the pages that a window shows.
pub fn mode_of(window: &Window) -> Mode
    ensures { result ≡ mode_of window.now }
{
    Mode::Mapped {
        writable: window.writable,
        anonymous: window.anonymous,
    }
}

fn window_in(mode: Mode, id: FileId, page: u32) -> Option<Window>
    ensures { result ≡ window_in mode id page }
{
    match mode {
        Mode::Unmapped => None,
        Mode::Mapped {
            writable,
            anonymous,
        } => Some(Window {
            file: id,
            first: page,
            writable,
            anonymous,
        }),
    }
}

// The space in the record of a handle, with the mode that its byte has.
fn space_of(handle: u32, bytes: &Record, mode: Mode) -> Space
    ensures { result ≡ record (space_in handle bytes.now)
        { window = window_in mode (field 8 16 bytes.now) (field 4 24 bytes.now) } }
{
    Space {
        handle,
        parent: field!(u16, bytes, 4).into(),
        first: field!(u32, bytes, 8),
        pages: field!(u32, bytes, 12),
        unit: bytes[1],
        window: window_in(mode, field!(u64, bytes, 16), field!(u32, bytes, 24)),
    }
}

// The space in the record of a handle, or None where no mode has the byte of its mode.
fn space_in(handle: u32, bytes: &Record) -> Option<Space>
    ensures { result ≡ (if is_some (mode_in (field 1 2 bytes.now)) then Some (space_in handle bytes.now) else None) }
{
    let mode = Mode::from_code(bytes[2])?;
    Some(space_of(handle, bytes, mode))
}

fn space_in_form(s: &Space) -> bool
    ensures { result ≡ space_in_form s.now }
{
    let shown = match s.window {
        Some(window) => may_be_shown(window.file, window.first, s.pages),
        None => true,
    };
    lies_in_root(s.first, s.pages) && is_unit(s.unit) && s.parent <= 511 && shown
}

fn has_plain_bytes(bytes: &Record) -> bool
    ensures { result ≡ has_plain_bytes bytes.now }
{
    bytes[0] == 1 && bytes[3] == 0 && field!(u16, bytes, 6) == 0 && field!(u32, bytes, 28) == 0
}

/// The space in the record of a handle, or none there. The outer None means that the record breaks its form.
pub fn read_slot(handle: u32, bytes: &Record) -> Option<Option<Space>>
    ensures slot { result ≡ (if is_slot_record bytes.now then Some (slot_in handle bytes.now) else None) }
    ensures form { IfSome result (λ o. IfSome o (λ s. (space_in_form s ≡ true) × (s.handle ≡ handle))) }
{
    if bytes[0] == 0 {
        return Some(None);
    }
    let space = space_in(handle, bytes)?;
    if has_plain_bytes(bytes) && space_in_form(&space) {
        Some(Some(space))
    } else {
        None
    }
}

/// The record of a space.
pub fn space_bytes(s: &Space) -> Record
    requires { s.now.parent ≤ 511 }
    ensures { result ≡ slot_bytes (Some s.now) }
{
    let mut bytes = [0; 32];
    bytes[0] = 1;
    bytes[1] = s.unit;
    field!(u16, bytes, 4 => s.parent as u16);
    field!(u32, bytes, 8 => s.first);
    field!(u32, bytes, 12 => s.pages);
    if let Some(window) = &s.window {
        bytes[2] = mode_of(window).to_code();
        field!(u64, bytes, 16 => window.file);
        field!(u32, bytes, 24 => window.first);
    }
    bytes
}
