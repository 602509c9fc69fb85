//! Big-endian fields of records, read and written at a stated offset.

/// Reads a big-endian field at an offset of a record, or writes it with `=> value`.
///
/// The record is an array or a slice of bytes, and the first word names the field's width: `u16`, `u32` or `u64`.
/// The caller has `BigEndian` and `ByteOrder` of byteorder in scope.
#[macro_export]
macro_rules! field {
    (u16, $record:expr, $at:expr) => {{
        let bytes = &$record[..];
        BigEndian::read_u16(&bytes[$at..])
    }};
    (u32, $record:expr, $at:expr) => {{
        let bytes = &$record[..];
        BigEndian::read_u32(&bytes[$at..])
    }};
    (u64, $record:expr, $at:expr) => {{
        let bytes = &$record[..];
        BigEndian::read_u64(&bytes[$at..])
    }};
    (u16, $record:expr, $at:expr => $value:expr) => {{
        let bytes = &mut $record[..];
        BigEndian::write_u16(&mut bytes[$at..], $value)
    }};
    (u32, $record:expr, $at:expr => $value:expr) => {{
        let bytes = &mut $record[..];
        BigEndian::write_u32(&mut bytes[$at..], $value)
    }};
    (u64, $record:expr, $at:expr => $value:expr) => {{
        let bytes = &mut $record[..];
        BigEndian::write_u64(&mut bytes[$at..], $value)
    }};
}
