//! Fields of JSON objects. They are written one by one, so that no object is held in memory: names and
//! texts have no character that JSON would have escaped.
use labelled_disk::FileId;
use std::alloc::AllocError;

/// Writes a field that is a number.
pub(crate) fn number(out: &mut String, name: &str, value: u32) -> Result<(), AllocError> {
    write!(out, "\"{name}\":{value}")
}

/// Writes a field that is true or false.
pub(crate) fn flag(out: &mut String, name: &str, value: bool) -> Result<(), AllocError> {
    write!(out, "\"{name}\":{value}")
}

/// Writes a field that is a text.
pub(crate) fn text(out: &mut String, name: &str, value: &str) -> Result<(), AllocError> {
    write!(out, "\"{name}\":\"{value}\"")
}

/// Writes a field that is an identifier.
pub(crate) fn identifier(out: &mut String, name: &str, id: FileId) -> Result<(), AllocError> {
    write!(out, "\"{name}\":\"{id:016x}\"")
}

/// Writes a comma, and a field that is a number.
pub(crate) fn next_number(out: &mut String, name: &str, value: u32) -> Result<(), AllocError> {
    out.push(',')?;
    number(out, name, value)
}

/// Writes a comma, and a field that is true or false.
pub(crate) fn next_flag(out: &mut String, name: &str, value: bool) -> Result<(), AllocError> {
    out.push(',')?;
    flag(out, name, value)
}

/// Begins an item of a list, on a line of its own.
pub(crate) fn begin_item(out: &mut String, index: usize) -> Result<(), AllocError> {
    if index > 0 {
        out.push(',')?;
    }
    out.push_str("\n{")
}
