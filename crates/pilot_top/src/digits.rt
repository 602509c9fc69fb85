//! Identifiers in digits.
ghost use Rattle.std.specs.Prelude.{◌≡◌, length};
ghost use Rattle.flat_machine.specs.Text.{id_text};

use labelled_disk::FileId;

/// The 16 digits of an identifier.
pub(crate) fn id_digits(id: FileId) -> [u8; 16]
    ensures digits { result ≡ id_text id }
    ensures size { length result ≡ 16 }
{
    let mut digits = [0; 16];
    let _ = hex::encode_to_slice(&id.to_be_bytes(), &mut digits);
    digits
}
