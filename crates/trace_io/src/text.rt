//! A line that is being put together.
ghost use Rattle.std.specs.Prelude.{◌≡◌, ◌≤◌, ◌+◌, ◌*◌, [], ◌++◌, ◌∷◌, codes, length};
ghost use Rattle.std.specs.Fmt.{decimal};
ghost use Rattle.hex.specs.Hex.{encode_lower};
ghost use Rattle.flat_machine.specs.Text.{id_text};
ghost use Rattle.trace_io.specs.CallText.{mode_text};

use crate::digits::write_digits;
use arrayvec::ArrayVec;
use itoa::Buffer;
use std::marker::Model;

/// A line that is being put together.
#[derive(Drop)]
pub(crate) struct Text {
    bytes: ArrayVec<u8, 192>,
}

impl Model for Text {
    ghost use Rattle.std.specs.Prelude.{List, ℕ};

    ghost Value = { List ℕ };

    ghost view = { λ t. t.bytes.items };
}

impl Text {
    // No bytes yet.
    pub(crate) fn new() -> Text
        ensures { result ≡ [] }
    {
        Text {
            bytes: ArrayVec::new(),
        }
    }

    pub(crate) fn put(&mut self, piece: &[u8])
        requires { length self.old + length piece.now ≤ 192 }
        ensures text { self.new ≡ self.old ++ piece.now }
        ensures size { length self.new ≡ length self.old + length piece.now }
    {
        let _ = self.bytes.try_extend_from_slice(piece);
    }

    pub(crate) fn put_number(&mut self, n: u32)
        requires { length self.old + 10 ≤ 192 }
        ensures text { self.new ≡ self.old ++ decimal n }
        ensures size { length self.new ≤ length self.old + 10 }
    {
        self.put(Buffer::new().format(n).as_bytes());
    }

    // A number of one byte. One of up to two digits, as clients have, is put without a division loop.
    #[tactic(auto, using(crate::proofs::DecimalLemmas::decimal_one, crate::proofs::DecimalLemmas::decimal_two))]
    pub(crate) fn put_small(&mut self, n: u8)
        requires { length self.old + 10 ≤ 192 }
        ensures text { self.new ≡ self.old ++ decimal n }
        ensures size { length self.new ≤ length self.old + 10 }
    {
        if n < 10 {
            self.put(&[b'0' + n]);
        } else if n < 100 {
            self.put(&[b'0' + n / 10, b'0' + n % 10]);
        } else {
            self.put_number(u32::from(n));
        }
    }

    // A client's number and a space, in one step where it has one digit.
    pub(crate) fn put_client(&mut self, n: u8)
        requires { length self.old + 11 ≤ 192 }
        ensures text { self.new ≡ self.old ++ decimal n ++ codes " " }
        ensures size { length self.new ≤ length self.old + 11 }
    {
        if n < 10 {
            self.put(&[b'0' + n, b' ']);
        } else {
            self.put_small(n);
            self.put(b" ");
        }
    }

    pub(crate) fn put_wide(&mut self, n: u64)
        requires { length self.old + 20 ≤ 192 }
        ensures text { self.new ≡ self.old ++ decimal n }
        ensures size { length self.new ≤ length self.old + 20 }
    {
        self.put(Buffer::new().format(n).as_bytes());
    }

    pub(crate) fn put_hex(&mut self, bytes: &[u8])
        requires room { length self.old + 128 ≤ 192 }
        requires short { length bytes.now ≤ 64 }
        ensures text { self.new ≡ self.old ++ encode_lower bytes.now }
        ensures size { length self.new ≡ length self.old + 2 * length bytes.now }
    {
        let mut digits = [0u8; 128];
        let digits = &mut digits[..2 * bytes.len()];
        write_digits(bytes, digits);
        self.put(digits);
    }

    // A space and a number.
    pub(crate) fn then_number(&mut self, n: u32)
        requires { length self.old + 11 ≤ 192 }
        ensures text { self.new ≡ self.old ++ 32 ∷ decimal n }
        ensures size { length self.new ≤ length self.old + 11 }
    {
        self.put(b" ");
        self.put_number(n);
    }

    // A space and an identifier.
    pub(crate) fn then_id(&mut self, id: u64)
        requires { length self.old + 129 ≤ 192 }
        ensures text { self.new ≡ self.old ++ 32 ∷ id_text id }
        ensures size { length self.new ≡ length self.old + 17 }
    {
        self.put(b" ");
        self.put_hex(&id.to_be_bytes());
    }

    // A space and a mode.
    pub(crate) fn then_mode(&mut self, writable: bool)
        requires { length self.old + 3 ≤ 192 }
        ensures text { self.new ≡ self.old ++ 32 ∷ mode_text writable }
        ensures size { length self.new ≡ length self.old + 3 }
    {
        self.put(if writable { b" rw" } else { b" ro" });
    }

    pub(crate) fn as_slice(&self) -> &[u8]
        ensures { result.now ≡ self.now }
    {
        &self.bytes
    }
}
