//! Hex digits, read and written, a step for each in loops that a compiler can take many bytes at a time.
ghost use Rattle.std.specs.Prelude.{◌≡◌, ◌<◌, ◌*◌, length, slice_index, Some, Ok, true};
ghost use Rattle.std.specs.List.{list_all, AllPass};
ghost use Rattle.hex.specs.Hex.{is_hex_digit, decode_of, hex_digit_value, lower_digits, encode_lower};

// Looks at each byte, also after one that is no digit.
pub(crate) fn are_hex_digits(word: &[u8]) -> bool
    ensures { result ≡ list_all is_hex_digit word.now }
{
    let mut all = true;
    for b in word {
        all &= b.is_ascii_hexdigit();
    }
    all
}

// The value of a digit, in either case: letters have 64 in their code, and their last four bits
// count from 1.
fn value_of_digit(digit: u8) -> u8
    requires { is_hex_digit digit ≡ true }
    ensures value { hex_digit_value digit ≡ Some result }
    ensures small { result < 16 }
{
    digit % 16 + digit / 64 * 9
}

// Reads two digits for each byte.
pub(crate) fn read_digits(word: &[u8], bytes: &mut [u8])
    requires digits { AllPass is_hex_digit word.now }
    requires long { length word.now ≡ 2 * length bytes.old }
    ensures value { decode_of word.now ≡ Ok bytes.new }
    ensures width { length bytes.new ≡ length bytes.old }
{
    for k in 0..bytes.len() {
        bytes[k] = value_of_digit(word[2 * k]) * 16 + value_of_digit(word[2 * k + 1]);
    }
}

fn digit_of(value: u8) -> u8
    requires { value < 16 }
    ensures { result ≡ slice_index lower_digits value }
{
    if value < 10 {
        b'0' + value
    } else {
        b'a' - 10 + value
    }
}

// Writes two digits for each byte.
pub(crate) fn write_digits(bytes: &[u8], digits: &mut [u8])
    requires { length digits.old ≡ 2 * length bytes.now }
    ensures { digits.new ≡ encode_lower bytes.now }
{
    for k in 0..bytes.len() {
        digits[2 * k] = digit_of(bytes[k] / 16);
        digits[2 * k + 1] = digit_of(bytes[k] % 16);
    }
}
