#![tactic(auto)]

ghost use Rattle.std.specs.Prelude.{◌≡◌, ◌<◌, ◌≤◌, true, length, decimal};
ghost use Rattle.std.specs.Fmt.{signed_decimal, digit_glyph};

mod digits;

use crate::digits::{put_number, put_signed};

// A printed number has at most so many bytes: a line of 1,024 of them has to fit its row.
const LIMIT: usize = 28;

/// The bytes of one printed number.
// An array with its length: a Text is copied, and the library's ArrayVec cannot be.
#[derive(Clone, Copy)]
pub struct Text {
    bytes: [u8; LIMIT],
    len: usize,
    ghost within_bytes: { len ≤ 28 },
}

impl Text {
    ghost use Rattle.text.specs.Writing.{hex, bytes_of};

    /// A number in decimal digits, with no leading zero.
    pub fn of_number(n: u64) -> Text
        ensures { bytes_of result ≡ decimal n }
    {
        let mut bytes = [0u8; LIMIT];
        let len = put_number(&mut bytes, 0, n);
        Text { bytes, len }
    }

    /// The same with a `-` before a number below zero.
    pub fn of_signed(z: i64) -> Text
        ensures { bytes_of result ≡ signed_decimal z }
    {
        let mut bytes = [0u8; LIMIT];
        let len = put_signed(&mut bytes, z);
        Text { bytes, len }
    }

    /// A word as eight hexadecimal digits.
    pub fn of_word(w: u32) -> Text
        ensures { bytes_of result ≡ hex 8 w }
    {
        // Digit by digit, since the library's formatting writes through a writer, which may fail; and by index, since of
        // what is written through an adapter of `iter_mut` a proof knows nothing.
        let mut digits = [0u8; 8];
        // what is left of the word: its lowest digit belongs at place i
        let mut left = w;
        for i in (0..8).rev() {
            digits[i] = hex_digit(left % 16);
            left /= 16;
        }
        Text::of_bytes(&digits)
    }

    pub fn as_bytes(&self) -> &[u8]
        ensures bytes { result.now ≡ bytes_of self.now }
        ensures short { length result.now ≤ 28 }
    {
        &self.bytes[..self.len]
    }

    fn of_bytes(text: &[u8]) -> Text
        requires { length text.now ≤ 28 }
        ensures { bytes_of result ≡ text.now }
    {
        let mut bytes = [0u8; LIMIT];
        bytes[..text.len()].copy_from_slice(text);
        Text {
            bytes,
            len: text.len(),
        }
    }
}

fn hex_digit(d: u32) -> u8
    requires { d < 16 }
    ensures { result ≡ digit_glyph true d }
{
    if d < 10 {
        b'0' + d as u8
    } else {
        b'A' + (d as u8 - 10)
    }
}
