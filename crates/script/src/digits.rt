//! Bytes in hexadecimal digits.
ghost use Rattle.std.specs.Prelude.{◌≡◌, ◌<◌, ◌≤◌, length};
ghost use Rattle.std.specs.Char.{digit_char};
ghost use Rattle.std.specs.List.{flat_map};
ghost use Rattle.script.specs.Saying.{hex_word};

use std::str;

/// How many bytes are spelled at once.
pub(crate) const PIECE: usize = 64;

/// The character of a hexadecimal digit.
fn digit(value: u8) -> u8
    requires small { value < 16 }
    ensures value { result ≡ digit_char value }
{
    if value < 10 {
        b'0' + value
    } else {
        b'a' + (value - 10)
    }
}

/// A space and the byte's two digits.
fn word(byte: u8) -> [u8; 3]
    ensures value { result ≡ hex_word byte }
{
    [b' ', digit(byte / 16), digit(byte % 16)]
}

/// The bytes' words, one behind the other. They lie in the array that is lent.
pub(crate) fn spell<'a>(bytes: &[u8], words: &'a mut [[u8; 3]; PIECE]) -> &'a str
    requires few { length bytes.now ≤ 64 }
    ensures value { result.now ≡ flat_map hex_word bytes.now }
{
    for (i, byte) in bytes.iter().enumerate() {
        words[i] = word(*byte);
    }
    // All of it is ASCII, so it is a text.
    let Ok(text) = str::from_utf8(words[..bytes.len()].as_flattened()) else {
        unreachable!();
    };
    text
}
