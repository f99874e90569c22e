//! The sixteen digits, and the bytes that they write.
ghost use Rattle.std.specs.Prelude.{◌≡◌, ◌+◌, ◌*◌, ◌%◌, ◌<◌, length, sum, slice_index};
ghost use Rattle.std.specs.Iterator.{YieldsFirst, item_count};
ghost use Rattle.sheet.specs.Digits.{digit_of, byte_of, bytes_of, all_digits};
ghost use Rattle.sheet.specs.Content.{left};

/// The number of a digit; nothing of another character.
// No `char::to_digit`: a lower-case letter is no digit here.
pub(crate) fn digit_value(c: char) -> Option<u8>
    ensures { result ≡ digit_of c }
{
    match c {
        '0'..='9' => Some(c as u8 - b'0'),
        'A'..='F' => Some(c as u8 - b'A' + 10),
        _ => None,
    }
}

/// The byte that two characters write.
fn byte_value(high: u8, low: u8) -> u8
    ensures { result ≡ byte_of high low }
{
    digit_value(char::from(high)).unwrap_or(0) * 16 + digit_value(char::from(low)).unwrap_or(0)
}

/// The byte of this index among those that the digits write.
pub fn byte_at(digits: &[u8], index: usize) -> u8
    requires { 2 * index + 1 < length digits.now }
    ensures { result ≡ slice_index (bytes_of digits.now) index }
{
    byte_value(digits[2 * index], digits[2 * index + 1])
}

/// An iterator over the bytes that digits write, two digits a byte.
#[derive(Drop)]
pub(crate) struct Bytes<'a>(pub &'a [u8]);

impl<'a> Iterator for Bytes<'a> {
    type Item = u8;

    ghost next_gives = { YieldsFirst left };

    ghost remaining = { item_count left };

    fn next(&mut self) -> Option<u8> {
        let [high, low, rest @ ..] = self.0 else {
            return None;
        };
        self.0 = rest;
        Some(byte_value(*high, *low))
    }
}

/// Whether every character is a digit.
pub(crate) fn all_digits(characters: &[u8]) -> bool
    ensures { result ≡ all_digits characters.now }
{
    characters
        .iter()
        .all(|c| digit_value(char::from(*c)).is_some())
}

/// The sum of the bytes that the digits write, less the multiples of 256.
pub(crate) fn byte_sum(digits: &[u8]) -> u8
    ensures { result ≡ sum (bytes_of digits.now) % 256 }
{
    Bytes(digits).fold(0, |total: u8, byte| total.wrapping_add(byte))
}
