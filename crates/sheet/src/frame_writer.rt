//! The frame writer: puts frames into a text area as lines of digits, one behind the other.
ghost use Rattle.std.specs.Prelude.{◌≡◌, ◌+◌, ◌*◌, ◌%◌, ◌<◌, ◌≤◌, [], ◌∷◌, length, sum};
ghost use Rattle.std.specs.List.{flat_map};
ghost use Rattle.sheet.specs.Digits.{digit_for, digits_for};
ghost use Rattle.sheet.specs.Frames.{frame_text};
ghost use Rattle.sheet.specs.Area.{HasRoom, Appends};

/// The digit of a number below 16.
fn digit_for(n: u8) -> u8
    requires { n < 16 }
    ensures { result ≡ digit_for n }
{
    // Not `char::from_digit`: its letters are lower-case.
    if n < 10 { b'0' + n } else { b'A' - 10 + n }
}

/// The sum of bytes, less the multiples of 256.
// `byte_sum` sums what digits write; one function for both would take an iterator, and be no shorter.
fn sum_of(bytes: &[u8]) -> u8
    ensures { result ≡ sum bytes.now % 256 }
{
    bytes
        .iter()
        .fold(0, |total, byte| total.wrapping_add(*byte))
}

/// A text area and the place in it where the next frame goes.
#[derive(Drop)]
pub struct FrameWriter<'a> {
    area: &'a mut [u8],
    at: usize,
}

impl<'a> FrameWriter<'a> {
    /// A writer at a place of an area.
    pub fn new(area: &'a mut [u8], at: usize) -> FrameWriter<'a>
        ensures place { result.at ≡ at }
        ensures area { result.area.now ≡ area.old }
        ensures same_area { result.area.ghost_name ≡ area.entry.ghost_name }
    {
        FrameWriter { area, at }
    }

    /// How much of the area is written.
    pub fn written(&self) -> usize
        ensures { result ≡ self.now.at }
    {
        self.at
    }

    /// Writes a frame as a line, and nothing else.
    // A kind and a payload are together in this call alone.
    pub fn frame(&mut self, kind: u8, payload: &[u8])
        requires few { length payload.now ≤ 255 }
        requires room { HasRoom (2 * (length payload.now + 3) + 1) self.old }
        ensures { Appends (frame_text (record { kind = kind; payload = payload.now })) self.old self.new }
    {
        let count = payload.len() as u8;
        self.byte(kind);
        self.byte(count);
        self.bytes(payload);
        let total = kind.wrapping_add(count).wrapping_add(sum_of(payload));
        self.byte(total.wrapping_neg());
        self.character(b'\n');
    }

    /// Writes bytes as digits, and nothing else.
    fn bytes(&mut self, bytes: &[u8])
        requires { HasRoom (2 * length bytes.now) self.old }
        ensures { Appends (flat_map digits_for bytes.now) self.old self.new }
    {
        for byte in bytes {
            self.byte(*byte);
        }
    }

    /// Writes a byte as two digits, and nothing else.
    fn byte(&mut self, byte: u8)
        requires { HasRoom 2 self.old }
        ensures { Appends (digits_for byte) self.old self.new }
    {
        // Both digits at once: the place is read and written once a byte.
        let FrameWriter { area, at } = self;
        area[*at] = digit_for(byte / 16);
        area[*at + 1] = digit_for(byte % 16);
        *at += 2;
    }

    /// Writes a character, and nothing else.
    fn character(&mut self, character: u8)
        requires { HasRoom 1 self.old }
        ensures { Appends (character ∷ []) self.old self.new }
    {
        let FrameWriter { area, at } = self;
        area[*at] = character;
        *at += 1;
    }
}
