//! A line as it comes in, byte by byte.
ghost use Rattle.std.specs.Prelude.{◌≡◌, ◌≤◌, [], ◌∷◌, ◌++◌, IfOk, if◌then◌else◌, vec_len, ◌==◌, nat_lt};

use std::alloc::{AllocError, Global};

/// The most bytes of a line that are kept: one digit more than a line may have, and a line feed. What comes behind them is skipped, so
/// that a line that is too long has no line feed.
const MOST: usize = 518;

/// The bytes of a line that have come.
#[derive(Drop)]
pub struct Line {
    bytes: Vec<u8>,
    ghost few: { vec_len bytes ≤ 518 },
}

impl Line {
    /// A line of which nothing has come.
    pub fn new(heap: Global) -> Line
        ensures { result.bytes.items ≡ [] }
    {
        Line {
            bytes: Vec::new(heap),
        }
    }

    /// One byte more; tells whether it ends the line.
    pub fn push(&mut self, byte: u8) -> Result<bool, AllocError>
        ensures { IfOk result (λ ends. (ends ≡ (byte == 10)) × (self.new.bytes.items ≡ (if nat_lt (vec_len self.old.bytes) 518 then self.old.bytes.items ++ (byte ∷ []) else self.old.bytes.items))) }
    {
        if self.bytes.len() < MOST {
            self.bytes.push(byte)?;
        }
        Ok(byte == b'\n')
    }

    /// Whether nothing has come.
    pub fn is_empty(&self) -> bool
        ensures { result ≡ (vec_len self.now.bytes == 0) }
    {
        self.bytes.is_empty()
    }

    /// The bytes that are kept.
    pub fn bytes(&self) -> &[u8]
        ensures { result.now ≡ self.now.bytes.items }
    {
        self.bytes.as_slice()
    }

    /// Begins the next line.
    pub fn clear(&mut self)
        ensures { self.new.bytes.items ≡ [] }
    {
        self.bytes.clear();
    }
}
