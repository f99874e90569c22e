//! Rows of mills, counted through by numbers.
use vocabulary::Mill;

/// The digits of a number from the last one on, as mills, with as many digits as there are mills. Zeros follow without an end.
#[derive(Clone, Copy)]
pub struct Digits {
    rest: u32,
    mills: u8,
}

impl Digits {
    /// The digits of a number in a shop of so many mills.
    pub fn of(number: u32, mills: u8) -> Digits {
        Digits {
            rest: number,
            mills,
        }
    }
}

impl Iterator for Digits {
    type Item = Mill;

    fn next(&mut self) -> Option<Mill> {
        let base = u32::from(self.mills.max(1));
        let last = u8::try_from(self.rest % base).unwrap_or(0);
        self.rest /= base;
        Some(Mill(last))
    }
}
