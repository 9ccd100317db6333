// A word of a case, taken a byte at a time.

// The digits or letters so far, the base of the digits, and the number that they spell, or none where the word is bad: no character has a
// larger one.
#[derive(Clone, Copy)]
pub struct Word {
    pub base: u16,
    pub count: usize,
    pub value: Option<u16>,
}

fn digit_of(b: u8) -> Option<u16> {
    match b {
        b'0'..=b'9' => Some((b - b'0') as u16),
        b'A'..=b'F' => Some((b - b'A') as u16 + 10),
        _ => None,
    }
}

// The one name that is known.
const NAME: [u8; 4] = *b"read";

impl Word {
    pub(crate) fn new() -> Word {
        Word {
            base: 16,
            count: 0,
            value: Some(0),
        }
    }

    // The number with one digit more. A number has 16 digits at most, and a decimal one 20.
    fn spelled(self, b: u8) -> Option<u16> {
        let most = if self.base == 10 { 20 } else { 16 };
        let digit = digit_of(b)?;
        if self.base <= digit || most <= self.count {
            return None;
        }
        self.value?.checked_mul(self.base)?.checked_add(digit)
    }

    // One digit or letter more, and what it makes of the value. No word counts over 20 of them.
    fn longer(self, value: Option<u16>) -> Word {
        Word {
            count: 20.min(self.count.saturating_add(1)),
            value,
            ..self
        }
    }

    fn with_digit(self, b: u8) -> Word {
        if b == b'+' && self.count == 0 && self.base == 16 {
            return Word { base: 10, ..self };
        }
        self.longer(self.spelled(b))
    }

    // One byte more of the word that stands at a place: the first is a name, the others are numbers.
    pub(crate) fn with(self, b: u8, place: usize) -> Word {
        if place == 0 {
            let is_right = NAME.get(self.count) == Some(&b);
            return self.longer(if is_right { self.value } else { None });
        }
        self.with_digit(b)
    }

    // Whether it is the name, or a number that a character may have.
    pub(crate) fn is_right(self, place: usize) -> bool {
        let is_name = (place == 0) & (self.count == 4);
        let is_number = (0 < place) & (0 < self.count);
        self.value.is_some() & (is_name | is_number)
    }
}
