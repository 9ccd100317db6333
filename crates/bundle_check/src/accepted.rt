// A bundle that the check accepts.
ghost use Rattle.std.specs.Prelude.{◌≡◌};
ghost use Rattle.base_rules.specs.Answers.{reads};
ghost use Rattle.bundle_rows.specs.Rows.{unchecked_row};
ghost use Rattle.bundle_check.specs.Bundles.{check_of};

use bundle_rows::{Row, unchecked_row};

// Its bytes, and how many rows it has.
#[derive(Clone, Copy)]
pub struct Accepted<'a> {
    pub bytes: &'a [u8],
    pub count: usize,
    pub ghost accepted: { check_of bytes.now ≡ reads count },
}

impl<'a> Accepted<'a> {
    // Row i, counted from 0.
    pub fn row(self, i: usize) -> Row
        ensures { result ≡ unchecked_row self.entry.bytes.now i }
    {
        unchecked_row(self.bytes, i)
    }
}
