// The walk along the rows of a bundle, and what 34, 35 and 36 ask of them.
ghost use Rattle.std.specs.Prelude.{◌≡◌, ◌≤◌, length};
ghost use Rattle.bundle_rows.specs.Rows.{most_rows, first_offset};
ghost use Rattle.bundle_check.specs.Walking.{walk_of};

use bundle_rows::{unchecked_row, wrong_field};

// Whether 34 applies, whether 35 does, and where the last body ends. Both are looked for in one walk to its end, since 34 anywhere comes
// before 35: a Result would stop at the first 35.
#[derive(Clone, Copy)]
pub(crate) struct Walk {
    pub(crate) field: bool,
    pub(crate) place: bool,
    pub(crate) end: usize,
}

// Each row is held against the time of the row before it, and against the place where the body before its own ends.
pub(crate) fn walk_rows(bundle: &[u8], count: usize) -> Walk
    requires { (count ≤ most_rows) × (first_offset count ≤ length bundle.now) }
    ensures { result ≡ walk_of count bundle.now }
{
    let mut before: u32 = 0;
    let mut at = 2 + 12 * count;
    let mut field = false;
    let mut place = false;
    for i in 0..count {
        let row = unchecked_row(bundle, i);
        let size = row.length as usize;
        let wrong = wrong_field(row.position, row.direction, size);
        let end = at + size;
        field = field | (wrong | (row.time < before));
        place = place | ((row.offset as usize != at) | (bundle.len() < end));
        before = row.time;
        at = end;
    }
    Walk {
        field,
        place,
        end: at,
    }
}
