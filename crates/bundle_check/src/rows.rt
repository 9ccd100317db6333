// The rows of a run bundle of document 01 and their bodies, asked for one by one.
ghost use Rattle.std.specs.Prelude.{◌≡◌};
ghost use Rattle.base_rules.specs.Shown.{shown};
ghost use Rattle.bundle_check.specs.Handing.{place_of, row_at, body_at};
ghost use Rattle.bundle_check.specs.Stretches.{Handed};

use crate::check;
use base_rules::Refusal;
use bundle_rows::{Row, unchecked_row};

// Where a row's body lies in its bundle.
#[derive(Clone, Copy)]
pub struct BodyPlace {
    pub offset: usize,
    pub size: usize,
}

// The place that a row gives for its body.
pub fn place_of(row: Row) -> BodyPlace
    ensures { result ≡ place_of row }
{
    BodyPlace {
        offset: row.offset as usize,
        size: row.length as usize,
    }
}

// The fields of row i, counted from 0. `bundle_columns::row` is not one with it: a trait for what counts and reads the rows would be longer
// than these six lines.
pub fn row(bundle: &[u8], i: usize) -> Result<Row, Refusal>
    ensures { result ≡ shown (row_at bundle.now i) }
{
    let count = check(bundle)?;
    if count <= i {
        return Err(Refusal::BUNDLE_NO_SUCH_ROW);
    }
    Ok(unchecked_row(bundle, i))
}

// Where the body of row i lies.
pub fn body_at(bundle: &[u8], i: usize) -> Result<BodyPlace, Refusal>
    ensures { result ≡ shown (body_at bundle.now i) }
{
    row(bundle, i).map(place_of)
}

// The body of row i: that stretch of the caller's own bundle, and an empty one where it is refused.
pub fn body<'a>(bundle: &'a [u8], i: usize) -> &'a [u8]
    ensures { Handed (body_at bundle.now i) bundle.entry result }
{
    match body_at(bundle, i) {
        Ok(place) => &bundle[place.offset..place.offset + place.size],
        Err(_) => &bundle[..0],
    }
}
