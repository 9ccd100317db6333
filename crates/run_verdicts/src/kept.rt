// The verdicts of contents kept in columns (2026-10 of document 02), whose bodies lie in a bundle.
ghost use Rattle.std.specs.Prelude.{◌≡◌, length};
ghost use Rattle.base_rules.specs.Answers.{within};
ghost use Rattle.base_rules.specs.Shown.{shown};
ghost use Rattle.bundle_columns.specs.Columns.{kept_rows};
ghost use Rattle.bundle_columns.specs.Record.{columns_in};
ghost use Rattle.run_verdicts.specs.Answering.{verdicts_kept};
ghost use Rattle.run_verdicts.specs.Shown.{listed};
ghost use Rattle.run_verdicts.specs.Walking.{Tried, faults_of};

use crate::Verdicts;
use crate::walking::{InColumns, Rows, walk};
use base_rules::Refusal;
use bundle_columns::count_in;
use bundle_rows::wrong_field;

// Whether 34 applies to a row, and whether 35 does. (34 anywhere comes before 35: a walk with a Result would leave at the one, and still carry the other
// along as a flag.)
#[derive(Clone, Copy)]
pub(crate) struct Faults {
    pub(crate) field: bool,
    pub(crate) place: bool,
}

// Each row is held against the time of the row before it, and its body against the end of the bundle.
fn faults_of(columns: &[u8], count: usize, end: usize) -> Faults
    requires { Tried columns.now count }
    ensures { result ≡ faults_of end (kept_rows (columns_in columns.now)) }
{
    let rows = InColumns(columns);
    let mut before: u32 = 0;
    let mut field = false;
    let mut place = false;
    for i in 0..count {
        let row = rows.row(i);
        let size = row.length as usize;
        let wrong = wrong_field(row.position, row.direction, size);
        field = field | (wrong | (row.time < before));
        place = place | (end < row.offset as usize + size);
        before = row.time;
    }
    Faults { field, place }
}

// The verdicts of the rows of columns.
pub fn verdicts_kept(columns: &[u8], bundle: &[u8]) -> Result<Verdicts, Refusal>
    ensures { result ≡ shown (within listed (verdicts_kept columns.now bundle.now)) }
{
    let count = count_in(columns)?;
    let faults = faults_of(columns, count, bundle.len());
    let field = faults.field;
    if field {
        return Err(Refusal::BUNDLE_WRONG_ROW);
    }
    let place = faults.place;
    if place {
        return Err(Refusal::BUNDLE_WRONG_OFFSET);
    }
    let verdicts = walk(&InColumns(columns), bundle, count);
    Ok(Verdicts { count, verdicts })
}
