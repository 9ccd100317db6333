// The line column of the listing of document 01: a wake-up, or what reading answers.
ghost use Rattle.std.specs.Prelude.{◌≡◌};
ghost use Rattle.base_characters.specs.Characters.{chars};
ghost use Rattle.run_listing.specs.LineColumn.{column_of};

use bench_clock::is_wake;
use mbus_reading::pairs::outline_of;
use mbus_rules::Outline;

// What the line column says: wake, or the word for what reading answers. (No Option: its None would not say that the row is a wake-up.)
#[derive(Clone, Copy)]
pub enum Column {
    Wake,
    Reads(Outline),
}

// What the column says of a body, two bytes a character. A wake-up is told before the line is read.
pub fn column_of(body: &[u8]) -> Column
    ensures { result ≡ column_of (chars body.now) }
{
    if is_wake(body) {
        return Column::Wake;
    }
    Column::Reads(outline_of(body))
}
