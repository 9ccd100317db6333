// Text put together.
ghost use Rattle.std.specs.Prelude.{◌≡◌, [], ◌++◌, ◌+◌, ◌≤◌, length};
ghost use Rattle.text_filling.specs.Decimals.{decimal};
ghost use Rattle.run_listing.specs.Writing.{line_text, Holds};

use base_lent::lay;
use text_filling::put_number;

// A short text, in the first places. Without a heap it has as many places as the longest line, and how many of them it fills.
#[derive(Clone, Copy)]
pub(crate) struct Line {
    pub(crate) bytes: [u8; 48],
    pub(crate) size: usize,
}

// A text with nothing in it.
pub(crate) fn blank() -> Line
    ensures { Holds 0 result [] }
{
    Line {
        bytes: [0u8; 48],
        size: 0,
    }
}

// The text with bytes behind it.
pub(crate) fn with(line: Line, bytes: &[u8]) -> Line
    requires { line.size + length bytes.now ≤ 48 }
    ensures { Holds (line.size + length bytes.now) result (line_text line ++ bytes.now) }
{
    let at = line.size;
    let mut all = line.bytes;
    lay(&mut all, at, bytes);
    Line {
        bytes: all,
        size: at + bytes.len(),
    }
}

// The bytes as a text.
pub(crate) fn begin(bytes: &[u8]) -> Line
    requires { length bytes.now ≤ 48 }
    ensures { Holds (length bytes.now) result bytes.now }
{
    with(blank(), bytes)
}

// The text with a number behind it.
pub(crate) fn with_number(line: Line, n: u32) -> Line
    requires { line.size + 10 ≤ 48 }
    ensures { Holds (line.size + 10) result (line_text line ++ decimal n) }
{
    let at = line.size;
    let mut all = line.bytes;
    let size = put_number(&mut all, at, n as u64);
    Line { bytes: all, size }
}
