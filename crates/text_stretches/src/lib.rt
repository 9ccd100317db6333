// Numbers between texts, put into lent memory.
#![tactic(auto)]

ghost use Rattle.std.specs.Prelude.{◌≡◌, length};
ghost use Rattle.text_filling.specs.Decimals.{decimal};
ghost use Rattle.text_filling.specs.Putting.{PutAt};
ghost use Rattle.text_stretches.specs.Between.{between, pair_between};

use text_filling::{put, put_number};

// How many digits a number has. (The loop goes along the number itself.)
fn width_of(n: u64) -> usize
    ensures { result ≡ length (decimal n) }
{
    let mut size: usize = 1;
    let mut rest = n / 10;
    while 0 < rest {
        size += 1;
        rest = rest / 10;
    }
    size
}

// Puts a number in decimal from a place on, as `put_number` does; where there is no room its digits are only counted, since spelling them
// is dearer at run time. (Here and below out and at stay two parameters, as in text_filling: PutAt tells them apart.)
fn put_decimal(out: &mut [u8], at: usize, n: u64) -> usize
    ensures { PutAt (decimal n) out.old at result out.new }
{
    if out.len() <= at {
        let size = width_of(n);
        return at.saturating_add(size);
    }
    put_number(out, at, n)
}

// Puts bytes, a number in decimal and bytes.
pub fn put_between(out: &mut [u8], at: usize, before: &[u8], n: u64, after: &[u8]) -> usize
    ensures { PutAt (between before.now n after.now) out.old at result out.new }
{
    let opened = put(out, at, before);
    let told = put_decimal(out, opened, n);
    put(out, told, after)
}

// Puts bytes around two numbers.
pub fn put_pair(
    out: &mut [u8],
    at: usize,
    before: &[u8],
    m: u64,
    middle: &[u8],
    n: u64,
    after: &[u8],
) -> usize
    ensures { PutAt (pair_between before.now m middle.now n after.now) out.old at result out.new }
{
    let told = put_between(out, at, before, m, middle);
    put_between(out, told, b"", n, after)
}
