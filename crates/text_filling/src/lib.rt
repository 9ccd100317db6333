// Text put into lent memory: bytes, numbers in decimal, and texts with holes for them. What has no room is left out and counted all the
// same, so that one set of functions measures a text (in no memory at all) and writes it.
#![tactic(auto)]

ghost use Rattle.std.specs.Prelude.{◌≡◌, [], ◌∷◌, ◌≤◌, length, get_or, drop};
ghost use Rattle.text_filling.specs.Decimals.{decimal};
ghost use Rattle.text_filling.specs.Holes.{filled_with};
ghost use Rattle.text_filling.specs.Putting.{PutAt};

// The decimal digits of a number, in the last places of an array, since there is no heap for as many as they are.
#[derive(Clone, Copy)]
struct Digits {
    bytes: [u8; 20],
    start: usize,
}

// The digits of a number. (The loop goes along the number itself, whose digits no iterator knows.)
fn digits_of(n: u64) -> Digits
    ensures { (result.start ≤ 19) × (length result.bytes ≡ 20) × (drop result.start result.bytes ≡ decimal n) }
{
    let mut bytes = [0u8; 20];
    bytes[19] = (48 + n % 10) as u8;
    let mut start = 19;
    let mut rest = n / 10;
    while 0 < rest {
        start -= 1;
        bytes[start] = (48 + rest % 10) as u8;
        rest = rest / 10;
    }
    Digits { bytes, start }
}

// Puts one byte to a place, where there is room for it. (By put that is dearer at run time.)
fn put_byte(out: &mut [u8], at: usize, byte: u8) -> usize
    ensures { PutAt (byte ∷ []) out.old at result out.new }
{
    if at < out.len() {
        out[at] = byte;
        return at + 1;
    }
    at.saturating_add(1)
}

// Copies bytes into as many places. (By copy_from_slice the back end asks for memmove, and the library asks a host for memcpy and memset
// alone.)
fn copy_each(to: &mut [u8], from: &[u8])
    requires { length from.now ≡ length to.old }
    ensures { to.new ≡ from.now }
{
    for (i, &byte) in from.iter().enumerate() {
        to[i] = byte;
    }
}

// Puts bytes from a place on, those that have room there, and answers the place behind all of them; past the largest number there is none.
// (out and at stay two parameters, here and above: run_listing gives the memory alone to what it writes beside texts, and PutAt, which
// demands/specs/Settled names, tells them apart.)
pub fn put(out: &mut [u8], at: usize, bytes: &[u8]) -> usize
    ensures { PutAt bytes.now out.old at result out.new }
{
    if out.len() <= at {
        return at.saturating_add(bytes.len());
    }
    let room = out.len() - at;
    if bytes.len() <= room {
        copy_each(&mut out[at..at + bytes.len()], bytes);
        return at + bytes.len();
    }
    copy_each(&mut out[at..], &bytes[..room]);
    at.saturating_add(bytes.len())
}

// Puts a number in decimal from a place on, and answers the place behind it.
pub fn put_number(out: &mut [u8], at: usize, n: u64) -> usize
    ensures { PutAt (decimal n) out.old at result out.new }
{
    let digits = digits_of(n);
    put(out, at, &digits.bytes[digits.start..])
}

// The number at a place, 0 past the last one.
fn number_or_none(numbers: &[u64], k: usize) -> u64
    ensures { result ≡ get_or numbers.now k 0 }
{
    numbers.get(k).copied().unwrap_or(0)
}

// Puts a text from a place on, each % of it being the next number in decimal, and answers the place behind it.
pub fn fill(out: &mut [u8], at: usize, template: &[u8], numbers: &[u64]) -> usize
    ensures { PutAt (filled_with template.now numbers.now) out.old at result out.new }
{
    let mut next = at;
    let mut used: usize = 0;
    for &byte in template {
        let hole = byte == b'%';
        if hole {
            let n = number_or_none(numbers, used);
            next = put_number(out, next, n);
            used += 1;
        } else {
            next = put_byte(out, next, byte);
        }
    }
    next
}
