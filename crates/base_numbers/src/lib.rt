// Numbers low byte first: from bytes, and to them.
#![tactic(auto)]

ghost use Rattle.std.specs.Prelude.{◌≡◌, ◌+◌, ◌*◌, ◌≤◌, ◌<◌, ◌^◌, min, ltb, length, get_or};
ghost use Rattle.base_lent.specs.Copying.{laid, copied};
ghost use Rattle.base_numbers.specs.Numbers.{number, bytes_of, Numbered};
ghost use Rattle.base_numbers.specs.Records.{words_of, record_of};

use base_lent::lay;

pub mod signed;

// The byte at a place, 0 past the end.
pub fn byte_at(s: &[u8], i: usize) -> u8
    ensures { result ≡ get_or s.now i 0 }
{
    s.get(i).copied().unwrap_or(0)
}

// The number that the bytes are, at most eight: those behind them count as 0.
fn number_of(s: &[u8]) -> u64
    requires { length s.now ≤ 8 }
    ensures { (result ≡ number s.now) × (result < 256 ^ length s.now) }
{
    let mut bytes = [0u8; 8];
    bytes[..s.len()].copy_from_slice(s);
    u64::from_le_bytes(bytes)
}

// The number of so many bytes from a place on, at most eight. A byte that is missing counts as 0.
pub fn number_at(s: &[u8], at: usize, width: usize) -> u64
    ensures { Numbered s.now at (min width 8) result }
{
    if s.len() < at {
        return 0;
    }
    let most = width.min(8);
    if s.len() - at < most {
        return number_of(&s[at..]);
    }
    number_of(&s[at..at + most])
}

// A number as eight bytes; the first of them are the number as so many bytes.
#[tactic(auto, using(crate::proofs::Laws::NumberLaws::bytes_written))]
pub fn bytes_of(n: u64) -> [u8; 8]
    ensures { result ≡ bytes_of 8 n }
{
    n.to_le_bytes()
}

// A number as so many bytes, at most eight, copied to a place. Where they do not fit there nothing is changed.
#[tactic(auto, using(crate::proofs::Laws::NumberLaws::bytes_first))]
pub fn put_number(out: &mut [u8], at: usize, width: usize, n: u64)
    ensures { out.new ≡ copied out.old at (bytes_of (min width 8) n) }
{
    lay(out, at, &bytes_of(n)[..width.min(8)]);
}

// Numbers of eight bytes each, one behind the other, at a place where there is room for them.
fn put_words(out: &mut [u8], at: usize, words: &[u64])
    requires { at + 8 * length words.now ≤ length out.old }
    ensures { out.new ≡ laid out.old at (words_of words.now) }
{
    for (i, &word) in words.iter().enumerate() {
        put_number(out, at + 8 * i, 8, word);
    }
}

// The places are too few for so many bytes, numbers of eight bytes and bytes.
fn is_short(size: usize, head: usize, words: usize, tail: usize) -> bool
    ensures { result ≡ ltb size (head + (8 * words + tail)) }
{
    if size < head {
        return true;
    }
    let left = size - head;
    left / 8 < words || left - 8 * words < tail
}

// A record of bytes, numbers and bytes in the first places. Where it does not fit nothing is changed.
pub fn put_record(out: &mut [u8], head: &[u8], words: &[u64], tail: &[u8])
    ensures { out.new ≡ copied out.old 0 (record_of head.now words.now tail.now) }
{
    if is_short(out.len(), head.len(), words.len(), tail.len()) {
        return;
    }
    lay(out, 0, head);
    put_words(out, head.len(), words);
    lay(out, head.len() + 8 * words.len(), tail);
}
