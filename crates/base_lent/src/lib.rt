// Bytes that a caller lends: compared, and copied to a place if they fit there.
#![tactic(auto)]

pub mod handing;

ghost use Rattle.std.specs.Prelude.{◌≡◌, ◌+◌, ltb, length};
ghost use Rattle.base_lent.specs.Copying.{copied};
ghost use Rattle.base_lent.specs.Same.{same};

// The two are the same bytes. All of them are compared, which takes sixteen at a time: s == t is dearer at run time for a record.
pub fn is_same(s: &[u8], t: &[u8]) -> bool
    ensures { result ≡ same s.now t.now }
{
    if s.len() != t.len() {
        return false;
    }
    let mut alike = true;
    for (i, &byte) in s.iter().enumerate() {
        alike = alike & (byte == t[i]);
    }
    alike
}

// So many bytes from a place on reach past the end.
fn is_past(size: usize, at: usize, count: usize) -> bool
    ensures { result ≡ ltb size (at + count) }
{
    size < count || size - count < at
}

// Copies bytes to a place. Where they do not fit there nothing is changed.
pub fn lay(to: &mut [u8], at: usize, from: &[u8])
    ensures { to.new ≡ copied to.old at from.now }
{
    if is_past(to.len(), at, from.len()) {
        return;
    }
    to[at..at + from.len()].copy_from_slice(from);
}

// The same, a byte after the other: for twelve bytes and for some thousand copy_from_slice is dearer at run time.
pub fn lay_each(to: &mut [u8], at: usize, from: &[u8])
    ensures { to.new ≡ copied to.old at from.now }
{
    if is_past(to.len(), at, from.len()) {
        return;
    }
    for (i, &byte) in from.iter().enumerate() {
        to[at + i] = byte;
    }
}

// Copies bytes into the first places that were lent, and answers whether they were too few; then nothing is changed.
pub fn store(bytes: &[u8], out: &mut [u8]) -> bool
    ensures { (result ≡ ltb (length out.old) (length bytes.now)) × (out.new
        ≡ copied out.old 0 bytes.now) }
{
    let short = out.len() < bytes.len();
    lay(out, 0, bytes);
    short
}
