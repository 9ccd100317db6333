// Characters that carry bytes, written into lent places.
ghost use Rattle.std.specs.Prelude.{◌≡◌, ◌≤◌, map, length};
ghost use Rattle.base_characters.specs.Characters.{carrier};
ghost use Rattle.base_lent.specs.Copying.{laid};
ghost use Rattle.base_characters.specs.Carrying.{Writes, carried_in};

use base_rules::Refusal;

// The character that carries a byte. The bits are folded onto the lowest one.
fn carrier_of(byte: u8) -> u16
    ensures { result ≡ carrier byte }
{
    let b = byte as u16;
    let four = b ^ (b / 16);
    let two = four ^ (four / 4);
    let one = two ^ (two / 2);
    256 * (one % 2) + b
}

// The characters that carry the bytes, in the first places.
fn carry(bytes: &[u8], out: &mut [u16])
    requires { length bytes.now ≤ length out.old }
    ensures { out.new ≡ laid out.old 0 (map carrier bytes.now) }
{
    for (place, &byte) in bytes.iter().enumerate() {
        out[place] = carrier_of(byte);
    }
}

// Writes the characters that carry the bytes into the first places and nothing beyond. Where there are fewer places that is 21, and all
// places stay as they were.
pub fn write_bytes(bytes: &[u8], out: &mut [u16]) -> Result<usize, Refusal>
    ensures { Writes (carried_in bytes.now (length out.old)) out.old out.new result }
{
    if out.len() < bytes.len() {
        return Err(Refusal::TOO_FEW_PLACES);
    }
    carry(bytes, out);
    Ok(bytes.len())
}
