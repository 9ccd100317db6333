// What is left of a line once its characters are taken in.
ghost use Rattle.std.specs.Prelude.{[], ◌∷◌, ◌≡◌};
ghost use Rattle.base_lent.specs.Copying.{copied};
ghost use Rattle.mbus_reading.specs.Taking.{far_by};

use base_lent::lay;
use base_rules::Refusal;
use mbus_shape::wrong_start;

// No line that 5 leaves has more characters.
pub const MOST: usize = 261;

// Writes the places from 256 to MOST apart. The back end clears 256 places where they stand, and more by a call that costs some thirty
// instructions; so these five hold what is no zero until a line has so many characters.
pub(crate) fn write_apart(places: &mut [u8])
    ensures { places.new ≡ copied places.old 256 (1 ∷ 1 ∷ 1 ∷ 1 ∷ 1 ∷ []) }
{
    lay(places, 256, &[1u8; 5]);
}

// The refusal of more than MOST characters: 2 or 3, then 4 by the first byte, and 5.
pub(crate) fn far_of(sound: Result<(), Refusal>, first: u8) -> Refusal
    ensures { result ≡ far_by sound first }
{
    if let Err(refused) = sound {
        return refused;
    }
    if wrong_start(first) {
        return Refusal::WRONG_FIRST_BYTE;
    }
    Refusal::WRONG_COUNT
}
