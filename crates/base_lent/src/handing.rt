// One value handed to C in the place lent for it.
ghost use Rattle.base_lent.specs.Handed.{Hands};

use base_rules::Refusal;

// 0 and the value in its place, or 256 plus the number of the refusal; then the place is as it was.
pub fn hand<T: Copy>(answer: Result<T, Refusal>, place: &mut T) -> u32
    ensures { Hands answer place.old place.new result }
{
    match answer {
        Ok(value) => {
            *place = value;
            0
        }
        Err(refused) => refused.told(),
    }
}
