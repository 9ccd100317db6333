// The words for a refusal number, for C: include/skarrowith.h says how.
ghost use Rattle.text_words.specs.Refusals.{text_of, number_asked};
ghost use Rattle.text_words.specs.Saying.{Says};

use text_words::say_number;

// The words for a refusal number, or for 256 plus one, and a zero byte; the answer is how many bytes the words have, or 256 plus the
// refusal number.
pub fn skarrowith_refusal_text(number: u32, out: &mut [u8]) -> u32
    ensures { Says (text_of (number_asked number)) out.old result out.new }
{
    let plain = number < 256;
    if plain {
        return say_number(out, number);
    }
    say_number(out, number - 256)
}
