// The library's number, the text of a refusal, and what an entry means.
ghost use Rattle.std.specs.Prelude.{◌≡◌};
ghost use Rattle.host_meaning.specs.Version.{version};
ghost use Rattle.text_words.specs.Refusals.{text_of, number_asked};
ghost use Rattle.text_words.specs.Saying.{Says};
ghost use Rattle.base_lent.specs.Lent.{done, Leaves};
ghost use Rattle.host_meaning.specs.Meanings.{meaning_bytes, meaning_for};

// The version of the header that the library was made with.
#[unsafe(no_mangle)]
pub extern "C" fn skarrowith_version() -> u32
    ensures { result ≡ version }
{
    host_meaning::version::skarrowith_version()
}

// The words for a refusal number, or for 256 plus one, and a zero byte; the answer is how many bytes the words have, or 256 plus the
// refusal number.
#[unsafe(no_mangle)]
pub extern "C" fn skarrowith_refusal_text(number: u32, out: &mut [u8]) -> u32
    ensures { Says (text_of (number_asked number)) out.old result out.new }
{
    host_meaning::words::skarrowith_refusal_text(number, out)
}

// The record of what a unit byte means: 0, or 256 plus 11 where the table has no such byte, or plus 21.
#[unsafe(no_mangle)]
pub extern "C" fn skarrowith_entry_meaning(unit: u8, meaning: &mut [u8]) -> u32
    ensures { Leaves done meaning_bytes (meaning_for unit meaning.old) meaning.old meaning.new result }
{
    host_meaning::skarrowith_entry_meaning(unit, meaning)
}
