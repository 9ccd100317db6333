// From a serial port to characters, for C: include/skarrowith.h says how.
ghost use Rattle.host_incoming.specs.Unmarking.{UnmarksFor};

use serial_marks::unmark;

// 0, always: any bytes get a result. The characters of marked bytes, how many bytes were used for them and how many characters made.
pub fn skarrowith_unmark(
    bytes: &[u8],
    characters: &mut [u16],
    used: &mut usize,
    made: &mut usize,
) -> u32
    ensures { UnmarksFor bytes.now characters.old characters.new used.new made.new result }
{
    let answer = unmark(bytes, characters);
    *used = answer.used;
    *made = answer.made;
    0
}
