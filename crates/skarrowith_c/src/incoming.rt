// A line that comes in: its length, the line after a time, and bytes that the port marked.
ghost use Rattle.mbus_length.specs.Lengths.{line_length};
ghost use Rattle.host_incoming.specs.Calls.{TellsLength, FindsAfter};
ghost use Rattle.host_incoming.specs.Unmarking.{UnmarksFor};

// 0 and how many characters the accepted line has that begins with these; 1 where it is not yet known; or 256 plus 18.
#[unsafe(no_mangle)]
pub extern "C" fn skarrowith_line_length(first: &[u16], length: &mut usize) -> u32
    ensures { TellsLength (line_length first.now) length.old length.new result }
{
    host_incoming::skarrowith_line_length(first, length)
}

// The lowest place of a capture at which an accepted line begins whose first character began at or after t, with its length and when it began.
#[unsafe(no_mangle)]
pub extern "C" fn skarrowith_find_line_after(
    capture: &[u16],
    times: &[u64],
    t: u64,
    found: &mut [u8],
) -> u32
    ensures { FindsAfter t capture.now times.now found.old found.new result }
{
    host_incoming::skarrowith_find_line_after(capture, times, t, found)
}

// 0, always: any bytes get a result. The characters of marked bytes, how many bytes were used for them and how many characters made.
#[unsafe(no_mangle)]
pub extern "C" fn skarrowith_unmark(
    bytes: &[u8],
    characters: &mut [u16],
    used: &mut usize,
    made: &mut usize,
) -> u32
    ensures { UnmarksFor bytes.now characters.old characters.new used.new made.new result }
{
    host_incoming::unmarking::skarrowith_unmark(bytes, characters, used, made)
}
