// The search in what was captured, of one head or of both.
ghost use Rattle.host_search.specs.Finding.{Finds};
ghost use Rattle.host_either.specs.Finding.{FindsEither};

// The lowest place of a capture at which an accepted line begins, with its length, both in characters.
#[unsafe(no_mangle)]
pub extern "C" fn skarrowith_find_line(capture: &[u16], found: &mut [u8]) -> u32
    ensures { Finds capture.now found.old found.new result }
{
    host_search::skarrowith_find_line(capture, found)
}

// Which capture has an accepted line, M-Bus before optical, with the place and the length of the first one in it.
#[unsafe(no_mangle)]
pub extern "C" fn skarrowith_find_either<'a>(
    mbus: &'a [u16],
    optical: &'a [u16],
    found: &mut [u8],
) -> u32
    ensures { FindsEither mbus.now optical.now found.old found.new result }
{
    host_either::skarrowith_find_either(mbus, optical, found)
}
