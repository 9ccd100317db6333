// The library's version.
ghost use Rattle.std.specs.Prelude.{◌≡◌};
ghost use Rattle.host_meaning.specs.Version.{version};

const MAJOR: u32 = 1;

const MINOR: u32 = 1;

const PATCH: u32 = 0;

// The version of the header that the library was made with.
pub fn skarrowith_version() -> u32
    ensures { result ≡ version }
{
    MAJOR * 65536 + MINOR * 256 + PATCH
}
