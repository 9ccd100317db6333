// The rows of one position, and two bundles joined, for the bench host.
ghost use Rattle.host_bundle.specs.Joining.{ChoosesIn, JoinsIn};

use base_lent::handing::hand;
use bundle_joining::join;
use bundle_joining::position::of_position;

// 0, the bundle of a position and how many bytes it fills, or 256 plus 30 to 38.
pub fn skarrowith_bundle_of_position(
    bundle: &[u8],
    position: u8,
    out: &mut [u8],
    filled: &mut usize,
) -> u32
    ensures { ChoosesIn bundle.now position out.old filled.old result out.new filled.new }
{
    hand(of_position(bundle, position, out), filled)
}

// 0, the bundle of the rows of both and how many bytes it fills, or 256 plus 30 to 38.
pub fn skarrowith_bundle_join(a: &[u8], b: &[u8], out: &mut [u8], filled: &mut usize) -> u32
    ensures { JoinsIn a.now b.now out.old filled.old result out.new filled.new }
{
    hand(join(a, b, out), filled)
}
