// The picture of a run for the bench host, a C program: include/skarrowith.h says how it is called.
#![tactic(auto)]

ghost use Rattle.host_picture.specs.Pictured.{DrawsIn};

use base_lent::handing::hand;
use run_picture::draw;

// 0, the picture in the first places and how many bytes it has, or 256 plus 30 to 37 or 21.
pub fn skarrowith_picture(bundle: &[u8], out: &mut [u8], written: &mut usize) -> u32
    ensures { DrawsIn bundle.now out.old written.old result out.new written.new }
{
    hand(draw(bundle, out), written)
}
