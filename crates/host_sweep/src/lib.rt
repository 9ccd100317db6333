// The sweep of a run bundle for the bench host, a C program: include/skarrowith.h says how its function is called.
#![tactic(auto)]

ghost use Rattle.host_sweep.specs.Sweeping.{SweepsIn};

use base_lent::handing::hand;
use bundle_sweep::sweep;

// 0, the rows removed and how many bytes the bundle then fills, or 256 plus 30 to 37. C hands over buffer, filled and position one by one.
pub fn skarrowith_bundle_sweep(buffer: &mut [u8], filled: &mut usize, position: u8) -> u32
    ensures { SweepsIn buffer.old filled.old position result buffer.new filled.new }
{
    hand(sweep(buffer, *filled, position), filled)
}
