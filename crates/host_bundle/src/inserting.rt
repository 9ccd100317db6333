// Inserting a row into a run bundle for the bench host.
ghost use Rattle.bundle_adding.specs.Adding.{new_record};
ghost use Rattle.host_bundle.specs.Bundled.{InsertsIn};

use base_lent::handing::hand;
use bundle_adding::inserting::insert;

// 0, the row at its place in time and how many bytes the bundle then fills, or 256 plus 30 to 38.
pub fn skarrowith_bundle_insert(
    buffer: &mut [u8],
    filled: &mut usize,
    position: u8,
    direction: u8,
    time: u32,
    body: &[u8],
) -> u32
    ensures { InsertsIn buffer.old filled.old (new_record position direction time body.now) result buffer.new
        filled.new }
{
    hand(
        insert(buffer, *filled, position, direction, time, body),
        filled,
    )
}
