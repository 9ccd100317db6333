// Room for a row in front of the bodies, and the new body behind them.
ghost use Rattle.std.specs.Prelude.{◌≡◌, ◌+◌, ◌≤◌, length};
ghost use Rattle.bundle_adding.specs.Writing.{shifted_by, bodies_moved};

use base_lent::lay_each;

// What stands from one place up to another moves up by so many, the last byte first. (By hand, here and below: by copy_within and copy_from_slice
// the back end asks for memmove, and the library asks a host for memcpy and memset alone. A Range of the two places would ask for their order
// all the same.)
pub(crate) fn move_up(buffer: &mut [u8], from: usize, to: usize, by: usize)
    requires { (from ≤ to) × (to + by ≤ length buffer.old) }
    ensures { buffer.new ≡ shifted_by by from to buffer.old }
{
    let mut i = to;
    while from < i {
        i -= 1;
        buffer[i + by] = buffer[i];
    }
}

// The bodies, which stand from one place up to another, move by 12, and the new body stands behind them.
pub(crate) fn move_bodies(buffer: &mut [u8], from: usize, to: usize, body: &[u8])
    requires { (from ≤ to) × (to + 12 + length body.now ≤ length buffer.old) }
    ensures { buffer.new ≡ bodies_moved from to body.now buffer.old }
{
    move_up(buffer, from, to, 12);
    lay_each(buffer, to + 12, body);
}
