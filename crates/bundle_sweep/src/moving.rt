// Bytes of a bundle moved towards its beginning.
ghost use Rattle.std.specs.Prelude.{◌≡◌, ◌+◌, ◌≤◌, length, take, drop};
ghost use Rattle.base_lent.specs.Copying.{laid};

// So many bytes move to a lower place.
pub(crate) fn move_down(bundle: &mut [u8], from: usize, to: usize, size: usize)
    requires { (to ≤ from) × (from + size ≤ length bundle.old) }
    ensures { bundle.new ≡ laid bundle.old to (take size (drop from bundle.old)) }
{
    bundle.copy_within(from..from + size, to);
}
