// Run bundles: checked, read, added to, salvaged, swept, parted and joined, and listed.
ghost use Rattle.bundle_check.specs.Bundles.{check_of};
ghost use Rattle.host_bundle.specs.Lent.{Gives};
ghost use Rattle.host_bundle.specs.Rows.{row_into, GivesRow};
ghost use Rattle.bundle_adding.specs.Adding.{new_record};
ghost use Rattle.host_bundle.specs.Bundled.{AddsIn, InsertsIn, ListsIn};
ghost use Rattle.host_sweep.specs.Sweeping.{SweepsIn};
ghost use Rattle.host_bundle.specs.Salvaging.{SalvagesIn};
ghost use Rattle.host_bundle.specs.Joining.{ChoosesIn, JoinsIn};

// 0 and the count of rows, or 256 plus 30 to 37.
#[unsafe(no_mangle)]
pub extern "C" fn skarrowith_bundle_check(bundle: &[u8], rows: &mut usize) -> u32
    ensures { Gives (check_of bundle.now) rows.old result rows.new }
{
    host_bundle::skarrowith_bundle_check(bundle, rows)
}

// 0 and the record of row i, or 256 plus 21, 30 to 37 or 39.
#[unsafe(no_mangle)]
pub extern "C" fn skarrowith_bundle_row(bundle: &[u8], i: usize, out: &mut [u8]) -> u32
    ensures { GivesRow (row_into bundle.now i out.old) out.old result out.new }
{
    host_bundle::skarrowith_bundle_row(bundle, i, out)
}

// 0, the row added and how many bytes the bundle then fills, or 256 plus 30 to 38.
#[unsafe(no_mangle)]
pub extern "C" fn skarrowith_bundle_add(
    buffer: &mut [u8],
    filled: &mut usize,
    position: u8,
    direction: u8,
    time: u32,
    body: &[u8],
) -> u32
    ensures { AddsIn buffer.old filled.old (new_record position direction time body.now) result buffer.new
        filled.new }
{
    host_bundle::skarrowith_bundle_add(buffer, filled, position, direction, time, body)
}

// 0, the row at its place in time and how many bytes the bundle then fills, or 256 plus 30 to 38.
#[unsafe(no_mangle)]
pub extern "C" fn skarrowith_bundle_insert(
    buffer: &mut [u8],
    filled: &mut usize,
    position: u8,
    direction: u8,
    time: u32,
    body: &[u8],
) -> u32
    ensures { InsertsIn buffer.old filled.old (new_record position direction time body.now) result buffer.new
        filled.new }
{
    host_bundle::inserting::skarrowith_bundle_insert(
        buffer, filled, position, direction, time, body,
    )
}

// 0, the rows removed and how many bytes the bundle then fills, or 256 plus 30 to 37.
#[unsafe(no_mangle)]
pub extern "C" fn skarrowith_bundle_sweep(
    buffer: &mut [u8],
    filled: &mut usize,
    position: u8,
) -> u32
    ensures { SweepsIn buffer.old filled.old position result buffer.new filled.new }
{
    host_sweep::skarrowith_bundle_sweep(buffer, filled, position)
}

// 0, the new bundle, and what is told of it; or 256 plus 21, 30 to 33 or 38.
#[unsafe(no_mangle)]
pub extern "C" fn skarrowith_bundle_salvage(damaged: &[u8], out: &mut [u8], told: &mut [u8]) -> u32
    ensures { SalvagesIn damaged.now out.old told.old result out.new told.new }
{
    host_bundle::salvaging::skarrowith_bundle_salvage(damaged, out, told)
}

// 0, the bundle of a position and how many bytes it fills, or 256 plus 30 to 38.
#[unsafe(no_mangle)]
pub extern "C" fn skarrowith_bundle_of_position(
    bundle: &[u8],
    position: u8,
    out: &mut [u8],
    filled: &mut usize,
) -> u32
    ensures { ChoosesIn bundle.now position out.old filled.old result out.new filled.new }
{
    host_bundle::joining::skarrowith_bundle_of_position(bundle, position, out, filled)
}

// 0, the bundle of the rows of both and how many bytes it fills, or 256 plus 30 to 38.
#[unsafe(no_mangle)]
pub extern "C" fn skarrowith_bundle_join(
    a: &[u8],
    b: &[u8],
    out: &mut [u8],
    filled: &mut usize,
) -> u32
    ensures { JoinsIn a.now b.now out.old filled.old result out.new filled.new }
{
    host_bundle::joining::skarrowith_bundle_join(a, b, out, filled)
}

// 0, the listing in the first places and how many bytes it has, or 256 plus 21.
#[unsafe(no_mangle)]
pub extern "C" fn skarrowith_bundle_list(bundle: &[u8], out: &mut [u8], written: &mut usize) -> u32
    ensures { ListsIn bundle.now out.old written.old result out.new written.new }
{
    host_bundle::skarrowith_bundle_list(bundle, out, written)
}
