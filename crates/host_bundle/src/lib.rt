// The run bundle for the bench host, a C program: include/skarrowith.h says how its functions are called.
#![tactic(auto)]

ghost use Rattle.bundle_check.specs.Bundles.{check_of};
ghost use Rattle.bundle_adding.specs.Adding.{new_record};
ghost use Rattle.host_bundle.specs.Lent.{Gives};
ghost use Rattle.host_bundle.specs.Rows.{row_into, GivesRow};
ghost use Rattle.host_bundle.specs.Bundled.{AddsIn, ListsIn};

use crate::record::put_row;
use base_lent::handing::hand;
use bundle_adding::add;
use bundle_check::check;
use bundle_check::rows::row;
use run_listing::list;

pub mod contents;
pub mod inserting;
pub mod joining;
mod record;
pub mod salvaging;

// 0 and the count of rows, or 256 plus 30 to 37.
pub fn skarrowith_bundle_check(bundle: &[u8], rows: &mut usize) -> u32
    ensures { Gives (check_of bundle.now) rows.old result rows.new }
{
    hand(check(bundle), rows)
}

// 0 and the record of row i, or 256 plus 21, 30 to 37 or 39.
pub fn skarrowith_bundle_row(bundle: &[u8], i: usize, out: &mut [u8]) -> u32
    ensures { GivesRow (row_into bundle.now i out.old) out.old result out.new }
{
    put_row(row(bundle, i), out)
}

// 0, the row added and how many bytes the bundle then fills, or 256 plus 30 to 38. C hands over buffer, filled and the row's fields one by one.
pub fn skarrowith_bundle_add(
    buffer: &mut [u8],
    filled: &mut usize,
    position: u8,
    direction: u8,
    time: u32,
    body: &[u8],
) -> u32
    ensures { AddsIn buffer.old filled.old (new_record position direction time body.now) result buffer.new
        filled.new }
{
    hand(
        add(buffer, *filled, position, direction, time, body),
        filled,
    )
}

// 0, the listing in the first places and how many bytes it has, or 256 plus 21.
pub fn skarrowith_bundle_list(bundle: &[u8], out: &mut [u8], written: &mut usize) -> u32
    ensures { ListsIn bundle.now out.old written.old result out.new written.new }
{
    hand(list(bundle, out), written)
}
