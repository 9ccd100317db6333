// The contents of a run bundle in columns (2026-10 of document 02), for the bench host.
ghost use Rattle.base_lent.specs.Lent.{done, Leaves};
ghost use Rattle.bundle_columns.specs.Lookups.{next_kept};
ghost use Rattle.bundle_columns.specs.Record.{columns_bytes};
ghost use Rattle.bundle_columns.specs.Shown.{columns_into};
ghost use Rattle.host_bundle.specs.Lent.{Gives};
ghost use Rattle.host_bundle.specs.Rows.{kept_into, GivesRow};

use crate::record::put_row;
use base_lent::handing::hand;
use bundle_columns::making::columns_of;
use bundle_columns::{count_in, next, row};

// 0 and the record of the five lists, or 256 plus 21 or 30 to 37.
pub fn skarrowith_contents_of(bundle: &[u8], contents: &mut [u8]) -> u32
    ensures { Leaves done columns_bytes (columns_into bundle.now contents.old) contents.old contents.new result }
{
    match columns_of(bundle, contents) {
        Ok(_) => 0,
        Err(refused) => refused.told(),
    }
}

// 0 and the record of row i, or 256 plus 101, 21 or 39.
pub fn skarrowith_contents_row(contents: &[u8], i: usize, out: &mut [u8]) -> u32
    ensures { GivesRow (kept_into contents.now i out.old) out.old result out.new }
{
    match count_in(contents) {
        Ok(_) => put_row(row(contents, i), out),
        Err(refused) => refused.told(),
    }
}

// 0 and the next row of a position from a given row on, or 256 plus 101 or 39.
pub fn skarrowith_contents_next(contents: &[u8], position: u8, from: usize, i: &mut usize) -> u32
    ensures { Gives (next_kept contents.now position from) i.old result i.new }
{
    hand(next(contents, position, from), i)
}
