// Rows of a run bundle that repeat a reading, for the bench host, a C program: include/skarrowith.h says how the function is called.
ghost use Rattle.host_verdicts.specs.Repeating.{RepeatsIn};

use base_lent::handing::hand;
use run_repeats::earlier_rows;

// 0, for each row 0 or 1 + the lowest earlier row with its reading, and the count of rows; or 256 plus 30 to 37 or 21.
pub fn skarrowith_repeats(bundle: &[u8], rows: &mut [u16], count: &mut usize) -> u32
    ensures { RepeatsIn bundle.now rows.old count.old result rows.new count.new }
{
    hand(earlier_rows(bundle, rows), count)
}
