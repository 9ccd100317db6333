// A row as a record for C.
ghost use Rattle.std.specs.Prelude.{◌≡◌};
ghost use Rattle.base_lent.specs.Lent.{needs};
ghost use Rattle.host_bundle.specs.Rows.{row_record, row_found, GivesRow};

use base_lent::store;
use base_numbers::bytes_of;
use base_rules::Refusal;
use bundle_rows::Row;

// The bytes of a row's record.
pub(crate) const ROW_BYTES: usize = 12;

// The record of a row.
pub(crate) fn record_of(row: Row) -> [u8; ROW_BYTES]
    ensures { result ≡ row_record row }
{
    let time = bytes_of(row.time as u64);
    let offset = bytes_of(row.offset as u64);
    let length = bytes_of(row.length as u64);
    [
        time[0],
        time[1],
        time[2],
        time[3],
        offset[0],
        offset[1],
        offset[2],
        offset[3],
        length[0],
        length[1],
        row.position,
        row.direction,
    ]
}

// 0 and the record of a row that was found, or 256 plus 21 or the number that refuses it.
pub(crate) fn put_row(found: Result<Row, Refusal>, out: &mut [u8]) -> u32
    ensures { GivesRow (needs 12 out.old (row_found found)) out.old result out.new }
{
    if out.len() < ROW_BYTES {
        return Refusal::TOO_FEW_PLACES.told();
    }
    match found {
        Ok(row) => {
            store(&record_of(row), out);
            0
        },
        Err(refused) => refused.told(),
    }
}
