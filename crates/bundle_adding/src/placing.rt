// Where a row goes by its time, and where its body does.
ghost use Rattle.std.specs.Prelude.{◌≡◌, ◌+◌, ◌≤◌, length, take};
ghost use Rattle.bundle_rows.specs.Rows.{first_offset};
ghost use Rattle.bundle_check.specs.Records.{records_of, bodies_for};
ghost use Rattle.bundle_adding.specs.Inserting.{place_behind};

use bundle_check::accepted::Accepted;

// The place behind the last row whose time is not above this one. It is looked for from the end, where new rows mostly go.
pub(crate) fn place_behind(bundle: Accepted, time: u32) -> usize
    ensures { result ≡ place_behind time (records_of bundle.entry.bytes.now) bundle.entry.count }
{
    for place in (0..bundle.count).rev() {
        let row = bundle.row(place);
        if row.time <= time {
            return place + 1;
        }
    }
    0
}

// Where the bodies of the rows in front of a place end.
pub(crate) fn bodies_end(bundle: Accepted, place: usize) -> usize
    requires { place ≤ bundle.count }
    ensures { result ≡ first_offset bundle.entry.count + length (bodies_for (take place (records_of bundle.entry.bytes.now))) }
{
    if place == bundle.count {
        return bundle.bytes.len();
    }
    bundle.row(place).offset as usize
}
