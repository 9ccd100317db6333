// A verdict as a record for C.
ghost use Rattle.std.specs.Prelude.{◌≡◌};
ghost use Rattle.host_verdicts.specs.Records.{verdict_number, by_number, verdict_record};

use base_numbers::bytes_of;
use run_verdicts::Verdict;

// The bytes of a verdict's record.
pub(crate) const VERDICT_BYTES: usize = 4;

// The number of a verdict, as C knows the cases. Two of them hold a number, and so they have no discriminants to take with `as`.
fn number_of(verdict: Verdict) -> u64
    ensures { result ≡ verdict_number verdict }
{
    match verdict {
        Verdict::Wake => 1,
        Verdict::First => 2,
        Verdict::Resend => 3,
        Verdict::Refused(_) => 4,
        Verdict::Counts => 5,
        Verdict::LeftOver => 6,
        Verdict::Late => 7,
        Verdict::Second => 8,
        Verdict::Damaged(_) => 9,
        Verdict::WrongKind => 10,
        Verdict::Unasked => 11,
    }
}

// The number by which a line was refused or damaged, and 0 where it was neither.
fn by_number(verdict: Verdict) -> u64
    ensures { result ≡ by_number verdict }
{
    match verdict {
        Verdict::Refused(n) | Verdict::Damaged(n) => n as u64,
        _ => 0,
    }
}

// The record of a verdict.
pub(crate) fn record_of(verdict: Verdict) -> [u8; VERDICT_BYTES]
    ensures { result ≡ verdict_record verdict }
{
    let number = bytes_of(number_of(verdict));
    let by = bytes_of(by_number(verdict));
    [number[0], number[1], by[0], by[1]]
}
