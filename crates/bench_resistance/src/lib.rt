// Setting the resistance box: a Pt1000 resistance for a temperature in hundredths of a degree, 0 to 200 °C, and the other way round.
#![tactic(auto)]

ghost use Rattle.std.specs.Prelude.{◌≡◌, ◌+◌, ◌≤◌, ◌<◌};
ghost use Rattle.base_rules.specs.Shown.{shown};
ghost use Rattle.bench_resistance.specs.Resistances.{stored_for, card, line, resistance_of, temperature_of};

use crate::table::CARD;
use base_rules::Refusal;

mod table;

// The highest temperature, 200 °C.
pub const HUNDREDTHS_MOST: u32 = 20_000;

// The card: the one use of the table, so that its rule is proved once.
fn card() -> [u32; 201]
    ensures { result ≡ card }
{
    CARD
}

// The resistance so many hundredths on from one whole degree's to the next one's.
fn line(low: u32, high: u32, rest: u32) -> u32
    requires { (low < 2000000) × (high < 2000000) × (rest ≤ 100) }
    ensures { result ≡ line low high rest }
{
    (2 * (low * (100 - rest) + high * rest) + 100) / 200
}

// The resistance in milliohm for a temperature in hundredths of a degree, or refused by 90.
pub fn resistance_of(hundredths: u32) -> Result<u32, Refusal>
    ensures { result ≡ shown (resistance_of hundredths) }
{
    if HUNDREDTHS_MOST < hundredths {
        return Err(Refusal::TEMPERATURE_TOO_HIGH);
    }
    let card = card();
    let degree = (hundredths / 100) as usize;
    if degree == 200 {
        return Ok(card[200]);
    }
    Ok(line(card[degree], card[degree + 1], hundredths % 100))
}

// The highest whole degree whose resistance is not above this one.
fn degree_of(degrees: &[u32; 201], milliohm: u32) -> usize
    requires { (degrees.now ≡ card) × (stored_for 0 ≤ milliohm) }
    ensures { (result < 201) × (stored_for result ≤ milliohm) × (result < 200 → milliohm < stored_for (result + 1)) }
{
    degrees.partition_point(|stored| *stored <= milliohm) - 1
}

// How many hundredths on from one whole degree the last resistance that is not above this one lies.
fn rest_of(low: u32, high: u32, milliohm: u32) -> u32
    requires { (low ≤ milliohm) × (milliohm < high) × (high < 2000000) }
    ensures { (result < 100) × (line low high result ≤ milliohm) × (milliohm < line low high (result + 1)) }
{
    (100 * (milliohm - low) + 49) / (high - low)
}

// The temperature in hundredths of a degree for a resistance in milliohm: the highest whose resistance is not above it, or refused by 91.
pub fn temperature_of(milliohm: u32) -> Result<u32, Refusal>
    ensures { result ≡ shown (temperature_of milliohm) }
{
    let card = card();
    if milliohm < card[0] || card[200] < milliohm {
        return Err(Refusal::RESISTANCE_OUTSIDE);
    }
    let degree = degree_of(&card, milliohm);
    if degree == 200 {
        return Ok(HUNDREDTHS_MOST);
    }
    let rest = rest_of(card[degree], card[degree + 1], milliohm);
    Ok(100 * degree as u32 + rest)
}
