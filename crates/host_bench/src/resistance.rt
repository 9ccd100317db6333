// Setting the resistance box for the bench host, a C program: include/skarrowith.h says how.
ghost use Rattle.bench_resistance.specs.Resistances.{resistance_of, temperature_of};
ghost use Rattle.host_bench.specs.Resistances.{LeavesOne};

use base_lent::handing::hand;
use bench_resistance::{resistance_of, temperature_of};

// 0 and the resistance in milliohm for a temperature in hundredths of a degree, or 256 plus 90.
pub fn skarrowith_resistance(hundredths: u32, milliohm: &mut u32) -> u32
    ensures { LeavesOne (resistance_of hundredths) milliohm.old milliohm.new result }
{
    hand(resistance_of(hundredths), milliohm)
}

// 0 and the temperature in hundredths of a degree for a resistance in milliohm, or 256 plus 91.
pub fn skarrowith_temperature(milliohm: u32, hundredths: &mut u32) -> u32
    ensures { LeavesOne (temperature_of milliohm) hundredths.old hundredths.new result }
{
    hand(temperature_of(milliohm), hundredths)
}
