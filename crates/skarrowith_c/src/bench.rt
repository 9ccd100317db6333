// The bench: the wake-up, the gap, the error of indication and the resistance box.
ghost use Rattle.bench_clock.specs.Wakes.{wake_of, wake_line};
ghost use Rattle.base_lent.specs.Lent.{done, Leaves, told};
ghost use Rattle.std.specs.Prelude.{◌≡◌, [], ◌∷◌};
ghost use Rattle.bench_clock.specs.Gaps.{gap_of};
ghost use Rattle.host_bench.specs.Calls.{error_for};
ghost use Rattle.bench_resistance.specs.Resistances.{resistance_of, temperature_of};
ghost use Rattle.host_bench.specs.Resistances.{LeavesOne};

// Writes a wake-up of so many characters.
#[unsafe(no_mangle)]
pub extern "C" fn skarrowith_write_wake(count: usize, out: &mut [u16]) -> u32
    ensures { Leaves done wake_line (wake_of count out.old) out.old out.new result }
{
    host_bench::skarrowith_write_wake(count, out)
}

// Whether a command that begins at a time stands in the gap after a wake-up that ended at another.
#[unsafe(no_mangle)]
pub extern "C" fn skarrowith_gap(ended: u64, begins: u64) -> u32
    ensures { result ≡ told done (gap_of ended begins) }
{
    host_bench::skarrowith_gap(ended, begins)
}

// The error of indication in tenths of a percent.
#[unsafe(no_mangle)]
pub extern "C" fn skarrowith_error(m1: u64, m2: u64, s1: u64, s2: u64, tenths: &mut [i64]) -> u32
    ensures { Leaves done (λ e. e ∷ []) (error_for m1 m2 s1 s2 tenths.old) tenths.old tenths.new result }
{
    host_bench::skarrowith_error(m1, m2, s1, s2, tenths)
}

// 0 and the resistance in milliohm for a temperature in hundredths of a degree, or 256 plus 90.
#[unsafe(no_mangle)]
pub extern "C" fn skarrowith_resistance(hundredths: u32, milliohm: &mut u32) -> u32
    ensures { LeavesOne (resistance_of hundredths) milliohm.old milliohm.new result }
{
    host_bench::resistance::skarrowith_resistance(hundredths, milliohm)
}

// 0 and the temperature in hundredths of a degree for a resistance in milliohm, or 256 plus 91.
#[unsafe(no_mangle)]
pub extern "C" fn skarrowith_temperature(milliohm: u32, hundredths: &mut u32) -> u32
    ensures { LeavesOne (temperature_of milliohm) hundredths.old hundredths.new result }
{
    host_bench::resistance::skarrowith_temperature(milliohm, hundredths)
}
