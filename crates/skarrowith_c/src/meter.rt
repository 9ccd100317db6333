// The simulated meter.
ghost use Rattle.host_meter.specs.Calls.{set_up_for, SetsUp, line_heard_for, HearsLine, measure_for, Steps};

// A meter with its own address and its data template.
#[unsafe(no_mangle)]
pub extern "C" fn skarrowith_meter_set_up(kept: &mut [u8], address: u8, template: &[u8]) -> u32
    ensures { SetsUp (set_up_for kept.old address template.now) kept.old kept.new result }
{
    host_meter::skarrowith_meter_set_up(kept, address, template)
}

// A line heard at t. The meter's answer, if it has one, is written to the answer's record.
#[unsafe(no_mangle)]
pub extern "C" fn skarrowith_meter_heard(
    kept: &mut [u8],
    line: &[u16],
    t: u64,
    answer: &mut [u8],
) -> u32
    ensures { HearsLine (line_heard_for kept.old line.now (record { 0 = t }) answer.old) (record { 0 = t })
        kept.old kept.new answer.old answer.new result }
{
    host_meter::skarrowith_meter_heard(kept, line, t, answer)
}

// Volume and energy measured at t, as counts of the template's last digits.
#[unsafe(no_mangle)]
pub extern "C" fn skarrowith_meter_measure(kept: &mut [u8], volume: u64, energy: u64, t: u64) -> u32
    ensures { Steps (measure_for kept.old volume energy (record { 0 = t })) (record { 0 = t }) kept.old kept.new result }
{
    host_meter::skarrowith_meter_measure(kept, volume, energy, t)
}
