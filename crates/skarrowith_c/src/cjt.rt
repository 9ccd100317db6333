// CJ/T 188.
ghost use Rattle.std.specs.Prelude.{◌≡◌, length};
ghost use Rattle.cjt_rules.specs.CjtHost.{cjt_host_number, cjt_kind_number};
ghost use Rattle.base_lent.specs.Lent.{Leaves, done};
ghost use Rattle.cjt_records.specs.CjtRecords.{cjt_bytes};
ghost use Rattle.host_cjt.specs.CjtCalls.{read_cjt_for, write_cjt_for, entry_cjt_for};
ghost use Rattle.mbus_records.specs.Telegrams.{entry_bytes};

// 1 request, 2 answer, or 256 plus the refusal number.
#[unsafe(no_mangle)]
pub extern "C" fn skarrowith_cjt_check_line(bytes: &[u8]) -> u32
    ensures { result ≡ cjt_host_number bytes.now }
{
    host_cjt::reading::skarrowith_cjt_check_line(bytes)
}

// Reads a line into a telegram's record, and answers which of the two it is.
#[unsafe(no_mangle)]
pub extern "C" fn skarrowith_cjt_read_line(line: &[u16], telegram: &mut [u8]) -> u32
    ensures { Leaves cjt_kind_number cjt_bytes (read_cjt_for line.now telegram.old) telegram.old telegram.new result }
{
    host_cjt::reading::skarrowith_cjt_read_line(line, telegram)
}

// Writes the line of the telegram whose record this is.
#[unsafe(no_mangle)]
pub extern "C" fn skarrowith_cjt_write_line(telegram: &[u8], out: &mut [u16]) -> u32
    ensures { Leaves length (λ line. line) (write_cjt_for telegram.now out.old) out.old out.new result }
{
    host_cjt::skarrowith_cjt_write_line(telegram, out)
}

// The record of the M-Bus entry for an energy value, a count of its last digit with its unit code.
#[unsafe(no_mangle)]
pub extern "C" fn skarrowith_cjt_energy_entry(count: u32, code: u8, place: &mut [u8]) -> u32
    ensures { Leaves done entry_bytes (entry_cjt_for count code place.old) place.old place.new result }
{
    host_cjt::skarrowith_cjt_energy_entry(count, code, place)
}
