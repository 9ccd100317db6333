// Lines: checked, read and written.
ghost use Rattle.std.specs.Prelude.{◌≡◌, length};
ghost use Rattle.mbus_rules.specs.Host.{host_number};
ghost use Rattle.base_lent.specs.Lent.{Leaves};
ghost use Rattle.mbus_records.specs.Telegrams.{telegram_bytes};
ghost use Rattle.host_lines.specs.Calls.{read_for, kind_of, write_for, request_for};

// 1 ack, 2 read, 3 enter, 4 leave, 5 data, or 256 plus the refusal number.
#[unsafe(no_mangle)]
pub extern "C" fn skarrowith_check_line(bytes: &[u8]) -> u32
    ensures { result ≡ host_number bytes.now }
{
    host_check::skarrowith_check_line(bytes)
}

// Reads a line into a telegram's record, and answers its kind.
#[unsafe(no_mangle)]
pub extern "C" fn skarrowith_read_line(line: &[u16], telegram: &mut [u8]) -> u32
    ensures { Leaves kind_of telegram_bytes (read_for line.now telegram.old) telegram.old telegram.new result }
{
    host_lines::skarrowith_read_line(line, telegram)
}

// Writes the line of the telegram whose record this is.
#[unsafe(no_mangle)]
pub extern "C" fn skarrowith_write_line(telegram: &[u8], out: &mut [u16]) -> u32
    ensures { Leaves length (λ line. line) (write_for telegram.now out.old) out.old out.new result }
{
    host_lines::skarrowith_write_line(telegram, out)
}

// Writes a request's line: 2 a read, 3 an enter with its method, 4 a leave, to the address.
#[unsafe(no_mangle)]
pub extern "C" fn skarrowith_write_request(
    kind: u8,
    address: u8,
    method: u8,
    out: &mut [u16],
) -> u32
    ensures { Leaves length (λ line. line) (request_for kind address method out.old) out.old out.new result }
{
    host_lines::skarrowith_write_request(kind, address, method, out)
}
