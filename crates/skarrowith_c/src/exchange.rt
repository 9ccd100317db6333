// The exchange.
ghost use Rattle.host_exchange.specs.Calls.{Answers, send_ended_for, HearsReply, heard_for, tick_for};
ghost use Rattle.mbus_rules.specs.Lines.{read_line};
ghost use Rattle.mbus_rules.specs.Telegrams.{telegram_read};

// A send has ended at t: 2 a read, 3 an enter with its method, 4 a leave, to the address.
#[unsafe(no_mangle)]
pub extern "C" fn skarrowith_exchange_send_ended(
    kept: &mut [u8],
    kind: u8,
    address: u8,
    method: u8,
    t: u64,
) -> u32
    ensures { Answers (send_ended_for kept.old kind address method t) kept.old kept.new result }
{
    host_exchange::skarrowith_exchange_send_ended(kept, kind, address, method, t)
}

// A line heard at t, the start of its first character. The telegram of a line that ends the exchange well is written to the reply.
#[unsafe(no_mangle)]
pub extern "C" fn skarrowith_exchange_heard(
    kept: &mut [u8],
    line: &[u16],
    t: u64,
    reply: &mut [u8],
) -> u32
    ensures { HearsReply (heard_for kept.old line.now t reply.old) (telegram_read (read_line line.now))
        kept.old kept.new reply.old reply.new result }
{
    host_exchange::skarrowith_exchange_heard(kept, line, t, reply)
}

// No line has begun up to t.
#[unsafe(no_mangle)]
pub extern "C" fn skarrowith_exchange_tick(kept: &mut [u8], t: u64) -> u32
    ensures { Answers (tick_for kept.old t) kept.old kept.new result }
{
    host_exchange::skarrowith_exchange_tick(kept, t)
}
