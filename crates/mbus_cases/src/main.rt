// Answers the cases `read` of docs/CASES.md.
//
// Every function here is proved safe and ending. What a program reads and prints no contract can
// say: its answers are compared with the second program's.
#![tactic(auto)]

mod line;
mod say;
mod word;

use line::Line;
use std::io;
use std::io::Read;

fn take(line: Line, to: io::Stdout, bytes: &[u8], words: &mut [u16; 4096]) -> io::Result<Line> {
    let mut longer = line;
    for b in bytes {
        longer = longer.with(to, *b, words)?;
    }
    Ok(longer)
}

fn main(rt: HostRuntime) -> io::Result<()> {
    let mut bytes = [0u8; 4096];
    let mut words = [0u16; 4096];
    let mut line = Line::new();
    let to = rt.stdout();
    let mut input = rt.stdin();
    // Nothing says that the input ends; no run counts so far.
    for _ in 0..u64::MAX {
        let n = input.read(&mut bytes)?;
        if n == 0 {
            break;
        }
        line = take(line, to, &bytes[..n], &mut words)?;
    }
    if !line.is_empty() {
        line.answer(to, &mut words)?;
    }
    Ok(())
}
