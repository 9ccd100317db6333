// Reads a run bundle from standard input and prints its listing (document 01, "The run bundle").
#![tactic(auto)]

ghost use Rattle.std.specs.Prelude.{◌≤◌, IfOk, length};

use std::io;
use std::io::Read;
use std::prelude::Print;

// Reads until the places are full or the input ends, and answers how many bytes were read.
// (read_exact refuses an input that ends before, and read_to_end needs the heap; no other method of a reader goes on until the end.)
fn read_full(input: &mut io::Stdin, to: &mut [u8]) -> io::Result<usize>
    ensures { IfOk result (λ n. n ≤ length to.new) }
{
    let mut done = 0;
    while done < to.len() {
        let n = input.read(&mut to[done..])?;
        if n == 0 {
            break;
        }
        done += n;
    }
    Ok(done)
}

// Writes the first bytes of a text.
fn print(output: io::Stdout, text: &[u8], size: usize) -> io::Result<()> {
    if size <= text.len() {
        output.write_all(&text[0..size])?;
    }
    Ok(())
}

// The input has one byte more than a bundle may have, so that a longer one is seen; no listing is longer than the text.
fn main(rt: HostRuntime) -> io::Result<()> {
    let mut input = [0u8; 65_537];
    let mut text = [0u8; 15_901];
    let n = read_full(&mut rt.stdin(), &mut input)?;
    match run_listing::list(&input[..n], &mut text) {
        Ok(size) => print(rt.stdout(), &text, size),
        Err(_) => Ok(()),
    }
}
