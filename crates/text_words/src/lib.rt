// The words for a refusal number, those of documents 01 and 02 and the library's own.
#![tactic(auto)]

ghost use Rattle.std.specs.Prelude.{◌≡◌, ◌<◌, ◌≤◌, length, take, drop};
ghost use Rattle.base_rules.specs.Answers.{reads};
ghost use Rattle.text_words.specs.Refusals.{text_of};
ghost use Rattle.text_words.specs.Saying.{Says};
ghost use Rattle.text_words.specs.Rows.{rows_from, first_row, row_of_words};

use base_rules::Refusal;

// Where row n of the words begins. Each row ends with a line feed; the first is row 0.
fn row_start(words: &[u8], n: u32) -> usize
    ensures { (result ≤ length words.now) × (drop result words.now ≡ rows_from n words.now) }
{
    let mut left = n;
    for (i, &b) in words.iter().enumerate() {
        if left == 0 {
            return i;
        }
        if b == b'\n' {
            left -= 1;
        }
    }
    words.len()
}

// How many bytes the first row has.
fn row_size(rest: &[u8]) -> usize
    ensures { (result ≤ length rest.now) × (take result rest.now ≡ first_row rest.now) }
{
    for (i, &byte) in rest.iter().enumerate() {
        if byte == b'\n' {
            return i;
        }
    }
    rest.len()
}

// The words stand in the first places with a zero byte behind them; the answer is how many bytes they have without it, or 256 + 21
// where the places are too few.
fn say(out: &mut [u8], words: &[u8]) -> u32
    requires { length words.now < 4096 }
    ensures { Says (reads words.now) out.old result out.new }
{
    let short = out.len() < words.len() + 1;
    if short {
        return Refusal::TOO_FEW_PLACES.told();
    }
    // (No copy_from_slice: the call that it becomes takes stack, which the loop does not.)
    for (i, &byte) in words.iter().enumerate() {
        out[i] = byte;
    }
    out[words.len()] = 0;
    words.len() as u32
}

// The same of row n; an empty row has no words.
fn say_row(out: &mut [u8], words: &[u8], n: u32) -> u32
    requires { length words.now < 4096 }
    ensures { Says (row_of_words words.now n) out.old result out.new }
{
    let from = row_start(words, n);
    let rest = &words[from..];
    let size = row_size(rest);
    let none = size == 0;
    if none {
        return Refusal::NO_SUCH_NUMBER.told();
    }
    say(out, &rest[..size])
}

// The words for 1 to 21.
fn say_of_lines(out: &mut [u8], number: u32) -> u32
    requires { number < 30 }
    ensures { Says (text_of number) out.old result out.new }
{
    say_row(
        out,
        b"\n\
        the line is empty\n\
        a character is over 511\n\
        a parity is odd\n\
        first byte not E5, 10 or 68\n\
        count not 1 after E5, not 5 after 10, under 6 or not second byte + 6 after 68\n\
        second and third byte differ, or fourth is not 68\n\
        read, enter, leave or data shape does not end in 16\n\
        checksum wrong\n\
        short form: C not 5B. Long form: neither L = 4 with C 53, CI 50 and an S above, nor L >= 15 with C 08 and CI 72\n\
        header rule broken\n\
        one byte left, unknown structure or unit, wrong pair, or value past the end\n\
        a BCD digit over 9 in an entry, or a negative value where none is allowed\n\
        time rule broken\n\
        quantity already seen\n\
        \n\
        a required quantity missing\n\
        host form only, before 1: odd number of bytes\n\
        search: no accepted line begins anywhere\n\
        \n\
        writer: no accepted line reads as this telegram\n\
        output: fewer places, or bytes of a record, than needed\n",
        number,
    )
}

// The words for 30 to 43.
fn say_of_bundles(out: &mut [u8], number: u32) -> u32
    requires { (30 ≤ number) × (number < 50) }
    ensures { Says (text_of number) out.old result out.new }
{
    say_row(
        out,
        b"bundle: too long\n\
        bundle: under two bytes\n\
        bundle: count over 512\n\
        bundle: contents cut\n\
        bundle: a position, direction or length out of its range, or a time below the row before\n\
        bundle: an offset wrong or a body past the end\n\
        bundle: bytes left over\n\
        bundle: a character over 511\n\
        bundle: adding: 512 rows, or the new bundle exceeds the buffer or 65,536\n\
        bundle: no such row\n\
        exchange: time earlier than the last step's\n\
        exchange: step not called for in this state\n\
        start with ack or data\n\
        a different request at a resend\n",
        number - 30,
    )
}

// The words for 50 to 101.
fn say_of_steps(out: &mut [u8], number: u32) -> u32
    requires { (50 ≤ number) × (number < 102) }
    ensures { Says (text_of number) out.old result out.new }
{
    say_row(
        out,
        b"command begins less than 33 after the wake-up's end, or before it\n\
        command begins more than 330 after the wake-up's end\n\
        wake-up count outside 459-502\n\
        \n\n\n\n\n\n\n\
        a count over 10^12\n\
        meter count falls\n\
        standard's count does not rise\n\
        replay: fewer than two answers\n\
        replay: any of the four volumes over 10^9 ml\n\
        replay: either interval not above 0 or over 1,800,000 ms\n\
        \n\n\n\n\
        meter: time goes back\n\
        meter: a total would pass 99,999,999\n\
        meter: set up with data the writer refuses, or energy or volume not in structure 0C\n\
        \n\n\n\n\n\n\n\
        CJ/T 188: frame shape, or length not 03 or 2E\n\
        CJ/T 188: sum\n\
        CJ/T 188: type or address, AA with 2E included\n\
        CJ/T 188: data mark, or control not that length's\n\
        CJ/T 188: digits or clock\n\
        CJ/T 188: unit\n\
        CJ/T 188: conversion not exact\n\
        \n\n\n\
        temperature over 20,000 hundredths\n\
        resistance below the first or above the last\n\
        \n\n\n\n\n\n\n\n\
        no words for this number\n\
        no record: another size, kind or sort, a byte that must be 0, or a state to which no steps lead\n",
        number - 50,
    )
}

// The words for a number, or 256 plus 100 where it has none.
pub fn say_number(out: &mut [u8], number: u32) -> u32
    ensures { Says (text_of number) out.old result out.new }
{
    if number < 30 {
        return say_of_lines(out, number);
    }
    if number < 50 {
        return say_of_bundles(out, number);
    }
    if number < 102 {
        return say_of_steps(out, number);
    }
    Refusal::NO_SUCH_NUMBER.told()
}
