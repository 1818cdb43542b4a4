// Document 01's causes of number 5, each by a chain that has it and by one just inside it. A line of the answer
// has the cause, how a call, a hop and repair undo on that chain are answered, and `changed` behind an answer
// that did not leave as it was what it must.
//
// Standard input has a line for each: the letter of a chain, the cause, and the words that the chain is given,
// as `a|block length 1001 of rate 1000.5|0=408f440000000000 11=3e9`. A word is its place in decimal and its bits in
// hexadecimal. `chain_words` has the places of a state; 172 to 219 is the span store, 220 to 251 the monitor's, 252 to
// 263 the repair store.

ghost use Rattle.std.specs.Prelude.{◌≤◌, IfOk, length};

use crate::bench::{Bench, Tried, say};
use crate::operations::{asked, call, fresh, hop, undo};
use stage_mode::StageMode;
use std::io;
use std::io::Read;
use test_operations::ACCEPTED;

// The sample (1, 0).
const ONE: u64 = 0x3f80_0000;

// ---- chains to begin with

// Sample number k: (1 + (k mod 64)/64, 0), but (100, 0) for 20 and 43. With 60 samples the one at 20 is
// mended, and the run at 43 is open.
fn sample(k: usize) -> u64 {
    match k {
        20 | 43 => 0x42c8_0000,
        _ => ONE + (k % 64) as u64 * 0x2_0000,
    }
}

fn samples() -> [u64; 64] {
    let mut out = [0u64; 64];
    for (k, x) in out.iter_mut().enumerate() {
        *x = sample(k);
    }
    out
}

// A chain of this impulse mode, after so many samples and a hop.
fn after(impulse: StageMode, count: usize) -> Bench {
    let called = call(fresh(impulse, 1000.0), samples(), count, asked());
    let hopped = hop(called.bench, [ONE; 64], 8, 0, asked());
    hopped.bench
}

// The chain of a letter, after 60 samples but for the applying `y`, which has 5.
fn chain(letter: u8) -> Bench {
    match letter {
        b'y' => after(StageMode::Apply, 5),
        b'o' => after(StageMode::Observe, 60),
        b'-' => after(StageMode::Off, 60),
        _ => after(StageMode::Apply, 60),
    }
}

// ---- a call, a hop and repair undo on a chain

fn say_changed(rt: &impl Print, t: Tried) -> io::Result<()> {
    if !t.good {
        rt.write_all(b" changed")?;
    }
    Ok(())
}

fn say_call(rt: &impl Print, number: u64, ready: u64) -> io::Result<()> {
    if number == ACCEPTED {
        return print!(rt; "ready {ready}");
    }
    say(rt, number)
}

// The answer, or these words where it was accepted.
fn say_or(rt: &impl Print, number: u64, accepted: &[u8]) -> io::Result<()> {
    if number == ACCEPTED {
        return rt.write_all(accepted);
    }
    say(rt, number)
}

// With 24 samples (1, 0).
fn show_call(rt: &impl Print, b: Bench) -> io::Result<()> {
    let t = call(b, [ONE; 64], 24, asked());
    rt.write_all(b": call ")?;
    say_call(rt, t.number, t.value)?;
    say_changed(rt, t)
}

// With 8 channels (1, 0).
fn show_hop(rt: &impl Print, b: Bench) -> io::Result<()> {
    let t = hop(b, [ONE; 64], 8, 100, asked());
    rt.write_all(b", hop ")?;
    say_or(rt, t.number, b"no report")?;
    say_changed(rt, t)
}

// Over 64 samples (1, 0).
fn show_undo(rt: &impl Print, b: Bench) -> io::Result<()> {
    let t = undo(b, [ONE; 64], asked());
    rt.write_all(b", undo ")?;
    say_or(rt, t.number, b"restored")?;
    say_changed(rt, t)
}

// How a call, a hop and repair undo on this chain are answered, and the line's end.
fn show_chain(rt: &impl Print, b: Bench) -> io::Result<()> {
    let mut state = b.state;
    test_operations::settle(&mut state);
    let mut given = b;
    given.state = state;
    show_call(rt, given)?;
    show_hop(rt, given)?;
    show_undo(rt, given)?;
    rt.write_all(b"\n")
}

// ---- a line

// How far a line is read: its part, the place of a word, the digits since as a decimal and as a hexadecimal
// number, and the chain that it gives.
#[derive(Clone, Copy)]
struct Reading {
    part: Part,
    place: u64,
    decimal: u64,
    hexadecimal: u64,
    bench: Bench,
}

// The parts of a line.
#[derive(Clone, Copy, Debug, PartialEq, Eq)]
enum Part {
    Letter,
    Cause,
    Words,
}

// A place where no word stands.
const NOWHERE: u64 = 263;

// The part of a line, and no word yet.
fn in_part(part: Part, bench: Bench) -> Reading {
    Reading {
        part,
        place: NOWHERE,
        decimal: 0,
        hexadecimal: 0,
        bench,
    }
}

// The chain with the word that was read, of the state or of the span, the monitor's or the repair store; as it is if
// there was none.
fn given(r: Reading) -> Bench {
    let place = r.place as usize;
    let word = r.hexadecimal;
    let mut out = r.bench;
    match place {
        0..=171 => out.state[place] = word,
        172..=219 => out.spans[place - 172] = word,
        220..=251 => out.monitor[place - 220] = ieee::from_bits64(word),
        252..=263 => out.repairs[place - 252] = word,
        _ => {}
    }
    out
}

fn digit(c: u8) -> u64 {
    if c < b'a' {
        return (c % 16) as u64;
    }
    (c % 16) as u64 + 9
}

fn with_digit(r: Reading, d: u64) -> Reading {
    let mut out = r;
    out.decimal = r.decimal % 100 * 10 + d % 16;
    out.hexadecimal = r.hexadecimal % 0x1000_0000_0000_0000 * 16 + d % 16;
    out
}

fn with_place(r: Reading) -> Reading {
    let mut out = r;
    out.place = r.decimal;
    out.hexadecimal = 0;
    out
}

fn end_line(rt: &impl Print, r: Reading) -> io::Result<Reading> {
    let bench = given(r);
    show_chain(rt, bench)?;
    Ok(in_part(Part::Letter, bench))
}

fn read_word(rt: &impl Print, r: Reading, c: u8) -> io::Result<Reading> {
    match c {
        b'=' => Ok(with_place(r)),
        b' ' => Ok(in_part(r.part, given(r))),
        b'\n' => end_line(rt, r),
        _ => Ok(with_digit(r, digit(c))),
    }
}

fn say_byte(rt: &impl Print, c: u8) -> io::Result<()> {
    let text = [c];
    rt.write_all(&text)
}

// The part behind a bar: the words behind the cause, and else the cause.
fn behind(part: Part) -> Part {
    match part {
        Part::Letter | Part::Words => Part::Cause,
        Part::Cause => Part::Words,
    }
}

fn read(rt: &impl Print, r: Reading, c: u8) -> io::Result<Reading> {
    if c == b'|' {
        return Ok(in_part(behind(r.part), r.bench));
    }
    match r.part {
        Part::Letter => Ok(in_part(Part::Letter, chain(c))),
        Part::Cause => {
            say_byte(rt, c)?;
            Ok(r)
        }
        Part::Words => read_word(rt, r, c),
    }
}

// ---- all lines

fn read_all(rt: &impl Print, text: &[u8]) -> io::Result<()> {
    let mut r = in_part(Part::Letter, chain(b'a'));
    for c in text {
        r = read(rt, r, *c)?;
    }
    Ok(())
}

// Reads until the text is full or the input ends, and answers how many bytes there are. `test_ieee` has it
// too: that crate stands on `ieee` alone, and a crate for it would have more lines than it has.
fn read_full(input: &mut impl Read, text: &mut [u8]) -> io::Result<usize>
    ensures { IfOk result (λ n. n ≤ length text.new) }
{
    let mut size = 0;
    // each read moves on by what it brought
    while size < text.len() {
        let more = input.read(&mut text[size..])?;
        if more == 0 {
            break;
        }
        size += more;
    }
    Ok(size)
}

pub fn show(rt: &(impl Input + Print)) -> io::Result<()> {
    let mut text = [0u8; 65536];
    let n = read_full(&mut rt.reader(), &mut text)?;
    read_all(rt, &text[..n])
}
