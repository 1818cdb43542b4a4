// Runs the functions of `ieee` on known inputs, and writes only the lines whose answer differs.
// Standard input has a line of 42 bytes for each: the function's name in 7 places, the bits of the
// input and those of the answer in 16 hexadecimal digits each.
#![tactic(auto)]

ghost use Rattle.std.specs.Prelude.{◌+◌, ◌≤◌, IfOk, length};

use std::io;
use std::io::Read;

// The bytes of a line.
const LINE: usize = 42;

fn digit(c: u8) -> u64 {
    if c < b'a' {
        (c % 16) as u64
    } else {
        (c % 16) as u64 + 9
    }
}

// The number of the 16 digits from at on.
fn word(text: &[u8], at: usize) -> u64
    requires { at + 16 ≤ length text.now }
{
    let mut w = 0u64;
    for c in &text[at..at + 16] {
        w = w % 0x1000_0000_0000_0000 * 16 + digit(*c) % 16;
    }
    w
}

// The answer, as bits, of the function whose name has these letters.
fn computed(first: u8, third: u8, input: u64) -> u64 {
    let x = ieee::from_bits64(input);
    if first == b'n' {
        return ieee::to_bits32(ieee::narrow(x)) as u64;
    }
    if first == b'c' {
        return ieee::ceiling(x);
    }
    if third == b'o' {
        return ieee::to_bits64(ieee::root(x));
    }
    ieee::round_half_away(x)
}

// Looks at one line.
fn try_line(rt: &impl Print, line: &[u8]) -> io::Result<()>
    requires { 42 ≤ length line.now }
{
    let answer = computed(line[0], line[2], word(line, 8));
    if answer != word(line, 25) {
        rt.write_all(line)?;
        println!(rt; "{answer:016x}")?;
    }
    Ok(())
}

// Reads until the text is full or the input ends, and answers how many bytes there are. `test_bad_input` has it too:
// this crate stands on `ieee` alone, and a crate for it would have more lines than it has.
fn read_full(input: &mut impl Read, text: &mut [u8]) -> io::Result<usize>
    ensures { IfOk result (λ n. n ≤ length text.new) }
{
    let mut size = 0;
    // each read moves on by what it brought
    while size < text.len() {
        let more = input.read(&mut text[size..])?;
        if more == 0 {
            break;
        }
        size += more;
    }
    Ok(size)
}

fn main(rt: HostRuntime) -> io::Result<()> {
    let mut text = [0u8; 65536];
    let n = read_full(&mut rt.stdin(), &mut text)?;
    for line in text[..n].chunks_exact(LINE) {
        try_line(&rt, line)?;
    }
    Ok(())
}
