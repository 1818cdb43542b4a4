// Words of 64 bits on standard input and standard output, little-endian.

ghost use Rattle.std.specs.Prelude.{◌≡◌, ◌+◌, ◌<◌, ◌≤◌, length};

use crate::MONITOR_WORDS;
use std::io;
use std::io::{ErrorKind, Read};
use test_operations::{Told, at_most, part};

// How many words go at once.
const AT_ONCE: usize = 512;

// ---- one word of a list

// Word k, 0 behind the end.
pub fn word(words: &[u64], k: usize) -> u64 {
    words.get(k).copied().unwrap_or(0)
}

// The float of word k.
pub fn float(words: &[u64], k: usize) -> f64 {
    ieee::from_bits64(word(words, k))
}

// ---- reading

fn decode(bytes: &[u8; 4096], words: &mut [u64])
    requires { length words.old ≤ 512 }
{
    replay_format::words::read_words(bytes, words);
}

// Whether all of these words were there.
fn read_part(rt: &impl Input, words: &mut [u64]) -> io::Result<bool>
    requires { length words.old ≤ 512 }
{
    let mut bytes = [0u8; 4096];
    let n = words.len() * 8;
    match rt.reader().read_exact(&mut bytes[..n]) {
        Ok(()) => {
            decode(&bytes, words);
            Ok(true)
        }
        Err(e) => {
            if e.kind() == ErrorKind::UnexpectedEof {
                return Ok(false);
            }
            Err(e)
        }
    }
}

// Reads over the slice; whether all of its words were there.
pub fn read_words(rt: &impl Input, words: &mut [u64]) -> io::Result<bool> {
    for part in words.chunks_mut(AT_ONCE) {
        if !read_part(rt, part)? {
            return Ok(false);
        }
    }
    Ok(true)
}

// ---- writing

fn encode(words: &[u64], bytes: &mut [u8; 4096]) {
    for (w, place) in words.iter().zip(bytes.chunks_exact_mut(8)) {
        place.copy_from_slice(&w.to_le_bytes());
    }
}

fn write_part(rt: &impl Print, words: &[u64]) -> io::Result<()>
    requires { length words.now ≤ 512 }
{
    let mut bytes = [0u8; 4096];
    encode(words, &mut bytes);
    let n = words.len() * 8;
    rt.write_all(&bytes[..n])
}

pub fn write_words(rt: &impl Print, words: &[u64]) -> io::Result<()> {
    for part in words.chunks(AT_ONCE) {
        write_part(rt, part)?;
    }
    Ok(())
}

// The words from one place to another, as far as there are any.
pub fn write_between(rt: &impl Print, words: &[u64], from: usize, to: usize) -> io::Result<()> {
    let e = part(words, to);
    let k = at_most(from, e);
    write_words(rt, &words[k..e])
}

// The words in front of an answer: the operation, its number and value, four that belong to it, and how many
// words follow.
pub fn write_front(rt: &impl Print, front: [u64; 8]) -> io::Result<()> {
    write_words(rt, &front)
}

// ---- one word of many

// A step that can be undone, so a difference in one word is never lost.
fn mixed(h: u64, w: u64) -> u64 {
    let x = h ^ w;
    let a = x ^ (x << 13);
    let b = a ^ (a >> 7);
    std::num::wrapping_add_u64(b ^ (b << 17), 0x9e37_79b9_7f4a_7c15)
}

fn digest(words: &[u64]) -> u64 {
    words.iter().fold(0, |h, w| mixed(h, *w))
}

fn write_one(rt: &impl Print, w: u64) -> io::Result<()> {
    let words = [w];
    write_words(rt, &words)
}

// The words, or their digest.
pub fn show_words(rt: &impl Print, words: &[u64], how: u64) -> io::Result<()> {
    if how == 1 {
        return write_one(rt, digest(words));
    }
    write_words(rt, words)
}

// The same of the first so many.
pub fn show_first(rt: &impl Print, words: &[u64], count: usize, how: u64) -> io::Result<()> {
    let n = part(words, count);
    show_words(rt, &words[..n], how)
}

// The bits of the monitor's words.
pub fn bits(words: &[f64; MONITOR_WORDS]) -> [u64; MONITOR_WORDS] {
    let mut out = [0u64; MONITOR_WORDS];
    for (w, x) in out.iter_mut().zip(words) {
        *w = ieee::to_bits64(*x);
    }
    out
}

// How many words are shown.
pub fn shown(n: usize, how: u64) -> u64 {
    if how == 1 {
        return 1;
    }
    n as u64
}

// The answer to an operation, with the slice that it left.
pub fn answer_slice(
    rt: &impl Print,
    op: u64,
    told: Told,
    slice: &[u64],
    how: u64,
) -> io::Result<()> {
    let n = slice.len();
    write_front(
        rt,
        [
            op,
            told.number,
            told.value,
            0,
            0,
            0,
            n as u64,
            shown(n, how),
        ],
    )?;
    show_words(rt, slice, how)
}

// The answer to an operation, with two words.
pub fn answer_plain(rt: &impl Print, op: u64, told: Told, p: u64, q: u64) -> io::Result<()> {
    write_front(rt, [op, told.number, told.value, p, q, 0, 0, 0])
}
