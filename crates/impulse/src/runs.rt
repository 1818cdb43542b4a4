// A run in the circular array of pending samples: its originals, and its samples mended. A run goes as its first
// sample and its length, as a repair holds them.

ghost use Rattle.std.specs.Prelude.{◌≡◌, ◌+◌, ◌%◌, ◌^◌, ◌≤◌, ◌<◌, get_or, set};
ghost use Rattle.complex.specs.View.{view32, make32};
ghost use Rattle.rules.specs.Impulse.{lookahead_size, longest_run, between};
ghost use Rattle.impulse.specs.Machine.{read_run, mended_word, write_run};
ghost use Rattle.impulse.specs.View.{repair_of};

use crate::ImpulseSuppressor;
use complex::Complex32;
use stage_log::Repair;

// Where sample k stands.
pub fn place(k: u64) -> usize
    ensures { result ≡ k % lookahead_size }
{
    (k % ImpulseSuppressor::LOOKAHEAD as u64) as usize
}

// Sample i takes its place, and the one that stood there is answered.
pub fn hold(pending: &mut [u64; ImpulseSuppressor::LOOKAHEAD], i: u64, x: u64) -> u64
    ensures result { result ≡ get_or pending.old (i % lookahead_size) 0 }
    ensures words { pending.new ≡ set pending.old (i % lookahead_size) x }
{
    std::mem::replace(&mut pending[place(i)], x)
}

// Original t of the run of n that starts at `start`, and 0 past its end.
fn original(pending: &[u64; ImpulseSuppressor::LOOKAHEAD], start: u64, n: u64, t: u64) -> u64
    requires { start + n ≤ 2 ^ 52 }
    ensures { result ≡ get_or (read_run lookahead_size pending.now start n) t 0 }
{
    if t < n {
        return pending[place(start + t)];
    }
    0
}

pub fn repair(pending: &[u64; ImpulseSuppressor::LOOKAHEAD], start: u64, n: u64) -> Repair
    requires { start + n ≤ 2 ^ 52 }
    ensures { result ≡ repair_of start n (read_run lookahead_size pending.now start n) }
{
    Repair {
        start,
        len: n,
        first: original(pending, start, n, 0),
        second: original(pending, start, n, 1),
        third: original(pending, start, n, 2),
        fourth: original(pending, start, n, 3),
    }
}

// Sample t of a run of n, on the line between its neighbours.
fn between(left: Complex32, right: Complex32, t: u64, n: u64) -> Complex32
    requires { (t < n) × (n ≤ longest_run) }
    ensures { result ≡ make32 (between (view32 left) (view32 right) t n) }
{
    let fraction = ((t + 1) as f32) / ((n + 1) as f32);
    left + (right - left).scale(fraction)
}

fn mended_word(left: u64, right: u64, t: u64, n: u64) -> u64
    requires { (t < n) × (n ≤ longest_run) }
    ensures { result ≡ mended_word left right t n }
{
    let l = Complex32::unpack(left);
    let r = Complex32::unpack(right);
    between(l, r, t, n).pack()
}

pub fn mend(
    pending: &mut [u64; ImpulseSuppressor::LOOKAHEAD],
    left: u64,
    right: u64,
    start: u64,
    n: u64,
)
    requires { (n ≤ longest_run) × (start + n ≤ 2 ^ 52) }
    ensures { pending.new ≡ write_run lookahead_size pending.old left right start n n }
{
    // by number: a run goes round the array
    for t in 0..n {
        pending[place(start + t)] = mended_word(left, right, t, n);
    }
}
