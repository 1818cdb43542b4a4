// The window's powers in ascending order, in a lent array with one gap, and their trimmed mean.
#![tactic(auto)]

ghost use Rattle.std.specs.Prelude.{ℕ, ◌≡◌, true, false, ◌+◌, ◌-◌, ◌%◌, ◌≤◌, ◌<◌, length, get_or, set, take, drop};
ghost use mathlib.Core.List.{◌++◌, foldl};
ghost use Rattle.std.specs.Float.{binary64, nan};
ghost use Rattle.std.specs.Float.Ieee.{lt, le, add, mul, div};
ghost use Rattle.rules.specs.Constants.{zero_f, impulse_ratio};
ghost use Rattle.rules.specs.Sort.{insert, remove};
ghost use Rattle.rules.specs.Lists.{All};
ghost use Rattle.rules.specs.Impulse.{window_size, power_of, stands_out};
ghost use Rattle.impulse_window.specs.Ordered.{ordered, mean};
ghost use Rattle.impulse_window.specs.Ordering.{rank, without, put_in};
ghost use Rattle.impulse_window.specs.Rising.{climbs, Held, Rising, least, most, moved, blended, thirty_two};

use complex::Complex32;

// The reference window.
pub const WINDOW: usize = 33;

// Its last place, and the one before.
const LAST: usize = WINDOW - 1;

const LAST_BUT_ONE: usize = WINDOW - 2;

// How far above the reference the power of an impulse is.
const IMPULSE_RATIO: f64 = 144.0;

// Place k of the array with the gap left out.
fn beside(sorted: &[f32; WINDOW], gap: usize, k: usize) -> f32
    requires { (gap < window_size) × (k < window_size - 1) }
    ensures { result ≡ get_or (without sorted.now gap) k nan }
{
    if k < gap { sorted[k] } else { sorted[k + 1] }
}

// Where p goes among the first n powers, the gap left out: before the first that is not below it. The places
// are counted, because an array with a gap is no slice.
fn rank(sorted: &[f32; WINDOW], n: usize, gap: usize, p: f32) -> usize
    requires { (n < window_size) × (gap < window_size) }
    ensures { result ≡ rank lt p (take n (without sorted.now gap)) }
{
    for k in 0..n {
        if !(beside(sorted, gap, k) < p) {
            return k;
        }
    }
    n
}

// The gap closed, and p put in at place `at` of the powers that are left.
fn put(sorted: &mut [f32; WINDOW], gap: usize, at: usize, p: f32)
    requires { (gap < window_size) × (at < window_size) }
    ensures { sorted.new ≡ put_in (without sorted.old gap) at p }
{
    if at < gap {
        sorted.copy_within(at..gap, at + 1);
    } else {
        sorted.copy_within(gap + 1..at + 1, gap);
    }
    sorted[at] = p;
}

// The i-th power, p, goes in: the window is not full yet.
fn grow(sorted: &mut [f32; WINDOW], i: u64, p: f32)
    requires { i < window_size }
    ensures { sorted.new ≡ insert lt p (take i sorted.old) ++ drop (i + 1) sorted.old }
{
    let n = i as usize;
    let at = rank(sorted, n, n, p);
    put(sorted, n, at, p);
}

// The old power goes out and p goes in, whatever the order of the others.
fn exchange(sorted: &mut [f32; WINDOW], old: f32, p: f32)
    ensures { sorted.new ≡ insert lt p (take (window_size - 1) (remove lt old sorted.old)) }
{
    let gap = rank(sorted, LAST, LAST, old);
    let at = rank(sorted, LAST, gap, p);
    put(sorted, gap, at, p);
}

// ---- the same by minima and maxima, where the powers ascend from 0 on

// A function, since only a number that is passed by value is known to be a value of its type.
fn at_most(a: f32, b: f32) -> bool
    ensures result { result ≡ le a b }
    ensures values { Held a × Held b }
{
    a <= b
}

// Whether they do. None is a NaN then. There is no branch in the loop, here and in `blended`. The neighbours are
// read by number: `windows(2)` would hand on a slice for each, whose length is one more fact.
fn ascends(sorted: &[f32; WINDOW]) -> bool
    ensures result { result ≡ climbs le zero_f sorted.now }
    ensures values { All Held sorted.now }
{
    let mut rising = at_most(0.0, sorted[0]);
    for k in 0..LAST {
        rising = rising & at_most(sorted[k], sorted[k + 1]);
    }
    rising
}

fn least(a: f32, b: f32) -> f32
    ensures { result ≡ least a b }
{
    if a < b { a } else { b }
}

fn most(a: f32, b: f32) -> f32
    ensures { result ≡ most a b }
{
    if a < b { b } else { a }
}

// With the old power gone, b comes in the place of an a that is not below it.
fn moved(old: f32, a: f32, b: f32) -> f32
    ensures { result ≡ moved old a b }
{
    if a < old { a } else { b }
}

// Each power but the last as it is moved.
fn all_moved(sorted: &[f32; WINDOW], old: f32) -> [f32; LAST]
    ensures { (k : ℕ) → k < window_size - 1 → get_or result k nan ≡ moved old (get_or sorted.now k nan) (get_or sorted.now (k + 1) nan) }
{
    let mut out = [0.0f32; LAST];
    for k in 0..LAST {
        out[k] = moved(old, sorted[k], sorted[k + 1]);
    }
    out
}

// The powers without the old one and with p. Two loops in place of one let several powers be worked out at once.
fn blended(sorted: &[f32; WINDOW], old: f32, p: f32) -> [f32; WINDOW]
    ensures { result ≡ blended old p sorted.now }
{
    let left = all_moved(sorted, old);
    let mut out = [0.0f32; WINDOW];
    out[0] = least(left[0], p);
    for k in 0..LAST_BUT_ONE {
        out[k + 1] = least(left[k + 1], most(left[k], p));
    }
    out[LAST] = most(left[LAST_BUT_ONE], p);
    out
}

// The old power goes out and p goes in.
fn replace(sorted: &mut [f32; WINDOW], old: f32, p: f32)
    requires { Rising 0 sorted.old }
    ensures result { sorted.new ≡ insert lt p (take (window_size - 1) (remove lt old sorted.old)) }
    ensures rising { le zero_f p ≡ true → Rising 0 sorted.new }
{
    *sorted = blended(sorted, old, p);
}

// ---- the window

// The i-th power, p, goes in, and once the window is full the oldest goes out. The answer is true only
// if the powers ascend from 0 on.
fn order(sorted: &mut [f32; WINDOW], i: u64, old: f32, p: f32) -> bool
    ensures result { sorted.new ≡ ordered window_size i old p sorted.old }
    ensures rising { result ≡ true → Rising 0 sorted.new }
{
    if i < WINDOW as u64 {
        grow(sorted, i, p);
        return false;
    }
    if ascends(sorted) {
        replace(sorted, old, p);
        return at_most(0.0, p);
    }
    exchange(sorted, old, p);
    false
}

// Sample i comes: its power takes its place in the window and goes among the ordered ones. The answer
// is true only if these ascend from 0 on.
pub fn take_in(window: &mut [f32; WINDOW], sorted: &mut [f32; WINDOW], i: u64, x: u64) -> bool
    ensures powers { window.new ≡ set window.old (i % window_size) (power_of x) }
    ensures ascending { sorted.new ≡ ordered window_size i (get_or window.old (i % window_size) nan) (power_of x) sorted.old }
    ensures rising { result ≡ true → Rising 0 sorted.new }
{
    let p = Complex32::unpack(x).norm_sqr();
    let slot = (i % WINDOW as u64) as usize;
    let rising = order(sorted, i, window[slot], p);
    window[slot] = p;
    rising
}

// ---- the flag

// The sum of the powers, in their order.
fn sum(powers: &[f32]) -> f64
    ensures { result ≡ foldl (add binary64) zero_f powers.now }
{
    let mut s = 0.0;
    for p in powers {
        s = s + ieee::widen(*p);
    }
    s
}

// Their mean. So few can be counted by an f64.
fn reference(powers: &[f32]) -> f64
    requires { length powers.now ≤ window_size }
    ensures { result ≡ mean powers.now }
{
    sum(powers) / (powers.len() as f64)
}

fn stands_out(r: f64, p: f32) -> bool
    ensures { result ≡ stands_out r p }
{
    r > 0.0 && ieee::widen(p) > IMPULSE_RATIO * r
}

// A power of at most 144 times a 32nd of the greatest kept one, x, is not above 144 times the mean.
fn is_near(x: f32, p: f32) -> bool
    ensures result { result ≡ le p (mul binary64 impulse_ratio (div binary64 (add binary64 zero_f x) thirty_two)) }
    ensures values { Held p }
{
    ieee::widen(p) <= IMPULSE_RATIO * ((0.0 + ieee::widen(x)) / 32.0)
}

// Whether it is known without the mean of the first k powers that a sample of power p is not flagged.
fn is_quiet(sorted: &[f32; WINDOW], k: usize, rising: bool, p: f32) -> bool
    requires kept { k < window_size }
    requires rising { rising ≡ true → Rising 0 sorted.now }
    ensures { result ≡ true → stands_out (mean (take k sorted.now)) p ≡ false }
{
    if !rising || k == 0 {
        return false;
    }
    is_near(sorted[k - 1], p)
}

// A sample of power p stands out from the mean of the first k powers. `rising`: it is known that the
// powers ascend from 0 on. The list comes whole, because that speaks of all of it.
pub fn is_flagged(sorted: &[f32; WINDOW], k: usize, p: f32, rising: bool) -> bool
    requires kept { k < window_size }
    requires rising { rising ≡ true → Rising 0 sorted.now }
    ensures { result ≡ stands_out (mean (take k sorted.now)) p }
{
    if is_quiet(sorted, k, rising, p) {
        return false;
    }
    let r = reference(&sorted[..k]);
    stands_out(r, p)
}
