// Number 5's tests of the impulse stage's arrays: the powers of the window, the pending samples, and
// that the sorted list is the window sorted.
#![tactic(auto)]

ghost use Rattle.std.specs.Prelude.{◌≡◌, true, ◌≤◌, min, eqb, length, get_or};
ghost use Rattle.std.specs.Float.{binary64};
ghost use Rattle.std.specs.Float.Ieee.{lt, eq, to_bits};
ghost use Rattle.rules.specs.Constants.{zero_f};
ghost use Rattle.rules.specs.Sort.{sort};
ghost use Rattle.rules.specs.Lists.{All};
ghost use Rattle.rules.specs.Impulse.{window_size, lookahead_size};
ghost use Rattle.stage_log.specs.Check.{all_to};
ghost use Rattle.impulse_window.specs.Rising.{climbs, Held};
ghost use Rattle.impulse_arrays.specs.Occurs.{occurs};
ghost use Rattle.impulse_arrays.specs.Fits.{power_fits, powers_fit, samples_fit, arrays_fit, sorted_fits};

use impulse::ImpulseSuppressor;

// How many of the newest samples a number of places holds, of so many that came.
pub fn holds(places: usize, came: u64) -> usize
    ensures { result ≡ min places came }
{
    came.min(places as u64) as usize
}

// ---- the powers and the pending samples

fn power_fits(p: f32) -> bool
    ensures { result ≡ power_fits p }
{
    if 0x8000_0000 <= ieee::to_bits32(p) {
        return false;
    }
    ieee::widen(p) <= 1.0e36
}

// Whether all of these powers fit, with no branch between them.
fn all_fit(powers: &[f32]) -> bool
    ensures { result ≡ powers_fit (length powers.now) powers.now }
{
    let mut fit = true;
    for p in powers {
        fit = fit & power_fits(*p);
    }
    fit
}

// Whether the first n powers fit: nearly always all of them fit, and a loop of a fixed length is the faster one.
fn powers_fit(window: &[f32; ImpulseSuppressor::WINDOW], n: usize) -> bool
    requires { n ≤ window_size }
    ensures { result ≡ powers_fit n window.now }
{
    if all_fit(window) {
        return true;
    }
    all_fit(&window[..n])
}

// Whether the first n samples are within the limit: the first that is not, among all of them, says so for
// any n.
fn samples_fit(pending: &[u64; ImpulseSuppressor::LOOKAHEAD], n: usize) -> bool
    requires { n ≤ lookahead_size }
    ensures { result ≡ samples_fit n pending.now }
{
    n <= amplitude_limit::first_beyond(pending)
}

// What the window and the pending samples hold, when so many samples have come.
pub fn arrays_fit(
    received: u64,
    window: &[f32; ImpulseSuppressor::WINDOW],
    pending: &[u64; ImpulseSuppressor::LOOKAHEAD],
) -> bool
    ensures { result ≡ arrays_fit received window.now pending.now }
{
    if !powers_fit(window, holds(ImpulseSuppressor::WINDOW, received)) {
        return false;
    }
    samples_fit(pending, holds(ImpulseSuppressor::LOOKAHEAD, received))
}

// ---- the sorted list

// The powers, widened.
fn copy_powers(powers: &[f32], wide: &mut [f64])
    requires { length wide.old ≡ length powers.now }
    ensures { wide.new ≡ powers.now }
{
    // by number, here and below: over `zip` with `iter_mut` a proof knows no element
    for (k, w) in wide.iter_mut().enumerate() {
        *w = ieee::widen(powers[k]);
    }
}

// Whether the powers are those, bit by bit.
fn same_powers(sorted: &[f32], wide: &[f64]) -> bool
    requires { length wide.now ≡ length sorted.now }
    ensures { result ≡ all_to (λ k. eqb (to_bits binary64 (get_or sorted.now k zero_f)) (to_bits binary64 (get_or wide.now k zero_f))) (length sorted.now) }
{
    for (k, p) in sorted.iter().enumerate() {
        let given = ieee::to_bits64(ieee::widen(*p));
        if given != ieee::to_bits64(wide[k]) {
            return false;
        }
    }
    true
}

// By sorting the window.
fn sorts_to(
    n: usize,
    window: &[f32; ImpulseSuppressor::WINDOW],
    sorted: &[f32; ImpulseSuppressor::WINDOW],
) -> bool
    requires { n ≤ window_size }
    ensures { result ≡ sorted_fits n window.now sorted.now }
{
    let mut wide = [0.0f64; ImpulseSuppressor::WINDOW];
    let powers = &mut wide[..n];
    copy_powers(&window[..n], powers);
    iq_median::sort_words(powers);
    same_powers(&sorted[..n], powers)
}

// ---- a full window, without sorting it

// Functions, since only a number that is passed by value is known to be a value of its type.
fn below(a: f32, b: f32) -> bool
    ensures result { result ≡ lt a b }
    ensures values { Held a × Held b }
{
    a < b
}

fn equal(a: f32, b: f32) -> bool
    ensures result { result ≡ eq a b }
    ensures values { Held a × Held b }
{
    a == b
}

// Whether the powers are above 0, and each above the one before. There is no branch in the loop, here and
// below. `impulse_window::ascends` has the other comparison: one function over both would have to say what
// its closure computes and of which values, in more lines than the loop has.
fn strictly_ascends(sorted: &[f32; ImpulseSuppressor::WINDOW]) -> bool
    ensures result { result ≡ climbs lt zero_f sorted.now }
    ensures values { All Held sorted.now }
{
    let mut rising = below(0.0, sorted[0]);
    // by number, as `impulse_window::ascends`
    for k in 0..ImpulseSuppressor::WINDOW - 1 {
        rising = rising & below(sorted[k], sorted[k + 1]);
    }
    rising
}

fn occurs(window: &[f32; ImpulseSuppressor::WINDOW], x: f32) -> bool
    ensures result { result ≡ occurs x window.now }
    ensures values { All Held window.now }
{
    let mut found = false;
    for y in window {
        found = found | equal(x, *y);
    }
    found
}

// Whether each power of the sorted list occurs in the window.
fn all_occur(
    window: &[f32; ImpulseSuppressor::WINDOW],
    sorted: &[f32; ImpulseSuppressor::WINDOW],
) -> bool
    ensures result { result ≡ all_to (λ k. occurs (get_or sorted.now k zero_f) window.now) window_size }
    ensures values { All Held window.now }
{
    let mut all = true;
    for x in sorted {
        all = all & occurs(window, *x);
    }
    all
}

// Whether it is known without sorting that the sorted list is the window sorted: as many different
// powers, in order, each of which occurs there.
fn is_arranged(
    window: &[f32; ImpulseSuppressor::WINDOW],
    sorted: &[f32; ImpulseSuppressor::WINDOW],
) -> bool
    ensures { result ≡ true → sort lt window.now ≡ sorted.now }
{
    if !strictly_ascends(sorted) {
        return false;
    }
    all_occur(window, sorted)
}

// Whether the first n powers of the sorted list are those of the window, sorted.
pub fn sorted_fits(
    n: usize,
    window: &[f32; ImpulseSuppressor::WINDOW],
    sorted: &[f32; ImpulseSuppressor::WINDOW],
) -> bool
    requires { n ≤ window_size }
    ensures { result ≡ sorted_fits n window.now sorted.now }
{
    if n != ImpulseSuppressor::WINDOW {
        return sorts_to(n, window, sorted);
    }
    if is_arranged(window, sorted) {
        return true;
    }
    sorts_to(n, window, sorted)
}
