// Document 01's DC stage: the blocker, over one sample and over a slice, and its undo. Each float
// operation is the paper's, in its order; the root alone is left out where it decides nothing.
#![tactic(auto)]

ghost use Rattle.std.specs.Prelude.{◌≡◌, ◌+◌, ◌^◌, ◌<◌, not, ◌&&◌, length, ◌==◌};
ghost use Rattle.std.specs.Float.{binary64};
ghost use Rattle.std.specs.Float.Ieee.{le};
ghost use Rattle.complex.specs.Complex.{power};
ghost use Rattle.complex.specs.View.{view64};
ghost use Rattle.rules.specs.Constants.{one, rate_limit};
ghost use Rattle.rules.specs.Dc.{corner, weight, is_zero, clamps, first_level, restored_all};
ghost use Rattle.rules.specs.Iq.{ranged};
ghost use Rattle.dc.specs.Blocker.{level_of, blocker_of, pushed, push_of, moved_by, processed, taken_of, restored, restored_word, blocker_after, clamped_in, processed_all};
ghost use Rattle.refusal.specs.Words.{returned_by};
ghost use Rattle.dc.specs.Undo.{undo_returned, undo_words};

use complex::Complex64;
use refusal::Refusal;

const TAU: f64 = 6.283185307179586;

// The level `dc` with its `n` updates, and the weight `a` that the corner gives. Room for one more update is asked by
// the functions that need it: as an invariant it would be asked of all who make a blocker.
#[derive(Clone, Copy)]
pub struct DcBlocker {
    pub a: f64,
    pub n: u64,
    pub dc: Complex64,
}

// What the level is moved by, and whether that was clamped.
#[derive(Clone, Copy)]
struct Push {
    by: Complex64,
    clamped: bool,
}

// A sample taken: the word to write, and whether the update was clamped.
#[derive(Clone, Copy)]
pub struct Taken {
    pub word: u64,
    pub clamped: bool,
}

// y times 1/norm(y), where norm(y) > 1. The norm of a power up to 1 is not above 1.
// This, `advance` and `step` are laid into the loops over samples, where the level then stays in registers.
#[inline(always)]
fn clamp(y: Complex64) -> Push
    ensures { result ≡ push_of (view64 y) }
{
    let p = y.norm_sqr();
    if p <= 1.0 {
        return Push {
            by: y,
            clamped: false,
        };
    }
    let m = ieee::root(p);
    if 1.0 < m {
        return Push {
            by: y.scale(1.0 / m),
            clamped: true,
        };
    }
    Push {
        by: y,
        clamped: false,
    }
}

impl DcBlocker {
    // The corner, in Hz.
    pub const CORNER: f64 = 5.0;

    pub fn fresh(fs: f64) -> DcBlocker
        ensures { result ≡ blocker_of (corner fs) first_level }
    {
        DcBlocker {
            a: TAU * DcBlocker::CORNER / fs,
            n: 0,
            dc: Complex64 { re: 0.0, im: 0.0 },
        }
    }

    // max(a, 1/(n+1)).
    fn weight(&self) -> f64
        requires { self.now.n + 1 < 2 ^ 64 }
        ensures { result ≡ weight self.now.a self.now.n }
    {
        let share = 1.0 / std::num::nearest_u64_to_f64(self.n + 1);
        if self.a < share { share } else { self.a }
    }

    // Whether y moves nothing: no update has happened, and both its parts are zero.
    fn rests(&self, y: Complex64) -> bool
        ensures { result ≡ (self.now.n == 0 && is_zero (view64 y)) }
    {
        self.n == 0 && y.re == 0.0 && y.im == 0.0
    }

    // Moves the level by y as it is.
    fn push(&mut self, y: Complex64)
        requires { self.old.n + 1 < 2 ^ 64 }
        ensures { self.new ≡ blocker_of self.old.a (pushed self.old.a (level_of self.old) (view64 y)) }
    {
        self.dc = self.dc + y.scale(self.weight());
        self.n += 1;
    }

    // Moves the level by y, which is a sample less the level: whether y was clamped.
    #[inline(always)]
    fn advance(&mut self, y: Complex64) -> bool
        requires { self.old.n + 1 < 2 ^ 64 }
        ensures after { self.new ≡ moved_by self.old (view64 y) }
        ensures clamped { result ≡ clamps (view64 y) }
    {
        let push = clamp(y);
        // Where nothing moves, y is zero and was not clamped.
        if !self.rests(y) {
            self.push(push.by);
        }
        push.clamped
    }

    // Whether y moves the level as it is: then `push` is the short way to `advance`.
    fn is_plain(&self, y: Complex64) -> bool
        ensures { result ≡ (not (self.now.n == 0) && le (power binary64 (view64 y)) one) }
    {
        0 < self.n && y.norm_sqr() <= 1.0
    }

    // `advance`, by the short way where it serves, which makes most samples faster.
    #[inline(always)]
    fn step(&mut self, y: Complex64) -> bool
        requires { self.old.n + 1 < 2 ^ 64 }
        ensures after { self.new ≡ moved_by self.old (view64 y) }
        ensures clamped { result ≡ clamps (view64 y) }
    {
        if self.is_plain(y) {
            self.push(y);
            return false;
        }
        self.advance(y)
    }

    // The sample of the word x less the level.
    pub fn process_sample(&mut self, x: u64) -> Taken
        requires { self.old.n + 1 < 2 ^ 64 }
        ensures after { self.new ≡ processed self.old x }
        ensures answer { result ≡ taken_of self.old x }
    {
        let y = (Complex64::unpack(x) - self.dc).rounded();
        Taken {
            word: y.word,
            clamped: self.step(y.value),
        }
    }

    // The same, of which nothing is written: whether the update was clamped.
    fn observe_sample(&mut self, x: u64) -> bool
        requires { self.old.n + 1 < 2 ^ 64 }
        ensures after { self.new ≡ processed self.old x }
        ensures clamped { result ≡ (taken_of self.old x).clamped }
    {
        let y = (Complex64::unpack(x) - self.dc).rounded();
        self.step(y.value)
    }

    // Undo of one sample: the word of y and the level.
    fn restore_sample(&mut self, y: u64) -> u64
        requires { self.old.n + 1 < 2 ^ 64 }
        ensures after { self.new ≡ restored self.old y }
        ensures word { result ≡ restored_word self.old y }
    {
        let z = Complex64::unpack(y);
        let x = (z + self.dc).rounded();
        self.step(z);
        x.word
    }

    // Applying: each sample less the level, in place; on how many the update was clamped.
    pub fn process(&mut self, samples: &mut [u64]) -> u64
        requires { self.old.n + length samples.old < 2 ^ 64 }
        ensures after { self.new ≡ blocker_after self.old samples.old }
        ensures counted { result ≡ clamped_in self.old samples.old }
        ensures written { samples.new ≡ processed_all self.old samples.old }
    {
        let mut blocker = *self;
        let mut clamped: u64 = 0;
        for w in samples.iter_mut() {
            let taken = blocker.process_sample(*w);
            clamped += taken.clamped as u64;
            *w = taken.word;
        }
        *self = blocker;
        clamped
    }

    // Observing: the same level and count, and the samples as they are.
    pub fn observe(&mut self, samples: &[u64]) -> u64
        requires { self.old.n + length samples.now < 2 ^ 64 }
        ensures after { self.new ≡ blocker_after self.old samples.now }
        ensures counted { result ≡ clamped_in self.old samples.now }
    {
        let mut blocker = *self;
        let mut clamped: u64 = 0;
        for w in samples {
            clamped += blocker.observe_sample(*w) as u64;
        }
        *self = blocker;
        clamped
    }
}

// Whether a rate is one that the conditioner takes.
pub fn rate_fits(fs: f64) -> bool
    ensures { result ≡ ranged one rate_limit fs }
{
    1.0 <= fs && fs <= 1.0e7
}

// Undo of all samples of y into out.
fn restore(y: &[u64], fs: f64, out: &mut [u64])
    requires { length out.old ≡ length y.now }
    ensures { out.new ≡ restored_all (corner fs) first_level y.now }
{
    let mut blocker = DcBlocker::fresh(fs);
    // by number: over `zip` with `iter_mut` a proof knows no element
    for (k, o) in out.iter_mut().enumerate() {
        *o = blocker.restore_sample(y[k]);
    }
}

// The samples y of an applying stage that started fresh at the rate fs, as they were before it: all of
// out is written, or it is refused and nothing is.
pub fn revert_dc(y: &[u64], fs: f64, out: &mut [u64]) -> Result<(), Refusal>
    ensures answer { returned_by result ≡ undo_returned fs out.old y.now }
    ensures written { out.new ≡ undo_words fs out.old y.now }
{
    if !rate_fits(fs) {
        return Err(Refusal::BadRate);
    }
    if out.len() != y.len() {
        return Err(Refusal::BadLength);
    }
    amplitude_limit::check(y)?;
    restore(y, fs, out);
    Ok(())
}
