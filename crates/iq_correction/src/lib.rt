// Document 01's IQ correction and its undo, over slices. Each float operation is the paper's, in its order.
#![tactic(auto)]

ghost use Rattle.std.specs.Prelude.{◌≡◌, ◌*◌, ◌%◌, ◌^◌, ◌<◌, true, ◌&&◌, map, length, from_bits};
ghost use Rattle.std.specs.Float.{binary32};
ghost use Rattle.std.specs.Float.Ieee.{neg};
ghost use Rattle.complex.specs.View.{view64};
ghost use Rattle.rules.specs.Constants.{two};
ghost use Rattle.rules.specs.Lists.{all_of};
ghost use Rattle.rules.specs.Iq.{ranged, corrected, corrected_by, uncorrected};
ghost use Rattle.amplitude_limit.specs.Limit.{under};
ghost use Rattle.iq.specs.View.{settled_of};
ghost use Rattle.iq_correction.specs.Groups.{Small, FiniteWord, rebased, part_bits, Clear, Mapping};
ghost use Rattle.refusal.specs.Words.{returned_by};
ghost use Rattle.iq_correction.specs.Undo.{divisor_of, uncorrected_by, undo_returned, undo_words};

use complex::Complex64;
use iq::Iq;
use refusal::Refusal;

// The pattern of the greatest finite f32.
const MAX_FINITE: u64 = 0x7f7f_ffff;

// The sample m of a word, as m − rho·conj(m).
pub fn correct(rho: Complex64, w: u64) -> u64
    ensures { result ≡ corrected (view64 rho) w }
{
    let m = Complex64::unpack(w);
    let y = (m - rho * m.conj()).rounded();
    y.word
}

// 1 − power of rho.
fn divisor(rho: Complex64) -> f64
    ensures { result ≡ divisor_of (view64 rho) }
{
    1.0 - rho.norm_sqr()
}

// The sample y of a word, as (y + rho·conj(y))/divisor, whatever the divisor is.
fn uncorrect(rho: Complex64, divisor: f64, w: u64) -> u64
    ensures { result ≡ uncorrected_by (view64 rho) divisor w }
{
    let y = Complex64::unpack(w);
    let m = (y + rho * y.conj()).unscale(divisor).rounded();
    m.word
}

// Each sample corrected, one after the other.
fn correct_each(rho: Complex64, samples: &mut [u64])
    ensures { samples.new ≡ map (corrected (view64 rho)) samples.old }
{
    for w in samples.iter_mut() {
        *w = correct(rho, *w);
    }
}

// A coefficient within 2 gives a number of every finite sample. It is tested once for a slice; a type for it would be
// made there and read in one place.
fn is_small(rho: Complex64) -> bool
    ensures { result ≡ (ranged (neg two) two rho.re && ranged (neg two) two rho.im) }
{
    iq::in_range(-2.0, 2.0, rho.re) && iq::in_range(-2.0, 2.0, rho.im)
}

// The value of the bits of a finite f32, as an f64.
fn finite_part(n: u32) -> f64
    requires { n % 2 ^ 31 < 255 * 2 ^ 23 }
    ensures { result ≡ from_bits binary32 n }
{
    f32::from_bits(n) as f64
}

// The bits of an f64 rounded to the digits of an f32, with 960 taken from the exponent: the four bits
// behind the sign are clear exactly if that is from 0 to 127. Then the f32 has all its digits.
fn rebased(b: u64) -> u64
    ensures { result ≡ rebased b }
{
    std::num::wrapping_add_u64(b, 0xc400_0000_0fff_ffff + b / 0x2000_0000 % 2)
}

// The f32's bits, but for 64 in the exponent.
fn part_bits(b: u64, rebased: u64) -> u64
    ensures { result ≡ part_bits b rebased }
{
    rebased / 0x2000_0000 % 0x4000_0000 + b / 0x8000_0000_0000_0000 * 0x8000_0000
}

// A correction that is right if its mark is clear in the four bits behind the first.
#[derive(Drop)]
struct Tried {
    word: u64,
    mark: u64,
}

fn try_sample(rho: Complex64, w: u64) -> Tried
    requires small { Small (view64 rho) }
    requires finite { FiniteWord w }
    ensures { Clear result.mark → result.word ≡ corrected (view64 rho) w }
{
    let m = Complex64 {
        re: finite_part((w % 0x1_0000_0000) as u32),
        im: finite_part((w / 0x1_0000_0000) as u32),
    };
    let y = m - rho * m.conj();
    let re = f64::to_bits(y.re);
    let im = f64::to_bits(y.im);
    let a = rebased(re);
    let b = rebased(im);
    Tried {
        word: part_bits(re, a) + part_bits(im, b) * 0x1_0000_0000 + 0x2000_0000_2000_0000,
        mark: a | b,
    }
}

// A group's corrections with no branch between them, and whether all are right. Tried with a `zip` over
// `iter_mut`: the invariant names the words that came, but not those written, and after the loop only the
// length of `out` is known.
fn try_group(rho: Complex64, part: &[u64], out: &mut [u64; 16]) -> bool
    requires small { Small (view64 rho) }
    requires whole { length part.now ≡ 16 }
    requires finite { all_of (under 0x7f7f_ffff) part.now ≡ true }
    ensures { result ≡ true → out.new ≡ map (corrected (view64 rho)) part.now }
{
    let mut mark: u64 = 0;
    for (j, o) in out.iter_mut().enumerate() {
        let t = try_sample(rho, part[j]);
        *o = t.word;
        mark |= t.mark;
    }
    mark % 0x8000_0000_0000_0000 < 0x800_0000_0000_0000
}

// By a loop: `copy_from_slice` makes the whole stage a seventh slower.
fn copy_group(part: &mut [u64], from: &[u64; 16])
    requires { length part.old ≡ 16 }
    ensures { part.new ≡ from.now }
{
    for (j, w) in part.iter_mut().enumerate() {
        *w = from[j];
    }
}

// A group's samples corrected, at once if that is right.
fn correct_group(rho: Complex64, part: &mut [u64])
    requires small { Small (view64 rho) }
    requires whole { length part.old ≡ 16 }
    ensures { part.new ≡ map (corrected (view64 rho)) part.old }
{
    if amplitude_limit::all_under(part, MAX_FINITE) {
        let mut out = [0u64; 16];
        if try_group(rho, part, &mut out) {
            copy_group(part, &out);
            return;
        }
    }
    correct_each(rho, part);
}

// The samples corrected in groups of 16, as far as there are 16: how many are. Tried with
// `chunks_exact_mut`: the invariant names the groups that came, but not what was written to them, and after
// the loop only the length of `samples` is known.
fn correct_groups(rho: Complex64, samples: &mut [u64]) -> usize
    requires { Small (view64 rho) }
    ensures { Mapping (corrected (view64 rho)) samples.old samples.new result }
{
    let groups = samples.len() / 16;
    for g in 0..groups {
        correct_group(rho, &mut samples[16 * g..16 * g + 16]);
    }
    16 * groups
}

// Each sample corrected, in place.
fn correct_all(rho: Complex64, samples: &mut [u64])
    ensures { samples.new ≡ map (corrected (view64 rho)) samples.old }
{
    if !is_small(rho) {
        correct_each(rho, samples);
        return;
    }
    let k = correct_groups(rho, samples);
    correct_each(rho, &mut samples[k..]);
}

// Each correction undone by this divisor, one after the other. It and `correct_each` are one line
// each: one of them with a closure would be no shorter.
fn uncorrect_each(rho: Complex64, divisor: f64, samples: &mut [u64])
    ensures { samples.new ≡ map (uncorrected_by (view64 rho) divisor) samples.old }
{
    for w in samples.iter_mut() {
        *w = uncorrect(rho, divisor, *w);
    }
}

// Each correction undone, in place. The divisor is worked out once, before the samples.
fn uncorrect_all(rho: Complex64, samples: &mut [u64])
    ensures { samples.new ≡ map (uncorrected (view64 rho)) samples.old }
{
    uncorrect_each(rho, divisor(rho), samples);
}

// The stage over a slice, as it was settled.
pub fn process(iq: Iq, samples: &mut [u64])
    ensures { samples.new ≡ map (corrected_by (settled_of iq)) samples.old }
{
    if let Iq::Correcting(rho) = iq {
        correct_all(rho, samples);
    }
}

// The samples of a stage that corrected with rho, as they were before it, in place: all are written, or
// it is refused and none is.
pub fn revert_iq(samples: &mut [u64], rho: Complex64) -> Result<(), Refusal>
    ensures answer { returned_by result ≡ undo_returned (view64 rho) samples.old }
    ensures written { samples.new ≡ undo_words (view64 rho) samples.old }
{
    if !iq::accepted(rho) {
        return Err(Refusal::BadCoefficient);
    }
    amplitude_limit::check(samples)?;
    uncorrect_all(rho, samples);
    Ok(())
}
