// Document 01's limit on the parts of a hop's channels and of samples that are undone, 1e18: the
// cause of number 7 there. And a limit on the parts' patterns, for many samples at once.
#![tactic(auto)]

ghost use Rattle.std.specs.Prelude.{◌≡◌, ◌^◌, ◌<◌};
ghost use Rattle.rules.specs.Refusals.{within_limit, first_beyond_from};
ghost use Rattle.rules.specs.Lists.{all_of};
ghost use Rattle.amplitude_limit.specs.Limit.{limited, under, halves_clear, checked};

use complex::Complex32;
use refusal::Refusal;

// The pattern of the greatest f32 within 1e18.
const MAX_PATTERN: u64 = 0x5d5e_0b6b;

// The largest size of a part.
const LIMIT: f64 = 1.0e18;

// Whether x is within it. A NaN isn't.
pub fn is_limited(x: f64) -> bool
    ensures { result ≡ limited x }
{
    -LIMIT <= x && x <= LIMIT
}

fn part_within(x: f32) -> bool
    ensures { result ≡ limited x }
{
    is_limited(ieee::widen(x))
}

// Whether both parts of a sample are.
pub fn within(w: u64) -> bool
    ensures { result ≡ within_limit w }
{
    let z = Complex32::unpack(w);
    part_within(z.re) && part_within(z.im)
}

// The first place of a sample that is not within the limit, and the number of samples if all are.
fn scan(samples: &[u64]) -> usize
    ensures { result ≡ first_beyond_from 0 samples.now }
{
    samples
        .iter()
        .position(|w| !within(*w))
        .unwrap_or(samples.len())
}

// A half's highest bit is set if its part's pattern, the sign aside, is above the limit.
fn raised(w: u64, limit: u64) -> u64
    requires { limit < 2 ^ 31 }
    ensures { halves_clear result ≡ under limit w }
{
    (w & 0x7fff_ffff_7fff_ffff) + (0x7fff_ffff - limit) * 0x1_0000_0001
}

fn halves_clear(n: u64) -> bool
    ensures { result ≡ halves_clear n }
{
    n % 0x1_0000_0000 < 0x8000_0000 && n < 0x8000_0000_0000_0000
}

// Whether the patterns of both parts of all samples, the signs aside, are up to a limit: with no
// branch between the samples.
pub fn all_under(samples: &[u64], limit: u64) -> bool
    requires { limit < 2 ^ 31 }
    ensures { result ≡ all_of (under limit) samples.now }
{
    let mut bits: u64 = 0;
    for w in samples {
        bits |= raised(*w, limit);
    }
    halves_clear(bits)
}

// The same place as `scan`: nearly always there is none, which the bits tell at once.
pub fn first_beyond(samples: &[u64]) -> usize
    ensures { result ≡ first_beyond_from 0 samples.now }
{
    if all_under(samples, MAX_PATTERN) {
        return samples.len();
    }
    scan(samples)
}

// Refused at the first sample that is not within the limit.
pub fn check(samples: &[u64]) -> Result<(), Refusal>
    ensures { result ≡ checked samples.now }
{
    let place = first_beyond(samples);
    if place < samples.len() {
        return Err(Refusal::OutOfRange(place));
    }
    Ok(())
}
