// Document 01's IQ stage: the calibration with its coefficient, and what the chain settles. Each float
// operation is the paper's, in its order.
#![tactic(auto)]

ghost use Rattle.std.specs.Prelude.{◌≡◌, ◌<◌};
ghost use Rattle.complex.specs.View.{view64, make64};
ghost use Rattle.rules.specs.Constants.{one};
ghost use Rattle.rules.specs.Iq.{sine, cosine, ranged, finite_positive, turned, coefficient, accepted, centres_agree, correctable, settled};
ghost use Rattle.rules.specs.Mode.{apply};
ghost use Rattle.rules.specs.Refusals.{validation};
ghost use Rattle.refusal.specs.Words.{number_of};
ghost use Rattle.iq.specs.View.{calibration_of, calibrated_of, settled_of};
ghost use Rattle.iq.specs.Series.{series};
ghost use Rattle.stage_mode.specs.View.{mode_of};

use complex::Complex64;
use refusal::Refusal;
use stage_mode::StageMode;

const RADIANS_PER_DEGREE: f64 = 0.017453292519943295;

// A receiver's calibration: the gain of Q over that of I, the phase error of Q in degrees, and the
// centre in Hz at which it was measured.
#[derive(Clone, Copy)]
pub struct IqCalibration {
    pub gain: f64,
    pub phase: f64,
    pub centre: f64,
}

// What the chain settles.
#[derive(Clone, Copy)]
pub enum Iq {
    Off,
    Observing,
    Correcting(Complex64),
    Withheld,
}

fn finite_positive(x: f64) -> bool
    ensures { result ≡ finite_positive x }
{
    x.is_finite() && 0.0 < x
}

// Whether x is in the range from a to b, both ends in it.
pub fn in_range(a: f64, b: f64, x: f64) -> bool
    ensures { result ≡ ranged a b x }
{
    a <= x && x <= b
}

// 1 − (u·s)/((n−1)n) for n = 2k + odd, k = `steps` down to 1, from s = 1.
fn series(u: f64, steps: u64, odd: u64) -> f64
    requires steps_few { steps < 16 }
    requires odd_few { odd < 2 }
    ensures { result ≡ series odd u steps one }
{
    let mut s = 1.0;
    for k in (1..steps + 1).rev() {
        let n = 2 * k + odd;
        s = 1.0 - (u * s) / std::num::nearest_u64_to_f64((n - 1) * n);
    }
    s
}

#[tactic(auto, using(crate::proofs::laws::Series::is_sine), unfolding(rules::specs::Iq::sine))]
fn sine(t: f64) -> f64
    ensures { result ≡ sine t }
{
    t * series(t * t, 8, 1)
}

#[tactic(auto, using(crate::proofs::laws::Series::is_cosine), unfolding(rules::specs::Iq::cosine))]
fn cosine(t: f64) -> f64
    ensures { result ≡ cosine t }
{
    series(t * t, 9, 0)
}

// Whether a coefficient may be used: finite, and of a power below 1 − 1e-12.
pub fn accepted(rho: Complex64) -> bool
    ensures { result ≡ accepted (view64 rho) }
{
    rho.re.is_finite() && rho.im.is_finite() && rho.norm_sqr() < 1.0 - 1e-12
}

// Whether a calibration at a centre serves a receiver: at most 1 Hz off.
fn centres_agree(calibrated: f64, receiver: f64) -> bool
    ensures { result ≡ centres_agree calibrated receiver }
{
    finite_positive(receiver) && in_range(-1.0, 1.0, calibrated - receiver)
}

impl IqCalibration {
    pub fn validate(self) -> Result<(), Refusal>
        ensures { number_of result ≡ validation (calibration_of self) }
    {
        if !in_range(0.5, 2.0, self.gain) {
            return Err(Refusal::BadGain);
        }
        if !in_range(-45.0, 45.0, self.phase) {
            return Err(Refusal::BadPhase);
        }
        if !finite_positive(self.centre) {
            return Err(Refusal::BadCentre);
        }
        Ok(())
    }

    // gain × (cosine, sine) at −phase.
    fn turned(self) -> Complex64
        ensures { result ≡ make64 (turned (calibration_of self)) }
    {
        let t = -(self.phase * RADIANS_PER_DEGREE);
        Complex64 {
            re: self.gain * cosine(t),
            im: self.gain * sine(t),
        }
    }

    // The coefficient.
    pub fn image_ratio(self) -> Complex64
        ensures { result ≡ make64 (coefficient (calibration_of self)) }
    {
        let w = self.turned();
        w.one_minus() / w.one_plus()
    }

    // Whether it is valid, and measured where the receiver is.
    fn correctable(self, receiver: f64) -> bool
        ensures { result ≡ correctable (calibration_of self) receiver }
    {
        self.validate().is_ok() && centres_agree(self.centre, receiver)
    }

    // What an applying stage settles with it.
    fn authorized(self, receiver: f64) -> Iq
        ensures { settled_of result ≡ settled apply (calibrated_of (Some self)) receiver }
    {
        if !self.correctable(receiver) {
            return Iq::Withheld;
        }
        let rho = self.image_ratio();
        if !accepted(rho) {
            return Iq::Withheld;
        }
        Iq::Correcting(rho)
    }
}

// What an applying stage settles.
#[tactic(auto, unfolding(rules::specs::Iq::settled))]
fn applying(calibration: Option<IqCalibration>, receiver: f64) -> Iq
    ensures { settled_of result ≡ settled apply (calibrated_of calibration) receiver }
{
    let Some(c) = calibration else {
        return Iq::Withheld;
    };
    c.authorized(receiver)
}

// What the chain settles, once, from the mode, the calibration and the receiver's centre.
#[tactic(auto, unfolding(rules::specs::Iq::settled))]
pub fn settle(mode: StageMode, calibration: Option<IqCalibration>, receiver: f64) -> Iq
    ensures { settled_of result ≡ settled (mode_of mode) (calibrated_of calibration) receiver }
{
    match mode {
        StageMode::Off => Iq::Off,
        StageMode::Observe => Iq::Observing,
        StageMode::Apply => applying(calibration, receiver),
    }
}
