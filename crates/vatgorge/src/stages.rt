// The stages by themselves.

ghost use Rattle.std.specs.Prelude.{◌≡◌};
ghost use Rattle.rules.specs.Guard.{guarded, unusable};
ghost use Rattle.rules.specs.Refusals.{validation};
ghost use Rattle.dc.specs.Undo as dcUndo;
ghost use Rattle.iq_correction.specs.Undo as iqUndo;
ghost use Rattle.rules.specs.Answers.{number_in};
ghost use Rattle.refusal.specs.Words.{returned_by};
ghost use Rattle.vatgorge.specs.Stages.{place_after};

use complex::Complex64;
use iq::IqCalibration;
use refusal::Refusal;

// Replaces every unusable sample by 0, and answers how many there were.
#[unsafe(no_mangle)]
pub extern "C" fn vg_guard(samples: &mut [u64]) -> u64
    ensures samples { samples.new ≡ guarded samples.old }
    ensures count { result ≡ unusable samples.old }
{
    sample_guard::replace_unusable(samples)
}

// Whether a calibration is in range: 0, 11, 12 or 13.
#[unsafe(no_mangle)]
pub extern "C" fn vg_validate(gain: f64, phase: f64, centre: f64) -> u64
    ensures { result ≡ validation (record { gain = gain; phase = phase; centre = centre }) }
{
    let c = IqCalibration {
        gain,
        phase,
        centre,
    };
    refusal::number(&c.validate())
}

// The place of 7.
fn tell_place(answer: Result<(), Refusal>, place: &mut u64)
    ensures { place.new ≡ place_after place.old (returned_by answer) }
{
    match answer {
        Ok(()) => {}
        Err(Refusal::OutOfRange(k)) => *place = k as u64,
        Err(_) => {}
    }
}

// DC undo, of y into out: 0, 1, 4 or 7. Any but 0 leaves out. The place of 7 goes to the last word,
// which every other answer leaves.
#[unsafe(no_mangle)]
pub extern "C" fn vg_undo_dc(y: &[u64], fs: f64, out: &mut [u64], place: &mut u64) -> u64
    ensures code { result ≡ number_in (dcUndo.undo_returned fs out.old y.now) }
    ensures out { out.new ≡ dcUndo.undo_words fs out.old y.now }
    ensures place { place.new ≡ place_after place.old (dcUndo.undo_returned fs out.old y.now) }
{
    let answer = dc::revert_dc(y, fs, out);
    tell_place(answer, place);
    refusal::number(&answer)
}

// IQ undo of a coefficient, in place: 0, 7 or 10. Any but 0 leaves the samples. The place of 7 goes to
// the last word, which every other answer leaves.
#[unsafe(no_mangle)]
pub extern "C" fn vg_undo_iq(samples: &mut [u64], re: f64, im: f64, place: &mut u64) -> u64
    ensures code { result ≡ number_in (iqUndo.undo_returned (record { re = re; im = im }) samples.old) }
    ensures samples { samples.new ≡ iqUndo.undo_words (record { re = re; im = im }) samples.old }
    ensures place { place.new ≡ place_after place.old (iqUndo.undo_returned (record { re = re; im = im }) samples.old) }
{
    let answer = iq_correction::revert_iq(samples, Complex64 { re, im });
    tell_place(answer, place);
    refusal::number(&answer)
}
