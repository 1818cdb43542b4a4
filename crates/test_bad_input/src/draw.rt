// Random words: each turn has a seed, and number k of a turn's words is drawn from it. The same seed gives
// the same words.

use chain_config::ConditioningConfig;
use chain_words::mode_at;
use impulse_pause::PauseEdition;
use iq::IqCalibration;

// Xorshift: the seed of the next turn.
pub fn shifted(x: u64) -> u64 {
    let a = x ^ (x << 13);
    let b = a ^ (a >> 7);
    b ^ (b << 17)
}

// Word number k of a seed.
pub fn drawn(seed: u64, k: u64) -> u64 {
    let mixed = std::num::wrapping_add_u64(seed, k % 65536 * 0x9e37_79b9_7f4b);
    shifted(shifted(shifted(mixed)))
}

// Limits of document 01 and special floats, as numbers and as the bits of f64 and f32.
fn limit(k: u64) -> u64 {
    let limits = [
        0,
        1,
        2,
        5,
        8,
        21,
        33,
        44,
        60,
        256,
        2048,
        4096,
        0x1_0000_0000_0000,
        0x2_0000_0000_0000,
        0x10_0000_0000_0000,
        0x8000_0000_0000_0000,
        0xffff_ffff_ffff_ffff,
        0x3ff0_0000_0000_0000,
        0x4163_12d0_0000_0000,
        0x43ab_c16d_674e_c800,
        0xc3ab_c16d_674e_c800,
        0x4c63_e9e4_e4c2_f344,
        0x7ff0_0000_0000_0000,
        0x7ff8_0000_0000_0000,
        0x5d5e_0b6b,
        0x5d5e_0b6b_0000_0000,
        0x5bb1_a2bc,
        0x5bb1_a2bc_0000_0000,
        0x7b40_97ce,
        0x8000_0000,
        0x7f80_0000,
        0x7fc0_0000_7fc0_0000,
    ];
    let at = (k % 32) as usize;
    limits[at]
}

// A limit, one more or one less, or any word.
pub fn odd_word(seed: u64, k: u64) -> u64 {
    let w = drawn(seed, k);
    let near = limit(w / 8);
    let f = w % 8;
    match f {
        0..=2 => near,
        3 => std::num::wrapping_add_u64(near, 1),
        4 => std::num::wrapping_sub_u64(near, 1),
        5 => w / 8 % 64,
        _ => shifted(w),
    }
}

// The usual word, but one in eight times an odd one. Other bits decide that than which odd one it is.
pub fn any_word(seed: u64, k: u64, usual: u64) -> u64 {
    if drawn(seed, k) / 0x1_0000 % 8 == 0 {
        return odd_word(seed, k);
    }
    usual
}

// ---- samples

// A usable sample, (1 + a fraction, 0); now and then (100, 0), and less often an odd word.
fn sample(seed: u64, k: u64) -> u64 {
    let w = drawn(seed, k);
    let f = w / 0x1_0000 % 128;
    match f {
        0 => odd_word(seed, k),
        1..=8 => 0x42c8_0000,
        _ => 0x3f80_0000 + w / 0x80_0000 % 0x80_0000,
    }
}

pub fn samples(seed: u64) -> [u64; 64] {
    let mut out = [0u64; 64];
    for (k, x) in out.iter_mut().enumerate() {
        *x = sample(seed, k as u64 + 1000);
    }
    out
}

// ---- a configuration

fn any_float(seed: u64, k: u64, usual: f64) -> f64 {
    ieee::from_bits64(any_word(seed, k, ieee::to_bits64(usual)))
}

fn usual_rate(w: u64) -> f64 {
    match w {
        0 => 8.5,
        1 => 1000.0,
        _ => 1.0,
    }
}

fn any_calibration(seed: u64) -> Option<IqCalibration> {
    if drawn(seed, 126) % 4 == 0 {
        return None;
    }
    Some(IqCalibration {
        gain: any_float(seed, 127, 1.25),
        phase: any_float(seed, 128, 3.0),
        centre: 100.0,
    })
}

pub fn configuration(seed: u64) -> ConditioningConfig {
    ConditioningConfig {
        impulse: mode_at(drawn(seed, 129) % 3),
        dc: mode_at(drawn(seed, 130) % 3),
        iq: mode_at(drawn(seed, 131) % 3),
        fs: any_float(seed, 120, usual_rate(drawn(seed, 121) % 4)),
        centre: 100.0,
        n: any_word(seed, 122, 8) as usize,
        calibration: any_calibration(seed),
        spans: any_word(seed, 123, 2) as usize,
        repairs: any_word(seed, 124, 2) as usize,
        edition: PauseEdition::from(drawn(seed, 132) % 4),
    }
}
