// The undos, the guard and validation.

use crate::call::fill;
use crate::words::{answer_plain, answer_slice};
use crate::{Head, SLICE_WORDS};
use chain_words::STATE_WORDS;
use complex::Complex64;
use iq::IqCalibration;
use refusal::Refusal;
use std::io;
use test_operations::{Told, part, plain};

// ---- repairs

pub fn repairs(
    rt: &impl Print,
    state: &[u64; STATE_WORDS],
    head: Head,
    input: &mut [u64],
    repairs: &[u64],
) -> io::Result<()> {
    let told = test_operations::undo_repairs(state, repairs, head.b as usize, input, head.a);
    answer_slice(rt, 9, told, input, head.how)
}

// The place comes with 7.
fn told(answer: Result<(), Refusal>) -> Told {
    let number = refusal::number(&answer);
    match answer {
        Err(Refusal::OutOfRange(place)) => Told {
            number,
            value: place as u64,
        },
        _ => plain(number),
    }
}

// ---- DC

fn level_over(rt: &impl Print, head: Head, input: &[u64], slice: &mut [u64]) -> io::Result<()> {
    let answer = dc::revert_dc(input, ieee::from_bits64(head.a), slice);
    answer_slice(rt, 10, told(answer), slice, head.how)
}

pub fn level(rt: &impl Print, head: Head, input: &[u64]) -> io::Result<()> {
    let mut slice = [0u64; SLICE_WORDS];
    fill(&mut slice, SLICE_WORDS, input);
    let n = part(&slice, head.b as usize);
    level_over(rt, head, input, &mut slice[..n])
}

// ---- IQ

pub fn correction(rt: &impl Print, head: Head, input: &mut [u64]) -> io::Result<()> {
    let rho = Complex64 {
        re: ieee::from_bits64(head.a),
        im: ieee::from_bits64(head.b),
    };
    let answer = iq_correction::revert_iq(input, rho);
    answer_slice(rt, 11, told(answer), input, head.how)
}

// ---- the guard

pub fn guard(rt: &impl Print, head: Head, input: &mut [u64]) -> io::Result<()> {
    let replaced = sample_guard::replace_unusable(input);
    let told = Told {
        number: 0,
        value: replaced,
    };
    answer_slice(rt, 12, told, input, head.how)
}

// ---- a calibration

pub fn validate(rt: &impl Print, head: Head) -> io::Result<()> {
    let c = IqCalibration {
        gain: ieee::from_bits64(head.a),
        phase: ieee::from_bits64(head.b),
        centre: ieee::from_bits64(head.c),
    };
    answer_plain(rt, 13, plain(refusal::number(&c.validate())), 0, 0)
}
