// A hop.

use crate::making::lent;
use crate::words::{write_front, write_words};
use crate::{Head, MONITOR_WORDS, SPAN_WORDS};
use chain_words::STATE_WORDS;
use iq_monitor::{Evidence, Heard};
use refusal::Refusal;
use std::io;
use test_operations::told_hop;

fn write_evidence(rt: &impl Print, e: Evidence) -> io::Result<()> {
    let words = [
        e.start,
        e.end,
        e.suspected as u64,
        ieee::to_bits64(e.coherence),
        ieee::to_bits64(e.floor),
        ieee::to_bits64(e.strongest),
        ieee::to_bits64(e.mirror),
    ];
    write_words(rt, &words)
}

// The evidence, or zeros.
fn write_report(rt: &impl Print, answer: Result<Heard, Refusal>) -> io::Result<()> {
    match answer {
        Ok(Heard::Report(e)) => write_evidence(rt, e),
        _ => write_words(rt, &[0u64; 7]),
    }
}

fn write_hop(rt: &impl Print, answer: Result<Heard, Refusal>) -> io::Result<()> {
    let t = told_hop(answer);
    write_front(rt, [4, t.number, t.value, 0, 0, 0, 0, 7])?;
    write_report(rt, answer)
}

pub fn hop(
    rt: &impl Print,
    state: &mut [u64; STATE_WORDS],
    head: Head,
    input: &[u64],
    spans: &mut [u64; SPAN_WORDS],
    monitor: &mut [f64; MONITOR_WORDS],
) -> io::Result<()> {
    let answer = test_operations::hop(
        state,
        input,
        input.len(),
        head.a,
        spans,
        monitor,
        lent(head.b, 0, head.c),
    );
    write_hop(rt, answer)
}
