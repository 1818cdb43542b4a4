// A state as words that a caller lends, and the state that words say.
#![tactic(auto)]

ghost use Rattle.std.specs.Prelude.{◌≡◌, ◌++◌, ◌+◌, ◌≤◌, length, take};
ghost use Rattle.rules.specs.Lists.{All};
ghost use Rattle.impulse_window.specs.Rising.{Held};
ghost use Rattle.rules.specs.Impulse.{window_size, lookahead_size};
ghost use Rattle.chain_words.specs.Places as place;
ghost use Rattle.chain_words.specs.Words.{flag_word, power_word, mode_word, iq_words, run_words, option_words, settings_words, gate_settings_words};
ghost use Rattle.chain_words.specs.Words.{mending_words, block_words, gate_words, blocker_words, monitor_words, counts_words, ring_words, notes_words};
ghost use Rattle.chain_words.specs.Words.{powers_words, arrays_words, rings_words, samples_words, log_words, stage_words, counter_words, words_of};
ghost use Rattle.chain_words.specs.States.{flag_of, power_of, mode_at, complex_at, iq_at, run_at, settings_in, gate_settings_in, mending_in, option_at};
ghost use Rattle.chain_words.specs.States.{block_in, gate_in, blocker_in, monitor_in, counts_in, part, powers_in, suppressor_in, ring_in, log_in, notes_in};
ghost use Rattle.chain_words.specs.States.{state_of};
ghost use Rattle.chain_words.specs.Typed.{Double, Doubles, IqTyped};

use chain_state::{Counts, InputConditioner, Settings};
use complex::Complex64;
use dc::DcBlocker;
use impulse::{Block, Gate, GateSettings, ImpulseSuppressor, Mending, Run};
use impulse_pause::PauseEdition;
use iq::Iq;
use iq_monitor::ImageMonitor;
use stage_log::{Log, Marks, Notes, Ring};
use stage_mode::StageMode;

// ---- where each part stands, counted from the one before

// The settings: numbers, modes and tags; a coefficient is two words.
const RATE: usize = 0;

pub const CHANNELS: usize = RATE + 1;

const SPAN_CAPACITY: usize = CHANNELS + 1;

const REPAIR_CAPACITY: usize = SPAN_CAPACITY + 1;

const IMPULSE: usize = REPAIR_CAPACITY + 1;

const DC: usize = IMPULSE + 1;

const IQ: usize = DC + 1;

pub const COEFFICIENT: usize = IQ + 1;
// The gate: its settings; what it received; the run, four words, and the sample before it, two; the block.
pub const APPLY: usize = COEFFICIENT + 2;

const EDITION: usize = APPLY + 1;

const BLOCK_LENGTH: usize = EDITION + 1;

pub const RECEIVED: usize = BLOCK_LENGTH + 1;

pub const RUN: usize = RECEIVED + 1;

const LEFT: usize = RUN + 4;

const BLOCK: usize = LEFT + 2;

const FLAGGED: usize = BLOCK + 1;

const PAUSED: usize = FLAGGED + 1;
// The DC blocker: a level is two words.
const FACTOR: usize = PAUSED + 1;

const UPDATES: usize = FACTOR + 1;

const LEVEL: usize = UPDATES + 1;
// The mirror monitor: whether a window has begun, with its start; the last hop's end.
const BEGUN: usize = LEVEL + 2;

pub const END: usize = BEGUN + 2;
// The counts of samples, and the DC stage's.
pub const SEEN: usize = END + 1;

pub const RELEASED: usize = SEEN + 1;

pub const HELD: usize = RELEASED + 1;

pub const CLAMPED: usize = HELD + 1;
// The notes' numbers: the repair ring, three words, and the runs that were too long.
const REPAIR_RING: usize = CLAMPED + 1;

const LONG_RUNS: usize = REPAIR_RING + 3;
// The suppressor's arrays.
pub const WINDOW: usize = LONG_RUNS + 1;

const SORTED: usize = WINDOW + ImpulseSuppressor::WINDOW;

const PENDING: usize = SORTED + ImpulseSuppressor::WINDOW;
// The log: twelve rings, three words each, and twelve counts.
pub const RINGS: usize = PENDING + ImpulseSuppressor::LOOKAHEAD;

const COUNTS: usize = RINGS + 36;

// How many words a state has.
pub const STATE_WORDS: usize = COUNTS + 12;

// ---- one word

pub fn flag_word(b: bool) -> u64
    ensures { result ≡ flag_word b }
{
    u64::from(b)
}

// Every word but 0 is true.
fn flag_of(w: u64) -> bool
    ensures { result ≡ flag_of w }
{
    w != 0
}

fn power_word(x: f32) -> u64
    ensures word { result ≡ power_word x }
    ensures held { Held x }
{
    ieee::to_bits32(x) as u64
}

// Of the low half.
fn power_of(w: u64) -> f32
    ensures { result ≡ power_of w }
{
    ieee::from_bits32((w % 0x1_0000_0000) as u32)
}

// No `From`, here and below: the number is that of a state's words, and not the mode's own.
pub fn mode_word(mode: StageMode) -> u64
    ensures { result ≡ mode_word mode }
{
    match mode {
        StageMode::Off => 0,
        StageMode::Observe => 1,
        StageMode::Apply => 2,
    }
}

// 2 and above apply.
pub fn mode_at(w: u64) -> StageMode
    ensures { result ≡ mode_at w }
{
    match w {
        0 => StageMode::Off,
        1 => StageMode::Observe,
        _ => StageMode::Apply,
    }
}

// ---- enums: a tag, and words that are 0 where the variant has none

pub fn iq_words(iq: Iq) -> [u64; 3]
    ensures { result ≡ iq_words iq }
{
    match iq {
        Iq::Off => [0, 0, 0],
        Iq::Observing => [1, 0, 0],
        Iq::Correcting(rho) => [2, ieee::to_bits64(rho.re), ieee::to_bits64(rho.im)],
        Iq::Withheld => [3, 0, 0],
    }
}

fn complex_at(re: u64, im: u64) -> Complex64
    ensures { result ≡ complex_at re im }
{
    Complex64 {
        re: ieee::from_bits64(re),
        im: ieee::from_bits64(im),
    }
}

// 3 and above withhold.
fn iq_at(w: u64, re: u64, im: u64) -> Iq
    ensures { result ≡ iq_at w re im }
{
    match w {
        0 => Iq::Off,
        1 => Iq::Observing,
        2 => Iq::Correcting(complex_at(re, im)),
        _ => Iq::Withheld,
    }
}

fn run_words(run: Option<Run>) -> [u64; 4]
    ensures { result ≡ run_words run }
{
    match run {
        Some(r) => [1, r.start, r.len, flag_word(r.paused)],
        None => [0, 0, 0, 0],
    }
}

// Every tag but 0 says that there is one, here and below.
fn run_at(w: u64, start: u64, len: u64, paused: u64) -> Option<Run>
    ensures { result ≡ run_at w start len paused }
{
    match w {
        0 => None,
        _ => Some(Run {
            start,
            len,
            paused: flag_of(paused),
        }),
    }
}

fn option_words(option: Option<u64>) -> [u64; 2]
    ensures { result ≡ option_words option }
{
    match option {
        Some(x) => [1, x],
        None => [0, 0],
    }
}

fn option_at(w: u64, x: u64) -> Option<u64>
    ensures { result ≡ option_at w x }
{
    match w {
        0 => None,
        _ => Some(x),
    }
}

// ---- the numbers of each part: as words, and as words say them

fn settings_words(s: Settings) -> [u64; 9]
    ensures { result ≡ settings_words s }
{
    let settled = iq_words(s.iq);
    [
        ieee::to_bits64(s.fs),
        s.n as u64,
        s.spans as u64,
        s.repairs as u64,
        flag_word(s.impulse),
        mode_word(s.dc),
        settled[0],
        settled[1],
        settled[2],
    ]
}

fn read_settings(words: &[u64; STATE_WORDS]) -> Settings
    ensures { result ≡ settings_in words.now }
{
    Settings {
        fs: ieee::from_bits64(words[RATE]),
        n: words[CHANNELS] as usize,
        spans: words[SPAN_CAPACITY] as usize,
        repairs: words[REPAIR_CAPACITY] as usize,
        impulse: flag_of(words[IMPULSE]),
        dc: mode_at(words[DC]),
        iq: iq_at(words[IQ], words[COEFFICIENT], words[COEFFICIENT + 1]),
    }
}

fn gate_settings_words(s: GateSettings) -> [u64; 3]
    ensures { result ≡ gate_settings_words s }
{
    [flag_word(s.apply), u64::from(s.edition), s.blocklen]
}

fn read_gate_settings(words: &[u64; STATE_WORDS]) -> GateSettings
    ensures { result ≡ gate_settings_in words.now }
{
    GateSettings {
        apply: flag_of(words[APPLY]),
        edition: PauseEdition::from(words[EDITION]),
        blocklen: words[BLOCK_LENGTH],
    }
}

fn mending_words(m: Mending) -> [u64; 6]
    ensures { result ≡ mending_words m }
{
    let run = run_words(m.run);
    let left = option_words(m.left);
    [run[0], run[1], run[2], run[3], left[0], left[1]]
}

fn read_mending(words: &[u64; STATE_WORDS]) -> Mending
    ensures { result ≡ mending_in words.now }
{
    Mending {
        run: run_at(words[RUN], words[RUN + 1], words[RUN + 2], words[RUN + 3]),
        left: option_at(words[LEFT], words[LEFT + 1]),
    }
}

fn block_words(b: Block) -> [u64; 3]
    ensures { result ≡ block_words b }
{
    [b.number, b.flagged, flag_word(b.paused)]
}

fn read_block(words: &[u64; STATE_WORDS]) -> Block
    ensures { result ≡ block_in words.now }
{
    Block {
        number: words[BLOCK],
        flagged: words[FLAGGED],
        paused: flag_of(words[PAUSED]),
    }
}

fn gate_words(g: Gate) -> [u64; 13]
    ensures { result ≡ gate_words g }
{
    let s = gate_settings_words(g.settings);
    let m = mending_words(g.mending);
    let b = block_words(g.block);
    [
        s[0], s[1], s[2], g.received, m[0], m[1], m[2], m[3], m[4], m[5], b[0], b[1], b[2],
    ]
}

fn read_gate(words: &[u64; STATE_WORDS]) -> Gate
    ensures { result ≡ gate_in words.now }
{
    Gate {
        settings: read_gate_settings(words),
        received: words[RECEIVED],
        mending: read_mending(words),
        block: read_block(words),
    }
}

fn blocker_words(b: DcBlocker) -> [u64; 4]
    ensures { result ≡ blocker_words b }
{
    [
        ieee::to_bits64(b.a),
        b.n,
        ieee::to_bits64(b.dc.re),
        ieee::to_bits64(b.dc.im),
    ]
}

fn read_blocker(words: &[u64; STATE_WORDS]) -> DcBlocker
    ensures { result ≡ blocker_in words.now }
{
    DcBlocker {
        a: ieee::from_bits64(words[FACTOR]),
        n: words[UPDATES],
        dc: complex_at(words[LEVEL], words[LEVEL + 1]),
    }
}

fn monitor_words(m: ImageMonitor) -> [u64; 3]
    ensures { result ≡ monitor_words m }
{
    let begun = option_words(m.first);
    [begun[0], begun[1], m.end]
}

fn read_monitor(words: &[u64; STATE_WORDS]) -> ImageMonitor
    ensures { result ≡ monitor_in words.now }
{
    ImageMonitor {
        first: option_at(words[BEGUN], words[BEGUN + 1]),
        end: words[END],
    }
}

fn counts_words(c: Counts) -> [u64; 4]
    ensures { result ≡ counts_words c }
{
    [c.seen, c.released, c.held as u64, c.clamped]
}

fn read_counts(words: &[u64; STATE_WORDS]) -> Counts
    ensures { result ≡ counts_in words.now }
{
    Counts {
        seen: words[SEEN],
        released: words[RELEASED],
        held: words[HELD] as usize,
        clamped: words[CLAMPED],
    }
}

pub fn ring_words(r: Ring) -> [u64; 3]
    ensures { result ≡ ring_words r }
{
    [r.head as u64, r.count as u64, r.dropped]
}

fn read_ring(words: &[u64; STATE_WORDS], at: usize) -> Ring
    requires { at + 3 ≤ place.state_words }
    ensures { result ≡ ring_in words.now at }
{
    Ring {
        head: words[at] as usize,
        count: words[at + 1] as usize,
        dropped: words[at + 2],
    }
}

fn notes_words(n: Notes) -> [u64; 4]
    ensures { result ≡ notes_words n }
{
    let ring = ring_words(n.repairs);
    [ring[0], ring[1], ring[2], n.longruns]
}

// ---- reading the arrays and the log: by number, since each stands at its place among the words, here and below

fn read_powers(words: &[u64; STATE_WORDS], at: usize) -> [f32; ImpulseSuppressor::WINDOW]
    requires { at + window_size ≤ place.state_words }
    ensures { result ≡ powers_in at words.now }
{
    let mut powers = [0.0f32; ImpulseSuppressor::WINDOW];
    for (k, power) in powers.iter_mut().enumerate() {
        *power = power_of(words[at + k]);
    }
    powers
}

fn read_pending(words: &[u64; STATE_WORDS]) -> [u64; ImpulseSuppressor::LOOKAHEAD]
    ensures { result ≡ part place.pending lookahead_size words.now }
{
    let mut pending = [0u64; ImpulseSuppressor::LOOKAHEAD];
    pending.copy_from_slice(&words[PENDING..RINGS]);
    pending
}

fn read_suppressor(words: &[u64; STATE_WORDS]) -> ImpulseSuppressor
    ensures { result ≡ suppressor_in words.now }
{
    ImpulseSuppressor {
        gate: read_gate(words),
        window: read_powers(words, WINDOW),
        sorted: read_powers(words, SORTED),
        pending: read_pending(words),
    }
}

fn read_log(words: &[u64; STATE_WORDS]) -> Log
    ensures { result ≡ log_in words.now }
{
    let mut marks = [Marks::fresh(); stage_log::RINGS];
    for (k, ring) in marks.iter_mut().enumerate() {
        *ring = Marks {
            samples: words[COUNTS + k],
            ring: read_ring(words, RINGS + k * 3),
        };
    }
    Log { marks }
}

fn read_notes(words: &[u64; STATE_WORDS]) -> Notes
    ensures { result ≡ notes_in words.now }
{
    Notes {
        log: read_log(words),
        repairs: read_ring(words, REPAIR_RING),
        longruns: words[LONG_RUNS],
    }
}

// The state that the words say; any words say one.
pub fn read_state(words: &[u64; STATE_WORDS]) -> InputConditioner
    ensures { result ≡ state_of words.now }
{
    InputConditioner {
        settings: read_settings(words),
        counts: read_counts(words),
        suppressor: read_suppressor(words),
        blocker: read_blocker(words),
        monitor: read_monitor(words),
        notes: read_notes(words),
    }
}

// ---- writing: each part behind the one before

// A list, from a place on.
pub fn put(list: &[u64], words: &mut [u64], at: usize)
    requires { at + length list.now ≤ length words.old }
    ensures front { take (at + length list.now) words.new ≡ take at words.old ++ list.now }
    ensures sized { length words.new ≡ length words.old }
{
    let end = at + list.len();
    words[at..end].copy_from_slice(list);
}

fn put_powers(powers: &[f32; ImpulseSuppressor::WINDOW], words: &mut [u64], at: usize)
    requires { at + window_size ≤ length words.old }
    ensures front { take (at + window_size) words.new ≡ take at words.old ++ powers_words powers.now }
    ensures sized { length words.new ≡ length words.old }
    ensures held { All Held powers.now }
{
    for (k, power) in powers.iter().enumerate() {
        words[at + k] = power_word(*power);
    }
}

fn put_rings(log: Log, words: &mut [u64], at: usize)
    requires { at + 36 ≤ length words.old }
    ensures front { take (at + 36) words.new ≡ take at words.old ++ rings_words log.marks }
    ensures sized { length words.new ≡ length words.old }
{
    for (k, marks) in log.marks.iter().enumerate() {
        put(&ring_words(marks.ring), words, at + k * 3);
    }
}

fn put_samples(log: Log, words: &mut [u64], at: usize)
    requires { at + 12 ≤ length words.old }
    ensures front { take (at + 12) words.new ≡ take at words.old ++ samples_words log.marks }
    ensures sized { length words.new ≡ length words.old }
{
    for (k, marks) in log.marks.iter().enumerate() {
        words[at + k] = marks.samples;
    }
}

// A log, from a place on: its rings, three words each, then its counts.
pub fn put_log(log: Log, words: &mut [u64], at: usize)
    requires { at + 48 ≤ length words.old }
    ensures front { take (at + 48) words.new ≡ take at words.old ++ log_words log }
    ensures sized { length words.new ≡ length words.old }
{
    put_rings(log, words, at);
    put_samples(log, words, at + 36);
}

// The settings, the gate and the DC blocker.
fn write_stages(state: InputConditioner, words: &mut [u64; STATE_WORDS])
    ensures { take place.begun words.new ≡ stage_words state }
{
    put(&settings_words(state.settings), words, RATE);
    put(&gate_words(state.suppressor.gate), words, APPLY);
    put(&blocker_words(state.blocker), words, FACTOR);
}

// The monitor, the counts and the notes' numbers.
fn write_counters(state: InputConditioner, words: &mut [u64; STATE_WORDS])
    ensures { take place.window words.new ≡ take place.begun words.old ++ counter_words state }
{
    put(&monitor_words(state.monitor), words, BEGUN);
    put(&counts_words(state.counts), words, SEEN);
    put(&notes_words(state.notes), words, REPAIR_RING);
}

fn write_arrays(m: ImpulseSuppressor, words: &mut [u64; STATE_WORDS])
    ensures front { take place.rings words.new ≡ take place.window words.old ++ arrays_words m }
    ensures held { All Held m.window × All Held m.sorted }
{
    put_powers(&m.window, words, WINDOW);
    put_powers(&m.sorted, words, SORTED);
    put(&m.pending, words, PENDING);
}

// ---- what the types say of the floats

fn complex_typed(z: Complex64)
    ensures { Doubles z }
{}

fn iq_typed(iq: Iq)
    ensures { IqTyped iq }
{
    match iq {
        Iq::Off => {}
        Iq::Observing => {}
        Iq::Correcting(rho) => complex_typed(rho),
        Iq::Withheld => {}
    }
}

fn settings_typed(s: Settings)
    ensures { Double s.fs × IqTyped s.iq }
{
    iq_typed(s.iq);
}

fn blocker_typed(b: DcBlocker)
    ensures { Double b.a × Doubles b.dc }
{
    complex_typed(b.dc);
}

// Every word of the state. The words then say the state.
pub fn write_state(state: InputConditioner, words: &mut [u64; STATE_WORDS])
    ensures words { words.new ≡ words_of state }
    ensures again { state_of words.new ≡ state }
{
    settings_typed(state.settings);
    blocker_typed(state.blocker);
    write_stages(state, words);
    write_counters(state, words);
    write_arrays(state.suppressor, words);
    put_log(state.notes.log, words, RINGS);
}
