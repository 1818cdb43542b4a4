// The replay program: a recording on standard input, its report on standard output. A bad header is
// answered at once; else the recording is read to its end before anything is printed, because a broken
// last sample shows only there. Where a read fails, nothing is printed; that, and a report that could not be
// written whole, is a line on standard error.
#![tactic(auto)]

ghost use Rattle.std.specs.Prelude.{◌≡◌, ◌+◌, ◌*◌, ◌≤◌, IfOk, OnErr, min, length};
ghost use Rattle.rules.specs.Impulse.{lookahead_size};
ghost use Rattle.rules.specs.Log.{repair_width, store_width};
ghost use Rattle.rules.specs.Monitor.{channel_width};
ghost use Rattle.rules.specs.Answers.{accepted};
ghost use Rattle.refusal.specs.Words.{said_by};
ghost use Rattle.io.specs.Counts.{IsPrefixLen};
ghost use Rattle.replay_text.specs.Text.{put};
ghost use Rattle.replay.specs.Printing.{begun, text_of};

use arrayvec::ArrayString;
use chain_state::InputConditioner;
use impulse::ImpulseSuppressor;
use iq_monitor::ImageMonitor;
use refusal::Refusal;
use std::fmt::Write;
use std::io;
use std::io::Read;

// Blocks to read at most, 2^64 - 1 of 65,536 bytes: more than any recording has.
const BLOCKS: u64 = 0xffff_ffff_ffff_ffff;

// A chain that plays, and how many of its samples were replaced.
#[derive(Drop)]
struct Playing {
    state: InputConditioner,
    replaced: u64,
}

// ---- stores

const BLOCK: usize = 65536;

// The samples of a block, behind as many as are held.
const SAMPLES: usize = 8192 + ImpulseSuppressor::LOOKAHEAD;

const SPAN_STORE: usize = stage_log::STORE_WORDS * replay_format::SPANS;

const REPAIR_STORE: usize = stage_log::REPAIR_WORDS * replay_format::REPAIRS;

const MONITOR_STORE: usize = ImageMonitor::CHANNEL_WORDS * replay_format::CHANNELS;

// The block that is read, and the words that are lent.
#[derive(Drop)]
struct Stores {
    block: [u8; BLOCK],
    samples: [u64; SAMPLES],
    spans: [u64; SPAN_STORE],
    repairs: [u64; REPAIR_STORE],
    monitor: [f64; MONITOR_STORE],
}

impl Stores {
    fn new() -> Stores
        ensures samples { 8192 + lookahead_size ≡ length result.samples }
        ensures spans { store_width * 256 ≡ length result.spans }
        ensures repairs { repair_width * 1024 ≡ length result.repairs }
        ensures monitor { channel_width * 8 ≡ length result.monitor }
    {
        Stores {
            block: [0; BLOCK],
            samples: [0; SAMPLES],
            spans: [0; SPAN_STORE],
            repairs: [0; REPAIR_STORE],
            monitor: [0.0; MONITOR_STORE],
        }
    }
}

// ---- complaining

// The words of an I/O error, without the number that std writes behind them.
fn without_number(text: &str) -> &str {
    match text.split_once(" (os error ") {
        Some((words, _)) => words,
        None => text,
    }
}

// A line on standard error: what could not be done, and why.
fn complain(rt: &impl Eprint, undone: &str, error: &io::Error) {
    let mut why = ArrayString::<256>::new();
    let _ = write!(why, "{error}");
    let words = without_number(why.as_str());
    let _ = eprintln!(rt; "replay: {undone}: {words}");
}

// ---- reading

// Reads until the bytes are full or the recording ends, and answers how many came.
fn read_block(rt: &impl Input, bytes: &mut [u8]) -> io::Result<usize>
    ensures { IfOk result (λ size. IsPrefixLen size bytes.new) }
{
    let mut size = 0;
    // each read moves on by what it brought
    while size < bytes.len() {
        let more = rt.reader().read(&mut bytes[size..])?;
        if more == 0 {
            break;
        }
        size += more;
    }
    Ok(size)
}

// ---- playing

// Feeds the first bytes of the block.
fn feed(playing: Playing, size: usize, stores: &mut Stores) -> Result<Playing, Refusal>
    requires { IsPrefixLen size stores.old.block }
{
    let mut state = playing.state;
    let fed = replay_feed::feed(
        &mut state,
        &stores.block[..size],
        &mut stores.samples,
        &mut stores.spans,
        &mut stores.repairs,
    )?;
    Ok(Playing {
        state,
        replaced: playing.replaced.wrapping_add(fed.replaced),
    })
}

// Takes the first bytes of the block. Those that end in a broken sample are refused, whatever was answered
// before. Else they are fed, unless something was refused or all is off.
fn take(
    played: Result<Option<Playing>, Refusal>,
    size: usize,
    stores: &mut Stores,
) -> Result<Option<Playing>, Refusal>
    requires { IsPrefixLen size stores.old.block }
{
    replay_format::words::tail(&stores.block[..size])?;
    match played? {
        Some(playing) => Ok(Some(feed(playing, size, stores)?)),
        None => Ok(None),
    }
}

// Reads and takes every block, up to one that is not full.
fn play(
    rt: &impl Input,
    first: Result<Option<Playing>, Refusal>,
    stores: &mut Stores,
) -> io::Result<Result<Option<Playing>, Refusal>> {
    let mut played = first;
    for _ in 0..BLOCKS {
        let size = read_block(rt, &mut stores.block)?;
        if size == 0 {
            break;
        }
        played = take(played, size, stores);
        if size < BLOCK {
            break;
        }
    }
    Ok(played)
}

// ---- the whole recording

// What making has left, before any block.
fn begin(made: Result<Option<InputConditioner>, Refusal>) -> Result<Option<Playing>, Refusal>
    ensures { result ≡ begun made }
{
    Ok(made?.map(|state| Playing { state, replaced: 0 }))
}

// Puts what is to be printed into the text, and answers how long it is.
fn write_played(played: Result<Option<Playing>, Refusal>, spans: &[u64], text: &mut [u8]) -> usize
    ensures text { text.new ≡ put text.old 0 (text_of played spans.now) }
    ensures length { result ≡ min (length text.old) (length (text_of played spans.now)) }
{
    match played {
        Ok(Some(playing)) => {
            replay_report::write_report(&playing.state, spans, playing.replaced, text)
        }
        Ok(None) => replay_text::notices::write_off(text),
        Err(refusal) => replay_text::notices::write_refusal(refusal.number(), text),
    }
}

// Reads and plays the recording, and puts what is to be printed into the text, which holds every report
// (`report_whole`). Where a read fails, the text stays.
fn replay(rt: &impl Input, text: &mut [u8]) -> io::Result<usize>
    requires whole { 262144 ≤ length text.old }
    ensures length { IfOk result (λ size. size ≤ length text.old) }
    ensures failed { OnErr result (text.new ≡ text.old) }
{
    let mut head = [0u8; 49];
    let known = read_block(rt, &mut head)?;
    let mut stores = Stores::new();
    let made = replay_start::start(
        &head[..known],
        &mut stores.spans,
        &mut stores.repairs,
        &mut stores.monitor,
    );
    let first = begin(made);
    if let Err(Refusal::BadHeader) = first {
        return Ok(write_played(first, &stores.spans, text));
    }
    let played = play(rt, first, &mut stores)?;
    Ok(write_played(played, &stores.spans, text))
}

// The text stands in front of its store.
fn print(rt: &(impl Print + Eprint), text: &[u8], size: usize)
    requires { size ≤ length text.now }
{
    if let Err(e) = rt.write_all(&text[..size]) {
        complain(rt, "the report could not be written", &e);
    }
}

fn main(rt: HostRuntime) {
    let mut text = [0u8; 262144];
    match replay(&rt, &mut text) {
        Ok(size) => print(&rt, &text, size),
        Err(e) => complain(&rt, "the recording could not be read", &e),
    }
}
