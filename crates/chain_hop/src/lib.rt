// A hop handed to the chain: number 5 and 4, the mirror monitor, and the mark of a suspected window.
#![tactic(auto)]

ghost use Rattle.std.specs.Prelude.{◌≡◌, true, ◌*◌, ◌≤◌, length};
ghost use mathlib.Core.List.{foldl};
ghost use Rattle.rules.specs.Monitor.{report, suspected_span, channel_width};
ghost use Rattle.rules.specs.Log.{store_width};
ghost use Rattle.rules.specs.Constants.{size_limit};
ghost use Rattle.stage_log.specs.View.{Logged};
ghost use Rattle.stage_log.specs.Check.{log_fits};
ghost use Rattle.iq.specs.View.{settled_of};
ghost use Rattle.iq_monitor.specs.Observe.{Seen, report_from, said};
ghost use Rattle.chain_state.specs.Changed.{after_hop};
ghost use Rattle.chain_hop.specs.Hops.{hop_refusal, fitness, is_off_iq, is_observing, hop_told, watched, uncertain, noted, Hopped, taken};
ghost use Rattle.chain_hop.specs.Hops.{hop_of};
ghost use Rattle.chain_hop.specs.HopReady.{Told, Window};

use chain_state::InputConditioner;
use iq::Iq;
use iq_monitor::{Evidence, Heard, ImageMonitor};
use refusal::Refusal;
use stage_log::{Log, Mark, Span, Stage};

fn is_off(iq: Iq) -> bool
    ensures { result ≡ is_off_iq (settled_of iq) }
{
    matches!(iq, Iq::Off)
}

fn is_observing(iq: Iq) -> bool
    ensures { result ≡ is_observing (settled_of iq) }
{
    matches!(iq, Iq::Observing)
}

// The state, then the lengths of the span store and the monitor's words, then what stands in them.
fn hop_refusal(state: &InputConditioner, spans: &[u64], words: &[f64]) -> Result<(), Refusal>
    ensures { result ≡ fitness (hop_refusal state.now spans.now words.now) }
{
    if !state.fits() {
        return Err(Refusal::BadState);
    }
    if spans.len() != stage_log::STORE_WORDS * state.settings.spans {
        return Err(Refusal::BadLength);
    }
    if words.len() != ImageMonitor::CHANNEL_WORDS * state.settings.n {
        return Err(Refusal::BadLength);
    }
    if !state.notes.log.ends_fit(spans, state.settings.spans) {
        return Err(Refusal::BadState);
    }
    if !ImageMonitor::words_fit(words, state.settings.n) {
        return Err(Refusal::BadState);
    }
    Ok(())
}

// Marks a window that is suspected. The log, its spans and their capacity are the parameters of `Log::mark`.
fn mark_window(log: &mut Log, spans: &mut [u64], capacity: usize, evidence: Evidence)
    requires log_value { (log_fits capacity log.old ≡ true) × (length spans.old ≡ capacity * store_width) }
    requires window { Window evidence }
    ensures { ◌≡◌ {A = Logged} (record { log = log.new; spans = spans.new })
        (foldl (uncertain capacity) (record { log = log.old; spans = spans.old }) (suspected_span (report (report_from evidence)))) }
{
    if !evidence.suspected {
        return;
    }
    log.mark(
        spans,
        capacity,
        Stage::Iq,
        Mark::Uncertain,
        Span {
            start: evidence.start,
            len: evidence.end - evidence.start,
        },
    );
}

// Marks the window of the monitor's report, if it suspects one, only while observing.
fn noted(log: &mut Log, spans: &mut [u64], capacity: usize, iq: Iq, heard: Result<Heard, Refusal>)
    requires log_value { (log_fits capacity log.old ≡ true) × (length spans.old ≡ capacity * store_width) }
    requires told { Told heard }
    ensures { ◌≡◌ {A = Logged} (record { log = log.new; spans = spans.new })
        (noted capacity (is_observing (settled_of iq)) heard (record { log = log.old; spans = spans.old })) }
{
    if is_observing(iq)
        && let Ok(Heard::Report(evidence)) = heard
    {
        mark_window(log, spans, capacity, evidence);
    }
}

// What the monitor makes of a hop, unless IQ is off.
fn watched(
    state: &mut InputConditioner,
    x: &[u64],
    start: u64,
    words: &mut [f64],
) -> Result<Heard, Refusal>
    requires { (length words.old ≡ channel_width * state.old.settings.n) × (state.old.settings.n ≤ size_limit) }
    ensures seen { ◌≡◌ {A = Seen} (record { monitor = state.new.monitor; answer = result; words = words.new })
        (watched state.old x.now start words.old) }
    ensures rest { state.new ≡ after_hop state.old state.new.monitor state.old.notes.log }
{
    if is_off(state.settings.iq) {
        return Ok(Heard::Nothing);
    }
    state
        .monitor
        .observe(state.settings.fs, state.settings.n, x, start, words)
}

// A hop whose state and stores fit.
fn take_hop(
    state: &mut InputConditioner,
    x: &[u64],
    start: u64,
    spans: &mut [u64],
    words: &mut [f64],
) -> Result<Heard, Refusal>
    requires { hop_refusal state.old spans.old words.old ≡ 0 }
    ensures { ◌≡◌ {A = Hopped} (record { state = state.new; answer = result; spans = spans.new; words = words.new })
        (taken state.old x.now start spans.old words.old) }
{
    let heard = watched(state, x, start, words);
    noted(
        &mut state.notes.log,
        spans,
        state.settings.spans,
        state.settings.iq,
        heard,
    );
    heard
}

// A hop of channels x at this start, with the span store and the monitor's words: 5, 4, nothing, 9, 7,
// or it is added, and reported when a window is full. Whatever is refused or answered by nothing leaves
// all as it was.
pub fn observe_hop(
    state: &mut InputConditioner,
    x: &[u64],
    start: u64,
    spans: &mut [u64],
    words: &mut [f64],
) -> Result<Heard, Refusal>
    ensures hopped { ◌≡◌ {A = Hopped} (record { state = state.new; answer = result; spans = spans.new; words = words.new })
        (hop_of state.old x.now start spans.old words.old) }
    ensures said { said result ≡ hop_told state.old x.now start spans.old words.old }
{
    hop_refusal(state, spans, words)?;
    take_hop(state, x, start, spans, words)
}
