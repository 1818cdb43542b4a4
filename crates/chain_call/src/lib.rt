// A call: new samples through the stages impulse, DC, IQ, in place.
#![tactic(auto)]

ghost use Rattle.std.specs.Prelude.{◌≡◌, ◌++◌, map, ◌+◌, ◌^◌, ◌≤◌, ◌<◌, length, take, drop};
ghost use Rattle.rules.specs.Iq.{corrected_by};
ghost use Rattle.rules.specs.Answers.{accepted};
ghost use Rattle.refusal.specs.Words.{said_by};
ghost use Rattle.rules.specs.Refusals.{too_many};
ghost use Rattle.rules.specs.Constants.{total_limit};
ghost use Rattle.stage_log.specs.View.{Logged, span_in};
ghost use Rattle.stage_log.specs.Ready.{Bounded};
ghost use Rattle.iq.specs.View.{settled_of};
ghost use Rattle.stage_mode.specs.View.{mode_of};
ghost use Rattle.impulse_slice.specs.Noted.{note_all, over};
ghost use Rattle.chain_state.specs.Changed.{after_call};
ghost use Rattle.dc.specs.Blocker.{Blocked};
ghost use Rattle.chain.specs.Stages.{machine_of, notes_in, new_part, impulse_after, impulse_out, impulse_told, dc_after, blocked_by, noted_dc, noted_iq, hands_on};
ghost use Rattle.chain.specs.Stages.{process, Acceptable};
ghost use Rattle.chain.specs.Calls.{unread_refusal, told_unread, told_read, called};

use chain_state::{Counts, InputConditioner};
use dc::DcBlocker;
use iq::Iq;
use refusal::Refusal;
use stage_log::{Log, Mark, Span, Stage};
use stage_mode::StageMode;

// The impulse stage over the samples behind the held ones; the answer is how many are released.
fn suppress(
    state: &mut InputConditioner,
    samples: &mut [u64],
    spans: &mut [u64],
    repairs: &mut [u64],
) -> usize
    requires { Acceptable state.old samples.old spans.old repairs.old }
    ensures state { state.new
        ≡ after_call state.old state.old.counts (impulse_after state.old (new_part state.old samples.old)) state.old.blocker state.new.notes }
    ensures noted { notes_in (machine_of state.new spans.new repairs.new)
        ≡ note_all state.old.settings.spans state.old.settings.repairs (notes_in (machine_of state.old spans.old repairs.old))
        (impulse_told state.old (new_part state.old samples.old)) }
    ensures ready { result ≡ length (impulse_out state.old (new_part state.old samples.old)) }
    ensures written { samples.new ≡ over (impulse_out state.old (new_part state.old samples.old)) samples.old }
{
    if !state.settings.impulse {
        return samples.len();
    }
    impulse_slice::run(
        samples,
        state.counts.held,
        &mut state.suppressor,
        &mut state.notes,
        spans,
        state.settings.spans,
        repairs,
        state.settings.repairs,
    )
}

// The DC stage over the first `ready` samples: on how many its update was clamped. The slice comes whole, here and below,
// so that the contract says that the rest of it stays.
fn remove_dc(mode: StageMode, blocker: &mut DcBlocker, samples: &mut [u64], ready: usize) -> u64
    requires ready_in_bounds { ready ≤ length samples.old }
    requires ready_bound { blocker.old.n + ready < 2 ^ 64 }
    ensures after { ◌≡◌ {A = Blocked} (record { blocker = blocker.new; clamped = result })
        (dc_after (mode_of mode) blocker.old (take ready samples.old)) }
    ensures written { samples.new ≡ blocked_by (mode_of mode) blocker.old (take ready samples.old) ++ drop ready samples.old }
{
    match mode {
        StageMode::Off => 0,
        StageMode::Observe => blocker.observe(&samples[..ready]),
        StageMode::Apply => blocker.process(&mut samples[..ready]),
    }
}

// The IQ stage over the first `ready` samples.
fn correct(iq: Iq, samples: &mut [u64], ready: usize)
    requires { ready ≤ length samples.old }
    ensures { samples.new ≡ map (corrected_by (settled_of iq)) (take ready samples.old) ++ drop ready samples.old }
{
    iq_correction::process(iq, &mut samples[..ready]);
}

// An applying DC stage marks what is released. Log, store and capacity are what `Log::mark` takes, here and below.
fn mark_dc(log: &mut Log, mode: StageMode, spans: &mut [u64], capacity: usize, span: Span)
    requires bounded { Bounded capacity (2 ^ 54) (record { log = log.old; spans = spans.old }) }
    requires start_bound { (span.start ≤ 2 ^ 52) × (span.len ≤ total_limit) }
    ensures { ◌≡◌ {A = Logged} (record { log = log.new; spans = spans.new })
        (noted_dc capacity (mode_of mode) (record { log = log.old; spans = spans.old }) (span_in span)) }
{
    match mode {
        StageMode::Off | StageMode::Observe => {}
        StageMode::Apply => log.mark(spans, capacity, Stage::Dc, Mark::Corrected, span),
    }
}

// A correcting IQ stage marks what is released, and so does one that is withheld.
fn mark_iq(log: &mut Log, iq: Iq, spans: &mut [u64], capacity: usize, span: Span)
    requires bounded { Bounded capacity (2 ^ 55) (record { log = log.old; spans = spans.old }) }
    requires start_bound { (span.start ≤ 2 ^ 52) × (span.len ≤ total_limit) }
    ensures { ◌≡◌ {A = Logged} (record { log = log.new; spans = spans.new })
        (noted_iq capacity (settled_of iq) (record { log = log.old; spans = spans.old }) (span_in span)) }
{
    match iq {
        Iq::Off | Iq::Observing => {}
        Iq::Correcting(_) => log.mark(spans, capacity, Stage::Iq, Mark::Corrected, span),
        Iq::Withheld => log.mark(spans, capacity, Stage::Iq, Mark::Uncertain, span),
    }
}

// The DC and the IQ stage over the first `ready` samples.
fn filter(
    mode: StageMode,
    blocker: &mut DcBlocker,
    iq: Iq,
    samples: &mut [u64],
    ready: usize,
) -> u64
    requires ready_in_bounds { ready ≤ length samples.old }
    requires ready_bound { blocker.old.n + ready < 2 ^ 64 }
    ensures after { ◌≡◌ {A = Blocked} (record { blocker = blocker.new; clamped = result })
        (dc_after (mode_of mode) blocker.old (take ready samples.old)) }
    ensures written { samples.new
        ≡ map (corrected_by (settled_of iq)) (blocked_by (mode_of mode) blocker.old (take ready samples.old)) ++ drop ready samples.old }
{
    let clamped = remove_dc(mode, blocker, samples, ready);
    correct(iq, samples, ready);
    clamped
}

// The marks over what is released.
fn mark_released(
    log: &mut Log,
    mode: StageMode,
    iq: Iq,
    spans: &mut [u64],
    capacity: usize,
    span: Span,
)
    requires bounded { Bounded capacity (2 ^ 54) (record { log = log.old; spans = spans.old }) }
    requires start_bound { (span.start ≤ 2 ^ 52) × (span.len ≤ total_limit) }
    ensures { ◌≡◌ {A = Logged} (record { log = log.new; spans = spans.new })
        (noted_iq capacity (settled_of iq) (noted_dc capacity (mode_of mode) (record { log = log.old; spans = spans.old }) (span_in span))
        (span_in span)) }
{
    mark_dc(log, mode, spans, capacity, span);
    mark_iq(log, iq, spans, capacity, span);
}

// The lengths of a state's arrays. They follow from its type where it is passed by value, and not where
// its parts stand behind a reference.
fn sized(state: InputConditioner)
    ensures { length state.notes.log.marks ≡ 12 }
{}

// The stages one after another, over a slice that is not refused.
pub fn accept(
    state: &mut InputConditioner,
    samples: &mut [u64],
    spans: &mut [u64],
    repairs: &mut [u64],
) -> usize
    requires { unread_refusal state.old (length samples.old) spans.old repairs.old ≡ 0 }
    ensures ready { result ≡ length (hands_on state.old (new_part state.old samples.old)) }
    ensures chain { machine_of state.new spans.new repairs.new
        ≡ process (machine_of state.old spans.old repairs.old) (new_part state.old samples.old) }
    ensures written { samples.new ≡ over (hands_on state.old (new_part state.old samples.old)) samples.old }
{
    sized(*state);
    let before = state.counts;
    let set = state.settings;
    let len = samples.len();
    let new = len - before.held;
    let ready = suppress(state, samples, spans, repairs);
    let clamped = filter(set.dc, &mut state.blocker, set.iq, samples, ready);
    let released = Span {
        start: before.released,
        len: ready as u64,
    };
    mark_released(
        &mut state.notes.log,
        set.dc,
        set.iq,
        spans,
        set.spans,
        released,
    );
    state.counts = Counts {
        seen: before.seen + new as u64,
        released: before.released + ready as u64,
        held: len - ready,
        clamped: before.clamped + clamped,
    };
    ready
}

// Whether the total with so many new samples is above 2^48.
fn too_many(seen: u64, new: usize) -> bool
    ensures { result ≡ (too_many seen new).holds }
{
    seen > stage_log::TOTAL_LIMIT || new as u64 > stage_log::TOTAL_LIMIT - seen
}

// What refuses a call before a sample is read: 5, 4, 6 or 8, by the state, the length of the slice and
// the stores.
pub fn refusal(
    state: &InputConditioner,
    len: usize,
    spans: &[u64],
    repairs: &[u64],
) -> Result<(), Refusal>
    ensures { said_by (λ _. accepted 0) result ≡ told_unread (unread_refusal state.now len spans.now repairs.now) }
{
    if !state.fits() {
        return Err(Refusal::BadState);
    }
    if repairs.len() != stage_log::REPAIR_WORDS * state.settings.repairs {
        return Err(Refusal::BadLength);
    }
    if spans.len() != stage_log::STORE_WORDS * state.settings.spans {
        return Err(Refusal::BadLength);
    }
    if !state.notes.log.ends_fit(spans, state.settings.spans) {
        return Err(Refusal::BadState);
    }
    if len < state.counts.held {
        return Err(Refusal::Short);
    }
    if too_many(state.counts.seen, len - state.counts.held) {
        return Err(Refusal::TooMany);
    }
    Ok(())
}

// What refuses a call for a sample: 7, with the place of the first new one that is not usable.
pub fn unusable(samples: &[u64], held: usize) -> Result<(), Refusal>
    requires { held ≤ length samples.now }
    ensures { said_by (λ _. accepted 0) result ≡ told_read held (drop held samples.now) }
{
    match sample_guard::first_unusable(&samples[held..]) {
        Some(k) => Err(Refusal::OutOfRange(held + k)),
        None => Ok(()),
    }
}

// Conditions a slice in place: the held samples, which are not read, and then the new ones. So many
// samples are released, and stand in front; places from there on stay as they were.
pub fn condition(
    state: &mut InputConditioner,
    samples: &mut [u64],
    spans: &mut [u64],
    repairs: &mut [u64],
) -> Result<usize, Refusal>
    ensures answer { said_by accepted result ≡ (called (machine_of state.old spans.old repairs.old) samples.old).said }
    ensures chain { machine_of state.new spans.new repairs.new
        ≡ (called (machine_of state.old spans.old repairs.old) samples.old).machine }
    ensures written { samples.new ≡ (called (machine_of state.old spans.old repairs.old) samples.old).samples }
{
    refusal(state, samples.len(), spans, repairs)?;
    unusable(samples, state.counts.held)?;
    Ok(accept(state, samples, spans, repairs))
}
