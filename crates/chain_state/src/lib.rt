// The chain's state, and number 5's tests of it, a function for each group of causes.
#![tactic(auto)]

ghost use Rattle.std.specs.Prelude.{◌≡◌, true, false, ◌&&◌};
ghost use Rattle.iq.specs.View.{settled_of};
ghost use Rattle.chain_state.specs.Fits.{counter, settings_fit, applies, held_by, counts_fit, ends_at, run_fits, left_fits, gate_fits, running_fits, suppressor_fits};
ghost use Rattle.chain_state.specs.Fits.{blocker_fits, coefficient_fits, begun_fits, monitor_fits, logs_fit, stages_fit, front_fits, state_fits};

use dc::DcBlocker;
use impulse::{Gate, ImpulseSuppressor, Run};
use iq::Iq;
use iq_monitor::ImageMonitor;
use stage_log::Notes;
use stage_mode::StageMode;

// What making settled. `impulse`: that stage runs; whether it applies or observes stands in its gate.
#[derive(Clone, Copy)]
pub struct Settings {
    pub fs: f64,
    pub n: usize,
    pub spans: usize,
    pub repairs: usize,
    pub impulse: bool,
    pub dc: StageMode,
    pub iq: Iq,
}

// How many samples came, how many were handed on, and how many are held back; and on how many of
// those handed on the DC stage's update was clamped.
#[derive(Clone, Copy)]
pub struct Counts {
    pub seen: u64,
    pub released: u64,
    pub held: usize,
    pub clamped: u64,
}

#[derive(Clone, Copy)]
pub struct InputConditioner {
    pub settings: Settings,
    pub counts: Counts,
    pub suppressor: ImpulseSuppressor,
    pub blocker: DcBlocker,
    pub monitor: ImageMonitor,
    pub notes: Notes,
}

// ---- the settings

fn settings_fit(s: Settings, blocklen: u64) -> bool
    ensures { result ≡ settings_fit s blocklen }
{
    chain_config::settings_fit(s.fs, s.n, s.spans, s.repairs).is_ok()
        && blocklen == ieee::round_half_away(s.fs)
}

// ---- the counts

fn counters_fit(a: u64, b: u64, c: u64) -> bool
    ensures { result ≡ (counter a && counter b && counter c) }
{
    a <= stage_log::COUNTER_LIMIT && b <= stage_log::COUNTER_LIMIT && c <= stage_log::COUNTER_LIMIT
}

// How many samples are held of so many seen.
fn held_by(applies: bool, seen: u64) -> usize
    ensures { result ≡ held_by applies seen }
{
    if applies {
        impulse_arrays::holds(ImpulseSuppressor::LOOKAHEAD, seen)
    } else {
        0
    }
}

#[tactic(auto, unfolding(crate::specs::Fits::counts_fit))]
fn counts_fit(applies: bool, counts: Counts) -> bool
    ensures { result ≡ counts_fit applies counts }
{
    counters_fit(counts.seen, counts.released, counts.clamped)
        && counts.held == held_by(applies, counts.seen)
        && counts.released + counts.held as u64 == counts.seen
}

// ---- the impulse stage

// Whether an open run has a sample and ends at j.
fn ends_at(run: Run, j: u64) -> bool
    ensures { result ≡ ends_at run j }
{
    run.len != 0 && run.start <= j && j - run.start == run.len
}

fn run_fits(run: Option<Run>, j: u64) -> bool
    ensures { result ≡ run_fits run j }
{
    run.is_none_or(|r| ends_at(r, j))
}

fn left_fits(left: Option<u64>) -> bool
    ensures { result ≡ left_fits left }
{
    left.is_none_or(|x| amplitude_limit::within(x))
}

#[tactic(auto, unfolding(crate::specs::Fits::gate_fits))]
fn gate_fits(g: &Gate) -> bool
    ensures { result ≡ gate_fits g.now }
{
    counters_fit(g.received, g.block.number, g.block.flagged)
        && run_fits(g.mending.run, impulse::next_judged(g.received))
        && left_fits(g.mending.left)
}

// Where the stage runs, how many samples it has received, and its sorted list.
#[tactic(auto, unfolding(crate::specs::Fits::running_fits))]
fn running_fits(m: &ImpulseSuppressor, seen: u64) -> bool
    ensures { result ≡ running_fits m.now seen }
{
    let held = impulse_arrays::holds(ImpulseSuppressor::WINDOW, m.gate.received);
    m.gate.received == seen && impulse_arrays::sorted_fits(held, &m.window, &m.sorted)
}

// The arrays, and where the stage runs the rest.
#[tactic(auto, unfolding(crate::specs::Fits::suppressor_fits))]
fn suppressor_fits(m: &ImpulseSuppressor, running: bool, seen: u64) -> bool
    ensures { result ≡ suppressor_fits m.now running seen }
{
    impulse_arrays::arrays_fit(m.gate.received, &m.window, &m.pending)
        && (!running || running_fits(m, seen))
}

// Whether the stage is off and no sample has come to it, so that there is nothing to test.
fn is_untouched(running: bool, received: u64) -> bool
    ensures { result ≡ true → (running ≡ false) × (received ≡ 0) }
{
    !running && received == 0
}

// ---- the other stages

#[tactic(auto, unfolding(crate::specs::Fits::blocker_fits))]
fn blocker_fits(b: DcBlocker) -> bool
    ensures { result ≡ blocker_fits b }
{
    b.n <= stage_log::COUNTER_LIMIT
        && amplitude_limit::is_limited(b.dc.re)
        && amplitude_limit::is_limited(b.dc.im)
}

// By the cases, as its definition.
fn coefficient_fits(iq: Iq) -> bool
    ensures { result ≡ coefficient_fits (settled_of iq) }
{
    match iq {
        Iq::Off => true,
        Iq::Observing => true,
        Iq::Correcting(rho) => iq::accepted(rho),
        Iq::Withheld => true,
    }
}

fn begun_fits(first: Option<u64>, end: u64) -> bool
    ensures { result ≡ begun_fits first end }
{
    first.is_none_or(|f| f <= end)
}

#[tactic(auto, unfolding(crate::specs::Fits::monitor_fits))]
fn monitor_fits(m: ImageMonitor) -> bool
    ensures { result ≡ monitor_fits m }
{
    m.end <= stage_log::COUNTER_LIMIT && begun_fits(m.first, m.end)
}

// ---- the state

impl InputConditioner {
    // Whether the impulse stage runs and applies.
    pub fn applies(&self) -> bool
        ensures { result ≡ applies self.now }
    {
        self.settings.impulse && self.suppressor.gate.settings.apply
    }

    // The settings, the counts and the gate.
    #[tactic(auto, unfolding(crate::specs::Fits::front_fits))]
    fn front_fits(&self) -> bool
        ensures { result ≡ front_fits self.now }
    {
        settings_fit(self.settings, self.suppressor.gate.settings.blocklen)
            && counts_fit(self.applies(), self.counts)
            && gate_fits(&self.suppressor.gate)
    }

    fn impulse_fits(&self) -> bool
        ensures { result ≡ suppressor_fits self.now.suppressor self.now.settings.impulse self.now.counts.seen }
    {
        is_untouched(self.settings.impulse, self.suppressor.gate.received)
            || suppressor_fits(&self.suppressor, self.settings.impulse, self.counts.seen)
    }

    #[tactic(auto, unfolding(crate::specs::Fits::logs_fit))]
    fn logs_fit(&self) -> bool
        ensures { result ≡ logs_fit self.now }
    {
        self.notes.log.fits(self.settings.spans)
            && stage_log::ring_fits(
                self.notes.repairs,
                self.notes.longruns,
                self.settings.repairs,
            )
    }

    #[tactic(auto, unfolding(crate::specs::Fits::stages_fit))]
    fn stages_fit(&self) -> bool
        ensures { result ≡ stages_fit self.now }
    {
        blocker_fits(self.blocker)
            && coefficient_fits(self.settings.iq)
            && monitor_fits(self.monitor)
    }

    // Number 5's tests of a state. The lent words have their own.
    #[tactic(auto, unfolding(crate::specs::Fits::state_fits))]
    pub fn fits(&self) -> bool
        ensures { result ≡ state_fits self.now }
    {
        self.front_fits() && self.impulse_fits() && self.logs_fit() && self.stages_fit()
    }
}
