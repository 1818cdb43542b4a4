// The chain's configuration: which stages run and how, and what making declines.
#![tactic(auto)]

ghost use Rattle.std.specs.Prelude.{◌≡◌};
ghost use Rattle.refusal.specs.Words.{number_of};
ghost use Rattle.stage_mode.specs.View.{mode_of};
ghost use Rattle.chain_config.specs.Config.{config_of, all_off, forced, observed, setting_refusal, refusal};

use impulse_pause::PauseEdition;
use iq::IqCalibration;
use iq_monitor::ImageMonitor;
use refusal::Refusal;
use stage_mode::StageMode;

// The most channels, spans in a ring and repairs.
pub const SIZE_LIMIT: usize = 2048;

pub const SPAN_LIMIT: usize = 256;

pub const REPAIR_LIMIT: usize = 4096;

// Which stages run, the receiver's rate and centre, the channels of a hop, the calibration, how many
// spans a ring and how many repairs the log holds, and the edition of the pause rule.
#[derive(Clone, Copy)]
pub struct ConditioningConfig {
    pub impulse: StageMode,
    pub dc: StageMode,
    pub iq: StageMode,
    pub fs: f64,
    pub centre: f64,
    pub n: usize,
    pub calibration: Option<IqCalibration>,
    pub spans: usize,
    pub repairs: usize,
    pub edition: PauseEdition,
}

// Off becomes observing.
fn forced(mode: StageMode) -> StageMode
    ensures { mode_of result ≡ forced (mode_of mode) }
{
    match mode {
        StageMode::Off | StageMode::Observe => StageMode::Observe,
        StageMode::Apply => StageMode::Apply,
    }
}

// The settings alone: the rate, the channels, and the capacities of a ring and of the repairs.
pub fn settings_fit(fs: f64, n: usize, spans: usize, repairs: usize) -> Result<(), Refusal>
    ensures { number_of result ≡ setting_refusal fs n spans repairs }
{
    if !dc::rate_fits(fs) {
        return Err(Refusal::BadRate);
    }
    if SIZE_LIMIT < n {
        return Err(Refusal::BadSize);
    }
    if spans == 0 || SPAN_LIMIT < spans || repairs == 0 || REPAIR_LIMIT < repairs {
        return Err(Refusal::BadCapacity);
    }
    Ok(())
}

impl ConditioningConfig {
    // Whether no stage runs: making answers nothing then.
    pub fn is_off(self) -> bool
        ensures { result ≡ all_off (config_of self) }
    {
        !self.impulse.runs() && !self.dc.runs() && !self.iq.runs()
    }

    // The impulse and DC stages observe where they were off.
    pub fn observing(self) -> ConditioningConfig
        ensures { config_of result ≡ observed (config_of self) }
    {
        ConditioningConfig {
            impulse: forced(self.impulse),
            dc: forced(self.dc),
            ..self
        }
    }

    // The settings, and then the lengths of the span store, the repair store and the monitor's words.
    pub fn fits(self, spans: usize, repairs: usize, words: usize) -> Result<(), Refusal>
        ensures { number_of result ≡ refusal (config_of self) spans repairs words }
    {
        settings_fit(self.fs, self.n, self.spans, self.repairs)?;
        if repairs != stage_log::REPAIR_WORDS * self.repairs
            || spans != stage_log::STORE_WORDS * self.spans
            || words != ImageMonitor::CHANNEL_WORDS * self.n
        {
            return Err(Refusal::BadLength);
        }
        Ok(())
    }
}
