// Making a chain, from a configuration and three lent stores.
#![tactic(auto)]

ghost use Rattle.std.specs.Prelude.{◌≡◌, length};
ghost use Rattle.rules.specs.Constants.{zero_f};
ghost use Rattle.rules.specs.Chain.{setting_of};
ghost use Rattle.impulse.specs.Machine.{fresh};
ghost use Rattle.chain_config.specs.Config.{config_of};
ghost use Rattle.chain_make.specs.Making.{fresh_settings, fresh_state, IfMade, said_making, making_said, made_words};

use chain_config::ConditioningConfig;
use chain_state::{Counts, InputConditioner, Settings};
use dc::DcBlocker;
use impulse::ImpulseSuppressor;
use iq_monitor::ImageMonitor;
use refusal::Refusal;
use stage_log::Notes;

fn fresh_settings(config: ConditioningConfig) -> Settings
    ensures { result ≡ fresh_settings config }
{
    Settings {
        fs: config.fs,
        n: config.n,
        spans: config.spans,
        repairs: config.repairs,
        impulse: config.impulse.runs(),
        dc: config.dc,
        iq: iq::settle(config.iq, config.calibration, config.centre),
    }
}

fn fresh_suppressor(config: ConditioningConfig) -> ImpulseSuppressor
    ensures { result ≡ fresh (setting_of (config_of config)) config.edition }
{
    let blocklen = ieee::round_half_away(config.fs);
    ImpulseSuppressor::fresh(blocklen, config.impulse.applies(), config.edition)
}

// The state before any sample, whatever the configuration.
fn fresh_state(config: ConditioningConfig) -> InputConditioner
    ensures { result ≡ fresh_state config }
{
    InputConditioner {
        settings: fresh_settings(config),
        counts: Counts {
            seen: 0,
            released: 0,
            held: 0,
            clamped: 0,
        },
        suppressor: fresh_suppressor(config),
        blocker: DcBlocker::fresh(config.fs),
        monitor: ImageMonitor::fresh(),
        notes: Notes::fresh(),
    }
}

// A chain of the configuration, with the span store, the repair store and the monitor's words; or none
// where all is off, before 1, 2, 3, 4. If it is made, every lent word becomes 0, and else all words stay.
pub fn with_geometry(
    config: ConditioningConfig,
    spans: &mut [u64],
    repairs: &mut [u64],
    words: &mut [f64],
) -> Result<Option<InputConditioner>, Refusal>
    ensures answer { said_making result
        ≡ making_said (config_of config) (length spans.old) (length repairs.old) (length words.old) }
    ensures state { IfMade result (λ s. s ≡ fresh_state config) }
    ensures spans { spans.new
        ≡ made_words 0 (making_said (config_of config) (length spans.old) (length repairs.old) (length words.old))
        spans.old }
    ensures repairs { repairs.new
        ≡ made_words 0 (making_said (config_of config) (length spans.old) (length repairs.old) (length words.old))
        repairs.old }
    ensures words { words.new
        ≡ made_words zero_f (making_said (config_of config) (length spans.old) (length repairs.old) (length words.old))
        words.old }
{
    if config.is_off() {
        return Ok(None);
    }
    config.fits(spans.len(), repairs.len(), words.len())?;
    spans.fill(0);
    repairs.fill(0);
    words.fill(0.0);
    Ok(Some(fresh_state(config)))
}
