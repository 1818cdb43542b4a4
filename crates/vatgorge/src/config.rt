// A configuration as words that a caller lends.

ghost use Rattle.std.specs.Prelude.{◌≡◌};
ghost use Rattle.chain_config.specs.Config.{config_of, all_off};
ghost use Rattle.chain_words.specs.Words.{flag_word};
ghost use Rattle.vatgorge.specs.Config.{config_word_count, calibration_at, calibration_words, config_in, config_words, CalibrationTyped, ConfigTyped};
ghost use Rattle.vatgorge.specs.Config.{observed_in};

use chain_config::ConditioningConfig;
use impulse_pause::PauseEdition;
use iq::IqCalibration;

// ---- where each field stands, counted from the one before

// The stages' modes: 0 is off, 1 observes, and every other applies.
const IMPULSE: usize = 0;

const DC: usize = IMPULSE + 1;

const IQ: usize = DC + 1;
// The receiver's rate and centre, the bits of doubles, and the channels of a hop.
const RATE: usize = IQ + 1;

const CENTRE: usize = RATE + 1;

const CHANNELS: usize = CENTRE + 1;
// The calibration: 0 says that there is none; its gain, phase and centre, the bits of doubles.
const CALIBRATED: usize = CHANNELS + 1;

const GAIN: usize = CALIBRATED + 1;

const PHASE: usize = GAIN + 1;

const CALIBRATION_CENTRE: usize = PHASE + 1;
// How many spans a ring and how many repairs the log holds.
const SPAN_CAPACITY: usize = CALIBRATION_CENTRE + 1;

const REPAIR_CAPACITY: usize = SPAN_CAPACITY + 1;

// The edition of the pause rule: 2 is the second, and every other the first.
const EDITION: usize = REPAIR_CAPACITY + 1;

// How many words a configuration has.
pub const CONFIG_WORDS: usize = EDITION + 1;

#[unsafe(no_mangle)]
pub extern "C" fn vg_config_words() -> u64
    ensures { result ≡ config_word_count }
{
    CONFIG_WORDS as u64
}

// ---- reading

fn calibration_at(w: u64, gain: u64, phase: u64, centre: u64) -> Option<IqCalibration>
    ensures { result ≡ calibration_at w gain phase centre }
{
    if w == 0 {
        return None;
    }
    Some(IqCalibration {
        gain: ieee::from_bits64(gain),
        phase: ieee::from_bits64(phase),
        centre: ieee::from_bits64(centre),
    })
}

// The configuration that the words say; any words say one.
pub fn read_config(words: &[u64; CONFIG_WORDS]) -> ConditioningConfig
    ensures { result ≡ config_in words.now }
{
    ConditioningConfig {
        impulse: chain_words::mode_at(words[IMPULSE]),
        dc: chain_words::mode_at(words[DC]),
        iq: chain_words::mode_at(words[IQ]),
        fs: ieee::from_bits64(words[RATE]),
        centre: ieee::from_bits64(words[CENTRE]),
        n: words[CHANNELS] as usize,
        calibration: calibration_at(
            words[CALIBRATED],
            words[GAIN],
            words[PHASE],
            words[CALIBRATION_CENTRE],
        ),
        spans: words[SPAN_CAPACITY] as usize,
        repairs: words[REPAIR_CAPACITY] as usize,
        edition: PauseEdition::from(words[EDITION]),
    }
}

// ---- writing

fn calibration_words(calibration: Option<IqCalibration>) -> [u64; 4]
    ensures { result ≡ calibration_words calibration }
{
    match calibration {
        None => [0, 0, 0, 0],
        Some(c) => [
            1,
            ieee::to_bits64(c.gain),
            ieee::to_bits64(c.phase),
            ieee::to_bits64(c.centre),
        ],
    }
}

fn config_words(config: ConditioningConfig) -> [u64; CONFIG_WORDS]
    ensures { result ≡ config_words config }
{
    let impulse = config.impulse;
    let dc = config.dc;
    let iq = config.iq;
    let calibration = config.calibration;
    let calibrated = calibration_words(calibration);
    let edition = config.edition;
    [
        chain_words::mode_word(impulse),
        chain_words::mode_word(dc),
        chain_words::mode_word(iq),
        ieee::to_bits64(config.fs),
        ieee::to_bits64(config.centre),
        config.n as u64,
        calibrated[0],
        calibrated[1],
        calibrated[2],
        calibrated[3],
        config.spans as u64,
        config.repairs as u64,
        u64::from(edition),
    ]
}

// What the types say of the floats.
fn present_typed(c: IqCalibration)
    ensures { CalibrationTyped (Some c) }
{}

fn calibration_typed(calibration: Option<IqCalibration>)
    ensures { CalibrationTyped calibration }
{
    if let Some(c) = calibration {
        present_typed(c);
    }
}

fn config_typed(config: ConditioningConfig)
    ensures { ConfigTyped config }
{
    let calibration = config.calibration;
    calibration_typed(calibration);
}

// Every word of the configuration. The words then say the configuration.
pub fn write_config(config: ConditioningConfig, words: &mut [u64; CONFIG_WORDS])
    ensures words { words.new ≡ config_words config }
    ensures again { config_in words.new ≡ config }
{
    config_typed(config);
    *words = config_words(config);
}

// ---- a configuration by itself

// 1 if no stage runs, else 0.
#[unsafe(no_mangle)]
pub extern "C" fn vg_is_off(config: &[u64; CONFIG_WORDS]) -> u64
    ensures { result ≡ flag_word (all_off (config_of (config_in config.now))) }
{
    let asked = read_config(config);
    chain_words::flag_word(asked.is_off())
}

// The impulse and DC stages observe where they were off. Every word is written: the modes become 0, 1 or
// 2, the edition 1 or 2, and the numbers of a calibration that there is none of become 0.
#[unsafe(no_mangle)]
pub extern "C" fn vg_observing(config: &mut [u64; CONFIG_WORDS])
    ensures words { config.new ≡ config_words (observed_in config.old) }
    ensures again { config_in config.new ≡ observed_in config.old }
{
    let asked = read_config(config);
    write_config(asked.observing(), config);
}
