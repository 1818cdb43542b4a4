// A recording's header: its bytes, and the configuration that they say.

ghost use Rattle.std.specs.Prelude.{◌≡◌, ◌<◌};
ghost use Rattle.iq.specs.View.{calibrated_of};
ghost use Rattle.impulse_pause.specs.View.{edition_of};
ghost use Rattle.stage_mode.specs.View.{mode_of};
ghost use Rattle.chain_config.specs.Config.{config_of};
ghost use Rattle.replay_format.specs.Format.{mark_fits, version_in, version_fits, edition_by, modes_fit, mode_by, real_at, calibration_in, config_in};
ghost use Rattle.replay_format.specs.Header.{said_header, header_said};

use crate::{CHANNELS, REPAIRS, SPANS, words};
use chain_config::ConditioningConfig;
use impulse_pause::PauseEdition;
use iq::IqCalibration;
use refusal::Refusal;
use stage_mode::StageMode;

const HEADER_SIZE: usize = 49;

// Mark CND.
fn mark_fits(bytes: &[u8; HEADER_SIZE]) -> bool
    ensures { result ≡ mark_fits bytes.now }
{
    bytes.starts_with(b"CND")
}

// A little-endian u16.
fn version(bytes: &[u8; HEADER_SIZE]) -> u64
    ensures { result ≡ version_in bytes.now }
{
    u64::from(u16::from_le_bytes([bytes[3], bytes[4]]))
}

// Version 1 or 2.
fn version_fits(version: u64) -> bool
    ensures { result ≡ version_fits version }
{
    version == 1 || version == 2
}

// The version is the number of the pause rule's edition.
fn edition_by(version: u64) -> PauseEdition
    ensures { edition_of result ≡ edition_by version }
{
    PauseEdition::from(version)
}

// The mode bytes, and the byte that says whether a calibration is present.
fn modes_fit(bytes: &[u8; HEADER_SIZE]) -> bool
    ensures { result ≡ modes_fit bytes.now }
{
    bytes[5] <= 2 && bytes[6] <= 2 && bytes[7] <= 2 && bytes[8] <= 1
}

// The number is the header's, and not the mode's own.
fn mode_by(byte: u8) -> StageMode
    ensures { mode_of result ≡ mode_by byte }
{
    match byte {
        0 => StageMode::Off,
        1 => StageMode::Observe,
        _ => StageMode::Apply,
    }
}

// f64 number k.
fn real_at(bytes: &[u8; HEADER_SIZE], k: usize) -> f64
    requires { k < 5 }
    ensures { result ≡ real_at bytes.now k }
{
    ieee::from_bits64(words::word_at(bytes, 9 + 8 * k))
}

fn calibration(bytes: &[u8; HEADER_SIZE]) -> Option<IqCalibration>
    ensures { calibrated_of result ≡ calibration_in bytes.now }
{
    if bytes[8] == 0 {
        return None;
    }
    Some(IqCalibration {
        gain: real_at(bytes, 2),
        phase: real_at(bytes, 3),
        centre: real_at(bytes, 4),
    })
}

fn config(bytes: &[u8; HEADER_SIZE]) -> ConditioningConfig
    ensures { config_of result ≡ config_in bytes.now }
{
    ConditioningConfig {
        impulse: mode_by(bytes[5]),
        dc: mode_by(bytes[6]),
        iq: mode_by(bytes[7]),
        fs: real_at(bytes, 0),
        centre: real_at(bytes, 1),
        n: CHANNELS,
        calibration: calibration(bytes),
        spans: SPANS,
        repairs: REPAIRS,
        edition: edition_by(version(bytes)),
    }
}

// What a header says: the configuration of the chain, or number 14.
pub fn header(bytes: &[u8]) -> Result<ConditioningConfig, Refusal>
    ensures { said_header result ≡ header_said bytes.now }
{
    let Some(head) = bytes.first_chunk::<HEADER_SIZE>() else {
        return Err(Refusal::BadHeader);
    };
    if !mark_fits(head) || !version_fits(version(head)) || !modes_fit(head) {
        return Err(Refusal::BadHeader);
    }
    Ok(config(head))
}
