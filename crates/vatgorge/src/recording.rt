// A recording's header, the chain that its start makes, and its end.

ghost use Rattle.std.specs.Prelude.{◌≡◌};
ghost use Rattle.chain_words.specs.States.{state_of};
ghost use Rattle.replay_format.specs.Format.{tail_refusal};
ghost use Rattle.replay_format.specs.Header.{header_number, header_said};
ghost use Rattle.replay_start.specs.Starting.{start_state};
ghost use Rattle.vatgorge.specs.Codes.{state_after};
ghost use Rattle.vatgorge.specs.Config.{config_in};
ghost use Rattle.vatgorge.specs.Make.{After};
ghost use Rattle.vatgorge.specs.Recording.{header_words, header_config, after};

use crate::{config, making};

// What a header's bytes say: 0 with the configuration's words, or 14, which leaves every word.
#[unsafe(no_mangle)]
pub extern "C" fn vg_header(bytes: &[u8], config: &mut [u64; config::CONFIG_WORDS]) -> u64
    ensures code { result ≡ header_number (header_said bytes.now) }
    ensures words { config.new ≡ header_words config.old (header_said bytes.now) }
    ensures again { config_in config.new ≡ header_config config.old (header_said bytes.now) }
{
    match replay_format::header::header(bytes) {
        Ok(said) => {
            config::write_config(said, config);
            0
        }
        Err(refusal) => refusal.number(),
    }
}

// Makes the chain of a header's bytes: 14, and then making, with stores for 256 spans, 1,024 repairs and 8
// channels; others are refused by 4. If a chain is made, the state is written and every word of the stores
// becomes 0; else all words stay.
#[unsafe(no_mangle)]
pub extern "C" fn vg_start(
    head: &[u8],
    state: &mut [u64; chain_words::STATE_WORDS],
    spans: &mut [u64],
    repairs: &mut [u64],
    monitor: &mut [f64],
) -> u64
    ensures after { ◌≡◌ {A = After}
        (record { code = result; state = state.new; spans = spans.new; repairs = repairs.new; monitor = monitor.new })
        (after head.now state.old spans.old repairs.old monitor.old) }
    ensures again { state_of state.new ≡ state_after result state.old (start_state head.now) }
{
    let started = replay_start::start(head, spans, repairs, monitor);
    making::keep_made(started, state)
}

// Ends with the recording's last block: 0, or 17 if the last sample is broken.
#[unsafe(no_mangle)]
pub extern "C" fn vg_end(block: &[u8]) -> u64
    ensures { result ≡ tail_refusal block.now }
{
    refusal::number(&replay_format::words::tail(block))
}
