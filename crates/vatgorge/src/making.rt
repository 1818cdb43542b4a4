// Making a chain.

ghost use Rattle.std.specs.Prelude.{◌≡◌};
ghost use Rattle.chain_make.specs.Making.{IfMade, said_making, fresh_state};
ghost use Rattle.chain_state.specs.declared.InputConditioner.{InputConditioner};
ghost use Rattle.chain_words.specs.States.{state_of};
ghost use Rattle.vatgorge.specs.Codes.{words_after, state_after};
ghost use Rattle.vatgorge.specs.Config.{config_in};
ghost use Rattle.vatgorge.specs.Make.{After, code_of, after};

use crate::{NOTHING, config};
use chain_state::InputConditioner;
use refusal::Refusal;

// Writes the state that was made, and answers 0; NOTHING says that no stage runs.
pub fn keep_made(
    made: Result<Option<InputConditioner>, Refusal>,
    words: &mut [u64; chain_words::STATE_WORDS],
) -> u64
    ensures code { result ≡ code_of (said_making made) }
    ensures words { (s : InputConditioner) → IfMade made (λ x. x ≡ s) → words.new ≡ words_after result words.old s }
    ensures again { (s : InputConditioner) → IfMade made (λ x. x ≡ s) → state_of words.new ≡ state_after result words.old s }
{
    match made {
        Ok(Some(fresh)) => {
            chain_words::write_state(fresh, words);
            0
        }
        Ok(None) => NOTHING,
        Err(refusal) => refusal.number(),
    }
}

// Makes a chain. If it is made, the state is written and every word of the stores becomes 0; else all
// words stay.
#[unsafe(no_mangle)]
pub extern "C" fn vg_make(
    config: &[u64; config::CONFIG_WORDS],
    state: &mut [u64; chain_words::STATE_WORDS],
    spans: &mut [u64],
    repairs: &mut [u64],
    monitor: &mut [f64],
) -> u64
    ensures after { ◌≡◌ {A = After}
        (record { code = result; state = state.new; spans = spans.new; repairs = repairs.new; monitor = monitor.new })
        (after config.now state.old spans.old repairs.old monitor.old) }
    ensures again { state_of state.new ≡ state_after result state.old (fresh_state (config_in config.now)) }
{
    let asked = config::read_config(config);
    let made = chain_make::with_geometry(asked, spans, repairs, monitor);
    keep_made(made, state)
}
