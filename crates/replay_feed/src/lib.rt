// A block of a recording's samples, guarded and fed to the chain.
#![tactic(auto)]

ghost use Rattle.std.specs.Prelude.{◌≡◌, ◌*◌, ◌≤◌, length, take};
ghost use Rattle.rules.specs.Answers.{accepted};
ghost use Rattle.refusal.specs.Words.{said_by};
ghost use Rattle.rules.specs.Guard.{guarded, unusable};
ghost use Rattle.chain.specs.Stages.{machine_of};
ghost use Rattle.replay_format.specs.Format.{sample_size, words_in};
ghost use Rattle.replay_feed.specs.Feeding.{fed, replaced_in, taken_in};

use chain_state::InputConditioner;
use refusal::Refusal;
use replay_format::words::SAMPLE_SIZE;

// How many samples are released, how many of the block's samples were replaced by 0, and how many of its
// bytes were taken.
#[derive(Clone, Copy)]
pub struct Fed {
    pub ready: usize,
    pub replaced: u64,
    pub taken: usize,
}

// The first words of the bytes, guarded, and how many were replaced.
fn read_guarded(bytes: &[u8], part: &mut [u64]) -> u64
    requires { sample_size * length part.old ≤ length bytes.now }
    ensures words { part.new ≡ guarded (take (length part.old) (words_in bytes.now)) }
    ensures count { result ≡ unusable (take (length part.old) (words_in bytes.now)) }
{
    replay_format::words::read_words(bytes, part);
    sample_guard::replace_unusable(part)
}

// Feeds the whole samples of a block of bytes, as many as `samples` has room for behind the held
// places, guarded. The held places are not read. A block that is refused leaves all as it was.
pub fn feed(
    state: &mut InputConditioner,
    bytes: &[u8],
    samples: &mut [u64],
    spans: &mut [u64],
    repairs: &mut [u64],
) -> Result<Fed, Refusal>
    ensures answer { said_by (λ f. accepted f.ready) result
        ≡ (fed (machine_of state.old spans.old repairs.old) bytes.now samples.old).said }
    ensures chain { machine_of state.new spans.new repairs.new
        ≡ (fed (machine_of state.old spans.old repairs.old) bytes.now samples.old).machine }
    ensures written { samples.new
        ≡ (fed (machine_of state.old spans.old repairs.old) bytes.now samples.old).samples }
    ensures replaced { replaced_in result
        ≡ (fed (machine_of state.old spans.old repairs.old) bytes.now samples.old).replaced }
    ensures taken { taken_in result ≡ (fed (machine_of state.old spans.old repairs.old) bytes.now samples.old).taken }
{
    let held = state.counts.held.min(samples.len());
    let new = (bytes.len() / SAMPLE_SIZE).min(samples.len() - held);
    let end = held + new;
    chain_call::refusal(state, end, spans, repairs)?;
    let replaced = read_guarded(bytes, &mut samples[held..end]);
    let ready = chain_call::accept(state, &mut samples[..end], spans, repairs);
    Ok(Fed {
        ready,
        replaced,
        taken: SAMPLE_SIZE * new,
    })
}
