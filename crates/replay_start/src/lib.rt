// A recording's start: the chain that its header makes.
#![tactic(auto)]

ghost use Rattle.std.specs.Prelude.{◌≡◌, length};
ghost use Rattle.rules.specs.Constants.{zero_f};
ghost use Rattle.chain_make.specs.Making.{IfMade, said_making, made_words};
ghost use Rattle.replay_start.specs.Starting.{start_said, start_state};

use chain_state::InputConditioner;
use refusal::Refusal;

// Makes the chain of a header's bytes, with the span store, the repair store and the monitor's words: 14,
// and then making. Whether the recording is whole shows at its end: `replay_format::words::tail`.
pub fn start(
    head: &[u8],
    spans: &mut [u64],
    repairs: &mut [u64],
    words: &mut [f64],
) -> Result<Option<InputConditioner>, Refusal>
    ensures answer { said_making result
        ≡ start_said head.now (length spans.old) (length repairs.old) (length words.old) }
    ensures state { IfMade result (λ s. s ≡ start_state head.now) }
    ensures spans { spans.new
        ≡ made_words 0
        (start_said head.now (length spans.old) (length repairs.old) (length words.old))
        spans.old }
    ensures repairs { repairs.new
        ≡ made_words 0
        (start_said head.now (length spans.old) (length repairs.old) (length words.old))
        repairs.old }
    ensures words { words.new
        ≡ made_words zero_f
        (start_said head.now (length spans.old) (length repairs.old) (length words.old))
        words.old }
{
    let config = replay_format::header::header(head)?;
    chain_make::with_geometry(config, spans, repairs, words)
}
