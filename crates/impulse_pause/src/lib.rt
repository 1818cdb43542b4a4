// Which blocks of samples the impulse stage pauses: the rule's two editions.
#![tactic(auto)]

ghost use Rattle.std.specs.Prelude.{◌≡◌};
ghost use Rattle.rules.specs.Pauses.{second, above_entry, within_exit, pauses};
ghost use Rattle.impulse_pause.specs.View.{edition_of, number_of, numbered};

// The edition of the rule.
#[derive(Clone, Copy, PartialEq, Eq, Debug)]
pub enum PauseEdition {
    First,
    Second,
}

// Whether so many flagged of a block pause the next one.
fn above_entry(blocklen: u64, flagged: u64) -> bool
    ensures { result ≡ above_entry blocklen flagged }
{
    std::num::nearest_u64_to_f64(flagged)
        > PauseEdition::ENTRY_FRACTION * std::num::nearest_u64_to_f64(blocklen)
}

// Whether so few flagged of a paused block end the stretch.
fn within_exit(blocklen: u64, flagged: u64) -> bool
    ensures { result ≡ within_exit blocklen flagged }
{
    std::num::nearest_u64_to_f64(flagged)
        <= PauseEdition::EXIT_FRACTION * std::num::nearest_u64_to_f64(blocklen)
}

// Edition 2. Once a block is paused, the next is too unless so few are flagged.
fn second_pauses(blocklen: u64, was: bool, flagged: u64) -> bool
    ensures { result ≡ pauses second blocklen was flagged }
{
    if was {
        return !within_exit(blocklen, flagged);
    }
    above_entry(blocklen, flagged)
}

impl PauseEdition {
    // The share of a block's samples above which the next block is paused.
    pub const ENTRY_FRACTION: f64 = 0.001;
    // The share up to which a paused block is the last of its stretch, under edition 2.
    pub const EXIT_FRACTION: f64 = 0.0005;

    // Whether a block that begins with this edition is paused: its length, whether the last one was
    // paused, and how many of that were flagged.
    pub fn pauses(self, blocklen: u64, was: bool, flagged: u64) -> bool
        ensures { result ≡ pauses (edition_of self) blocklen was flagged }
    {
        match self {
            PauseEdition::First => above_entry(blocklen, flagged),
            PauseEdition::Second => second_pauses(blocklen, was, flagged),
        }
    }
}

// 1 or 2.
impl From<PauseEdition> for u64 {
    ghost from_gives = { λ edition n. n ≡ number_of edition };

    fn from(edition: PauseEdition) -> u64 {
        match edition {
            PauseEdition::First => 1,
            PauseEdition::Second => 2,
        }
    }
}

// The edition of that number. Any number but 2 says the first.
impl From<u64> for PauseEdition {
    ghost from_gives = { λ number edition. edition ≡ numbered number };

    fn from(number: u64) -> PauseEdition {
        match number {
            2 => PauseEdition::Second,
            _ => PauseEdition::First,
        }
    }
}
