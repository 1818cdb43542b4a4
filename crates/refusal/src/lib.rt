// Why an operation declines its input. What is refused leaves all as it was.
#![tactic(auto)]

ghost use Rattle.std.specs.Prelude.{◌≡◌};
ghost use Rattle.rules.specs.Answers.{number_in};
ghost use Rattle.refusal.specs.Words.{words_of, number_of};

#[derive(Clone, Copy, Debug, PartialEq, Eq)]
pub enum Refusal {
    // The sample rate is not in 1 to 1e7.
    BadRate,
    // More than 2,048 channels.
    BadSize,
    // Room for no span or more than 256 in a ring, or for no repair or more than 4,096.
    BadCapacity,
    // A lent store has the wrong length.
    BadLength,
    // The state, or a word that is lent with it, is none that a chain can have.
    BadState,
    // The slice is shorter than what is held.
    Short,
    // The sample or channel at this place has a part that is out of range.
    OutOfRange(usize),
    // More than 2^48 samples in all.
    TooMany,
    // A hop starts above 2^48, or before the last one's end.
    Early,
    // The coefficient is not one that a correction uses.
    BadCoefficient,
    // A calibration's gain, phase or centre is out of range.
    BadGain,
    BadPhase,
    BadCentre,
    // A recording's header is short, or not as it has to be.
    BadHeader,
    // A recording's last sample is broken.
    BrokenTail,
}

impl Refusal {
    // The documents' number.
    pub fn number(self) -> u64
        ensures { result ≡ number_in (words_of self) }
    {
        match self {
            Refusal::BadRate => 1,
            Refusal::BadSize => 2,
            Refusal::BadCapacity => 3,
            Refusal::BadLength => 4,
            Refusal::BadState => 5,
            Refusal::Short => 6,
            Refusal::OutOfRange(_) => 7,
            Refusal::TooMany => 8,
            Refusal::Early => 9,
            Refusal::BadCoefficient => 10,
            Refusal::BadGain => 11,
            Refusal::BadPhase => 12,
            Refusal::BadCentre => 13,
            Refusal::BadHeader => 14,
            Refusal::BrokenTail => 17,
        }
    }
}

// The number of an answer, and 0 where nothing is refused.
pub fn number<T>(answer: &Result<T, Refusal>) -> u64
    ensures { result ≡ number_of answer.now }
{
    match answer {
        Ok(_) => 0,
        Err(refusal) => refusal.number(),
    }
}
