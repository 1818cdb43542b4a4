// The sample guard: which samples are usable, the first that isn't, and unusable ones replaced by 0. A
// sample is a word, the bits of re in its low half, of im in its high half.
#![tactic(auto)]

ghost use Rattle.std.specs.Prelude.{◌≡◌, length};
ghost use Rattle.rules.specs.Guard.{usable, first_unusable_from, guarded, unusable};
ghost use Rattle.sample_guard.specs.Found.{found};

// The bit pattern of the largest size of a usable part, 1.0e17.
const MAX_PATTERN: u64 = 0x5bb1_a2bc;

// Whether both parts of a sample are usable: their patterns without the sign, up to the limit's. Those of
// infinities and NaNs are above it.
pub fn is_usable(w: u64) -> bool
    ensures { result ≡ usable w }
{
    w % 0x8000_0000 <= MAX_PATTERN && w / 0x1_0000_0000 % 0x8000_0000 <= MAX_PATTERN
}

// The first sample that is not usable. Nearly always there is none, which a test of all tells at once.
pub fn first_unusable(samples: &[u64]) -> Option<usize>
    ensures { result ≡ found (length samples.now) (first_unusable_from 0 samples.now) }
{
    if amplitude_limit::all_under(samples, MAX_PATTERN) {
        return None;
    }
    samples.iter().position(|w| !is_usable(*w))
}

// Replaces every unusable sample by 0, and answers how many there were. A usable one is not written.
pub fn replace_unusable(samples: &mut [u64]) -> u64
    ensures words { samples.new ≡ guarded samples.old }
    ensures count { result ≡ unusable samples.old }
{
    let mut replaced: u64 = 0;
    for w in samples.iter_mut() {
        if !is_usable(*w) {
            *w = 0;
            replaced += 1;
        }
    }
    replaced
}
