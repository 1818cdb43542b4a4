// Words of eight bytes, little-endian: a recording's samples, and whether the last one is broken.

ghost use Rattle.std.specs.Prelude.{◌≡◌, ◌+◌, ◌*◌, ◌≤◌, length, take};
ghost use Rattle.refusal.specs.Words.{number_of};
ghost use Rattle.replay_format.specs.Format.{word_at, sample_size, words_in, tail_refusal};

use refusal::Refusal;

// The bytes of a sample.
pub const SAMPLE_SIZE: usize = 8;

// The word of the eight bytes from k on, the low byte first. They are named one by one, so that an edit can read one
// twice (`byte_twice`).
pub fn word_at(bytes: &[u8], k: usize) -> u64
    requires { k + 8 ≤ length bytes.now }
    ensures { result ≡ word_at bytes.now k }
{
    u64::from_le_bytes([
        bytes[k],
        bytes[k + 1],
        bytes[k + 2],
        bytes[k + 3],
        bytes[k + 4],
        bytes[k + 5],
        bytes[k + 6],
        bytes[k + 7],
    ])
}

// The first words of the bytes, as many as there are places.
pub fn read_words(bytes: &[u8], words: &mut [u64])
    requires { sample_size * length words.old ≤ length bytes.now }
    ensures { words.new ≡ take (length words.old) (words_in bytes.now) }
{
    // by number: over `zip` with `iter_mut` a proof knows no element
    for (k, word) in words.iter_mut().enumerate() {
        *word = word_at(bytes, SAMPLE_SIZE * k);
    }
}

// Whether a recording that ends with these bytes, its last block or all behind its header, is whole: number
// 17 if its last sample is broken.
pub fn tail(bytes: &[u8]) -> Result<(), Refusal>
    ensures { number_of result ≡ tail_refusal bytes.now }
{
    if bytes.len() % SAMPLE_SIZE != 0 {
        return Err(Refusal::BrokenTail);
    }
    Ok(())
}
