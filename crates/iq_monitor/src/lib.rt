// The mirror monitor: evidence of a mirror image in the channels of hops, over lent f64 words. They
// are n powers, n real and n imaginary sums of products, and n for sorting.
#![tactic(auto)]

ghost use Rattle.std.specs.Prelude.{◌≡◌, ◌+◌, ◌-◌, ◌≤◌, ◌<◌, ◌^◌, length, replicate};
ghost use Rattle.rules.specs.Constants.{zero_f, size_limit};
ghost use Rattle.rules.specs.Lists.{all_of};
ghost use Rattle.rules.specs.Monitor.{channel_at, mirror_of, strongest, coherence_of, suspicious, window_length};
ghost use Rattle.complex.specs.Complex.{sample_of, NoNan};
ghost use Rattle.complex.specs.View.{view64};
ghost use Rattle.iq_monitor.specs.Words.{LentWords, Within, power_in, product_in, added_terms, added_channel, added_hop, sum_fits, words_fit};
ghost use Rattle.iq_monitor.specs.Observe.{Among, choice, power_at, EligibleFrom, stronger_of, pair_in, report_in, evidence, full, fresh};
ghost use Rattle.iq_monitor.specs.Observe.{Seen, accepted_of, observed, said, hop_said};

use complex::Complex64;
use refusal::Refusal;

// Evidence from one window. Powers are sums of channel powers, not dB.
#[derive(Clone, Copy, Debug)]
pub struct Evidence {
    pub start: u64,
    pub end: u64,
    pub suspected: bool,
    pub coherence: f64,
    pub floor: f64,
    pub strongest: f64,
    pub mirror: f64,
}

// What a hop that is not refused is answered.
#[derive(Clone, Copy, Debug)]
pub enum Heard {
    // A wrong number of channels, or fewer than 8.
    Nothing,
    NoReport,
    Report(Evidence),
}

#[derive(Clone, Copy, Debug, PartialEq, Eq)]
pub struct ImageMonitor {
    // Where the window that is open starts.
    pub first: Option<u64>,
    // Where the last hop ends.
    pub end: u64,
}

// A channel's power, that of its mirror, and their coherence.
#[derive(Drop)]
struct Pair {
    p: f64,
    q: f64,
    coherence: f64,
}

// The channel that mirrors k, of n.
fn mirror(n: usize, k: usize) -> usize
    requires { k < n }
    ensures { result ≡ mirror_of n k }
{
    if k == 0 { 0 } else { n - k }
}

// Channel k's power, and its product with its mirror.
#[derive(Drop)]
struct Terms {
    power: f64,
    product: Complex64,
}

// The sample of a word, neither of whose parts is a NaN, widened. It has no test for NaN, as `unpack` of
// `complex` has: it runs for every channel of every hop.
fn wide(w: u64) -> Complex64
    requires { NoNan (sample_of w) }
    ensures { view64 result ≡ sample_of w }
{
    let re = (w % 0x1_0000_0000) as u32;
    let im = (w / 0x1_0000_0000) as u32;
    Complex64 {
        re: f32::from_bits(re) as f64,
        im: f32::from_bits(im) as f64,
    }
}

fn terms_of(x: &[u64], k: usize) -> Terms
    requires k_in_bounds { k < length x.now }
    requires within { Within x.now }
    ensures { (result.power ≡ power_in x.now k) × (view64 result.product ≡ product_in x.now k) }
{
    let m = mirror(x.len(), k);
    let v = wide(x[k]);
    let w = wide(x[m]);
    Terms {
        power: v.norm_sqr(),
        product: v * w,
    }
}

// Adds to channel k's words, of n channels, and clears its sorting word.
fn add_terms(words: &mut [f64], n: usize, k: usize, t: Terms)
    requires k_in_bounds { k < n }
    requires lent { LentWords n words.old }
    ensures { words.new ≡ added_terms n words.old k t.power (view64 t.product) }
{
    words[k] += t.power;
    words[n + k] += t.product.re;
    words[2 * n + k] += t.product.im;
    words[3 * n + k] = 0.0;
}

fn add_channel(words: &mut [f64], x: &[u64], k: usize)
    requires k_in_bounds { k < length x.now }
    requires lent { LentWords (length x.now) words.old }
    requires within { Within x.now }
    ensures { words.new ≡ added_channel x.now words.old k }
{
    add_terms(words, x.len(), k, terms_of(x, k));
}

// Adds channel k and its mirror, which is another channel and has the same product.
fn add_pair(words: &mut [f64], x: &[u64], k: usize)
    requires k_positive { 0 < k }
    requires k_below_mirror { k + k < length x.now }
    requires lent { LentWords (length x.now) words.old }
    requires within { Within x.now }
    ensures { words.new ≡ added_channel x.now (added_channel x.now words.old k) (length x.now - k) }
{
    let n = x.len();
    let near = terms_of(x, k);
    let far = Terms {
        power: wide(x[n - k]).norm_sqr(),
        product: near.product,
    };
    add_terms(words, n, k, near);
    add_terms(words, n, n - k, far);
}

// Adds a hop's channels: the one that is its own mirror, then pairs, then the middle one, if there is.
fn add_hop(words: &mut [f64], x: &[u64])
    requires lent { LentWords (length x.now) words.old }
    requires any { 0 < length x.now }
    requires within { Within x.now }
    ensures { words.new ≡ added_hop x.now words.old (length x.now) }
{
    add_channel(words, x, 0);
    let half = (x.len() + 1) / 2;
    // by number: a channel and its mirror are two places
    for k in 1..half {
        add_pair(words, x, k);
    }
    if x.len() % 2 == 0 {
        add_channel(words, x, half);
    }
}

// The stronger of channels j and k, and k if they are equal.
fn stronger(powers: &[f64], j: usize, k: usize) -> usize
    requires j_in_bounds { j < length powers.now }
    requires k_in_bounds { k < length powers.now }
    ensures { (channel_at result ≡ stronger_of powers.now (channel_at j) k) × (result < length powers.now) }
{
    if powers[k] < powers[j] { j } else { k }
}

// The strongest of a channel and those from k on, before the end, all of them eligible.
fn strongest_among(powers: &[f64], first: usize, from: usize, end: usize) -> usize
    requires first_in_bounds { first < length powers.now }
    requires ordered { from ≤ end }
    requires end_in_bounds { end ≤ length powers.now }
    requires eligible { EligibleFrom (length powers.now) from end }
    requires strongest_before { channel_at first ≡ strongest (length powers.now) (power_at powers.now) from }
    ensures { (channel_at result ≡ strongest (length powers.now) (power_at powers.now) end) × (result < length powers.now) }
{
    let mut best = first;
    // by number, which the answer is
    for k in from..end {
        best = stronger(powers, best, k);
    }
    best
}

// The channels that are eligible are those from 3 on and those from 3 past the middle on; of 11
// channels it is one, and of fewer none.
fn strongest_channel(powers: &[f64]) -> Option<usize>
    requires { length powers.now ≤ size_limit }
    ensures { (choice result ≡ strongest (length powers.now) (power_at powers.now) (length powers.now))
        × Among (length powers.now) result }
{
    let n = powers.len();
    if n < 11 {
        return None;
    }
    if n == 11 {
        return Some(8);
    }
    let middle = n / 2;
    let below = strongest_among(powers, 3, 4, middle - 2);
    Some(strongest_among(powers, below, middle + 3, n - 2))
}

// How much of two powers their product sum explains, from 0 to 1.
fn coherence(cross: Complex64, p: f64, q: f64) -> f64
    ensures { result ≡ coherence_of (view64 cross) p q }
{
    let d = p * q;
    if d > 0.0 {
        let c = cross.norm_sqr() / d;
        if c < 0.0 {
            return 0.0;
        }
        if c > 1.0 {
            return 1.0;
        }
        return c;
    }
    0.0
}

// The pair of channel k and its mirror.
fn pair_at(words: &[f64], n: usize, k: usize) -> Pair
    requires lent { LentWords n words.now }
    requires k_in_bounds { k < n }
    ensures { result ≡ pair_in n words.now (channel_at k) }
{
    let p = words[k];
    let q = words[mirror(n, k)];
    let cross = Complex64 {
        re: words[n + k],
        im: words[2 * n + k],
    };
    Pair {
        p,
        q,
        coherence: coherence(cross, p, q),
    }
}

fn pair_of(words: &[f64], n: usize, best: Option<usize>) -> Pair
    requires lent { LentWords n words.now }
    requires among { Among n best }
    ensures { result ≡ pair_in n words.now (choice best) }
{
    match best {
        Some(k) => pair_at(words, n, k),
        None => Pair {
            p: 0.0,
            q: 0.0,
            coherence: 0.0,
        },
    }
}

fn is_suspicious(floor: f64, p: f64, q: f64) -> bool
    ensures { result ≡ suspicious floor p q }
{
    p > 0.0
        && q > 0.0
        && p >= ImageMonitor::RATIO * floor
        && q >= ImageMonitor::MIRROR_RATIO * floor
        && q <= p
}

// The evidence of a window. The sorting words are not kept.
fn report(words: &mut [f64], n: usize, first: u64, end: u64) -> Evidence
    requires lent { LentWords n words.old }
    requires any { 0 < n }
    ensures { result ≡ evidence (report_in n words.old first end) }
{
    let best = strongest_channel(&words[..n]);
    let pair = pair_of(words, n, best);
    let floor = iq_median::floor_power(words, n);
    Evidence {
        start: first,
        end,
        suspected: is_suspicious(floor, pair.p, pair.q),
        coherence: pair.coherence,
        floor,
        strongest: pair.p,
        mirror: pair.q,
    }
}

// Every word becomes 0.
pub fn clear(words: &mut [f64])
    ensures { words.new ≡ replicate (length words.old) zero_f }
{
    words.fill(0.0);
}

// Whether a window from first to end is full.
fn is_due(fs: f64, first: u64, end: u64) -> bool
    ensures { result ≡ full fs first end }
{
    ImageMonitor::window_length(fs) <= end.saturating_sub(first)
}

// The largest size of a monitor word.
const WORD_LIMIT: f64 = 1.0e60;

// Whether a monitor word is within it.
fn word_fits(x: f64) -> bool
    ensures { result ≡ sum_fits x }
{
    -WORD_LIMIT <= x && x <= WORD_LIMIT
}

// Whether all words are. It counts those that are not, and does not stop at the first: at every hop all
// words are tested, and nearly always all fit, so the loop has no branch.
fn all_fit(words: &[f64]) -> bool
    ensures { result ≡ all_of sum_fits words.now }
{
    let mut others: usize = 0;
    for word in words {
        others += !word_fits(*word) as usize;
    }
    others == 0
}

impl ImageMonitor {
    // The lent words for each channel: its power, its product's two parts, and one for sorting.
    pub const CHANNEL_WORDS: usize = 4;
    // How long a window is, in seconds.
    pub const SECONDS: f64 = 5.0;
    // A primary stands so far over the floor, and its mirror so far: 10^0.6.
    pub const RATIO: f64 = 1000.0;

    pub const MIRROR_RATIO: f64 = 3.9810717055349725;

    pub fn fresh() -> ImageMonitor
        ensures { result ≡ fresh }
    {
        ImageMonitor {
            first: None,
            end: 0,
        }
    }

    // How long a window is, in samples.
    pub fn window_length(fs: f64) -> u64
        ensures { result ≡ window_length fs }
    {
        ieee::ceiling(ImageMonitor::SECONDS * fs).max(1)
    }

    // Number 5's rules on the lent words of n channels: each is within 1e60, and no power has its
    // sign bit set.
    pub fn words_fit(words: &[f64], n: usize) -> bool
        requires { n ≤ length words.now }
        ensures { result ≡ words_fit n words.now }
    {
        all_fit(words) && iq_median::all_plain(&words[..n])
    }

    // A hop that is not refused.
    fn accept(&mut self, fs: f64, x: &[u64], start: u64, words: &mut [f64]) -> Heard
        requires lent { LentWords (length x.now) words.old }
        requires any { 0 < length x.now }
        requires start_in_range { start ≤ 2 ^ 48 }
        requires within { Within x.now }
        ensures { ◌≡◌ {A = Seen} (record { monitor = self.new; answer = Ok result; words = words.new })
            (accepted_of self.old fs x.now start words.old) }
    {
        add_hop(words, x);
        let first = self.first.unwrap_or(start);
        let end = start + (x.len() as u64) / 4;
        self.end = end;
        if is_due(fs, first, end) {
            let evidence = report(words, x.len(), first, end);
            clear(words);
            self.first = None;
            return Heard::Report(evidence);
        }
        self.first = Some(first);
        Heard::NoReport
    }

    // A hop of n channels at this start: nothing, 9, 7, or it is added, and reported when a window is full.
    pub fn observe(
        &mut self,
        fs: f64,
        n: usize,
        x: &[u64],
        start: u64,
        words: &mut [f64],
    ) -> Result<Heard, Refusal>
        requires lent { LentWords n words.old }
        ensures seen { ◌≡◌ {A = Seen} (record { monitor = self.new; answer = result; words = words.new })
            (observed self.old fs n x.now start words.old) }
        ensures said { said result ≡ hop_said self.old fs n x.now start words.old }
    {
        if x.len() != n || n < 8 {
            return Ok(Heard::Nothing);
        }
        if stage_log::TOTAL_LIMIT < start || start < self.end {
            return Err(Refusal::Early);
        }
        amplitude_limit::check(x)?;
        Ok(self.accept(fs, x, start, words))
    }
}
