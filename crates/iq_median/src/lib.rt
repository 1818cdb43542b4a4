// The floor of the channels' powers: half the sum of the two in the middle, over lent f64 words. They are
// n powers, 2 n words that stay as they are, and n for sorting.
#![tactic(auto)]

ghost use Rattle.std.specs.Prelude.{Bool, Float, ◌≡◌, ◌+◌, ◌-◌, ◌*◌, ◌/◌, ◌≤◌, ◌<◌, T, length, get_or, take, drop, ◌++◌};
ghost use Rattle.std.specs.Float.{nan, binary64};
ghost use Rattle.std.specs.Float.Ieee.{lt, fits};
ghost use Rattle.ieee.specs.Plain.{sign_clear, Plain};
ghost use Rattle.rules.specs.Lists.{all_of, All};
ghost use Rattle.rules.specs.Sort.{insert, sort};
ghost use Rattle.rules.specs.Monitor.{floor_of, channel_width};
ghost use Rattle.rules.specs.Constants.{size_limit};
ghost use Rattle.iq_median.specs.Select.{passing, below_of, above_of, Window, Turning, Narrowed, Selected, least_above};

// How many words are below one, and how many above.
#[derive(Drop)]
struct Sides {
    below: usize,
    above: usize,
}

// A sorted place is looked for: it is this place of the first count words, sorted. Their bits are
// from low to high, and so many turns are left.
#[derive(Drop)]
struct Search {
    count: usize,
    place: usize,
    low: u64,
    high: u64,
    left: u64,
}

// Moves the word at k up to its place among those behind it, which are sorted.
fn sink(part: &mut [f64], k: usize)
    requires { k < length part.old }
    ensures { part.new ≡ take k part.old ++ insert lt (get_or part.old k nan) (drop (k + 1) part.old) }
{
    let a = part[k];
    let mut i = k;
    // one walk finds the place and moves what stands before it; a search and then a move would be two
    while i + 1 < part.len() && part[i + 1] < a {
        part[i] = part[i + 1];
        i += 1;
    }
    part[i] = a;
}

// Sorts, ascending.
pub fn sort_words(part: &mut [f64])
    ensures { part.new ≡ sort lt part.old }
{
    // from the end: each word sinks into those behind it
    for k in (0..part.len()).rev() {
        sink(part, k);
    }
}

// Half the sum of the two in the middle, from all of the powers sorted, which are put in order.
fn sorted_floor(powers: &mut [f64]) -> f64
    requires { 0 < length powers.old }
    ensures { result ≡ floor_of powers.old }
{
    sort_words(powers);
    let n = powers.len();
    (powers[(n - 1) / 2] + powers[n / 2]) * 0.5
}

// Whether x is no NaN and its sign bit is clear.
fn is_plain(x: f64) -> bool
    ensures { (result ≡ sign_clear x) × T (fits binary64 x) }
{
    if x != x {
        return false;
    }
    f64::to_bits(x) < 0x8000_0000_0000_0000
}

// Whether all are: then their order is total. Those that are not are counted, with no branch in the loop. The monitor's
// test of its words is another: it asks no order, and of the powers alone this is asked.
pub fn all_plain(part: &[f64]) -> bool
    ensures { (result ≡ all_of sign_clear part.now) × All (λ x. T (fits binary64 x)) part.now }
{
    let mut others: usize = 0;
    for x in part {
        others += !is_plain(*x) as usize;
    }
    others == 0
}

// How many words are below p, and how many above.
fn count_sides(part: &[f64], p: f64) -> Sides
    ensures { (result.below ≡ length (below_of p part.now)) × (result.above ≡ length (above_of p part.now)) }
{
    let mut below: usize = 0;
    let mut above: usize = 0;
    for x in part {
        below += (*x < p) as usize;
        above += (p < *x) as usize;
    }
    Sides { below, above }
}

// Moves the words that are kept to the front, in order, and counts them.
fn keep<F: Fn(f64) -> bool>(part: &mut [f64], keeps: F) -> usize
    requires { F.IsAlwaysCallable keeps }
    ensures most { result ≤ length part.old }
    ensures kept { (t : Float → Bool) → ((x : Float) (b : Bool) → F.post keeps x b → b ≡ t x) → take result part.new ≡ passing t part.old }
{
    let mut kept: usize = 0;
    // by number: a word is written behind the one that is read
    for k in 0..part.len() {
        let x = part[k];
        part[kept] = x;
        kept += keeps(x) as usize;
    }
    kept
}

// The one in the middle.
fn median(a: f64, b: f64, c: f64) -> f64
    requires { (Plain binary64 a) × ((Plain binary64 b) × (Plain binary64 c)) }
    ensures { Plain binary64 result }
{
    if a < b {
        if b < c {
            return b;
        }
        if a < c {
            return c;
        }
        return a;
    }
    if a < c {
        return a;
    }
    if b < c {
        return c;
    }
    b
}

impl Search {
    // A power to compare the words of a window with: any is right, and one in their middle is fast.
    // When this took too many turns, the bits that it can have are halved.
    fn pivot(&self, part: &[f64]) -> f64
        requires some { 0 < length part.now }
        requires plain { All (Plain binary64) part.now }
        ensures { Plain binary64 result }
    {
        let middle = part.len() / 2;
        if self.left <= 64 {
            let p = ieee::from_bits64(self.low / 2 + self.high / 2);
            if is_plain(p) {
                return p;
            }
            return part[middle];
        }
        let first = part.len() / 4;
        let last = middle + first;
        median(part[first], part[middle], part[last])
    }

    // The place is among the words below p.
    fn go_below(&mut self, part: &mut [f64], p: f64)
        requires turning { Turning part.old self.old p }
        requires among { self.old.place < length (below_of p (take self.old.count part.old)) }
        ensures { Narrowed part.old self.old part.new self.new }
    {
        let m = self.count;
        self.count = keep(&mut part[..m], |x| x < p);
        self.high = ieee::to_bits64(p);
        self.left -= 1;
    }

    // It is among those above p: so many are not.
    fn go_above(&mut self, part: &mut [f64], p: f64, passed: usize)
        requires turning { Turning part.old self.old p }
        requires counted { passed + length (above_of p (take self.old.count part.old)) ≡ self.old.count }
        requires among { passed ≤ self.old.place }
        ensures { Narrowed part.old self.old part.new self.new }
    {
        let m = self.count;
        self.count = keep(&mut part[..m], |x| p < x);
        self.place -= passed;
        self.low = ieee::to_bits64(p);
        self.left -= 1;
    }

    // It is among those equal to p, and so is the next place if that is before passed.
    fn stay(&mut self, part: &mut [f64], p: f64, passed: usize)
        requires turning { Turning part.old self.old p }
        requires counted { passed + length (above_of p (take self.old.count part.old)) ≡ self.old.count }
        requires before { self.old.place < passed }
        requires behind { length (below_of p (take self.old.count part.old)) ≤ self.old.place }
        ensures { Narrowed part.old self.old part.new self.new }
    {
        part[0] = p;
        part[1] = p;
        self.count = if self.place + 1 < passed { 2 } else { 1 };
        self.place = 0;
        self.left -= 1;
    }

    fn turn(&mut self, part: &mut [f64])
        requires window { Window part.old self.old }
        requires many { 1 < self.old.count }
        requires turns { 0 < self.old.left }
        ensures { Narrowed part.old self.old part.new self.new }
    {
        let m = self.count;
        let p = self.pivot(&part[..m]);
        let r = count_sides(&part[..m], p);
        if self.place < r.below {
            return self.go_below(part, p);
        }
        let passed = m - r.above;
        if passed <= self.place {
            return self.go_above(part, p, passed);
        }
        self.stay(part, p, passed)
    }
}

// Sorts a part of the words, in front, that has the one at this place of all of them sorted. What
// is left when the turns are used up are equals, which are sorted in one pass.
fn select(part: &mut [f64], place: usize) -> Search
    requires inside { place < length part.old }
    requires plain { All (Plain binary64) part.old }
    ensures { Selected part.old place part.new result }
{
    let mut s = Search {
        count: part.len(),
        place,
        low: 0,
        high: 0x7ff0_0000_0000_0000,
        left: 80,
    };
    // each turn narrows the search by what it finds: how many it takes is not known before
    while 16 < s.count && 0 < s.left {
        s.turn(part);
    }
    let m = s.count;
    sort_words(&mut part[..m]);
    s
}

// The least word above p.
fn least_above(part: &[f64], p: f64) -> f64
    ensures { result ≡ least_above p part.now }
{
    let mut least: f64 = 0.0 / 0.0;
    // by number, from the end: the definition compares each word with the least of those behind it
    for k in (0..part.len()).rev() {
        let x = part[k];
        if p < x && !(least < x) {
            least = x;
        }
    }
    least
}

// The power after the sorted place k, whose power is p.
fn next_power(powers: &[f64], k: usize, p: f64) -> f64
    requires next { k + 1 < length powers.now }
    requires plain { All (Plain binary64) powers.now }
    requires power { p ≡ get_or (sort lt powers.now) k nan }
    ensures { result ≡ get_or (sort lt powers.now) (k + 1) nan }
{
    let r = count_sides(powers, p);
    if k + 1 < powers.len() - r.above {
        return p;
    }
    least_above(powers, p)
}

// The power at the upper of the two places in the middle, where p is that at the lower.
fn upper_power(powers: &[f64], spare: &[f64], s: &Search, p: f64) -> f64
    requires some { 0 < length powers.now }
    requires plain { All (Plain binary64) powers.now }
    requires found { Selected powers.now ((length powers.now - 1) / 2) spare.now s.now }
    requires power { p ≡ get_or (sort lt powers.now) ((length powers.now - 1) / 2) nan }
    ensures { result ≡ get_or (sort lt powers.now) (length powers.now / 2) nan }
{
    let low = (powers.len() - 1) / 2;
    if low == powers.len() / 2 {
        return p;
    }
    let next = s.place + 1;
    if next < s.count {
        return spare[next];
    }
    next_power(powers, low, p)
}

// Half the sum of the two powers in the middle, from a selection among the same powers in the spare words.
fn selected_floor(powers: &[f64], spare: &mut [f64]) -> f64
    requires copied { spare.old ≡ powers.now }
    requires some { 0 < length powers.now }
    requires plain { All (Plain binary64) powers.now }
    ensures { result ≡ floor_of powers.now }
{
    let s = select(spare, (powers.len() - 1) / 2);
    let p = spare[s.place];
    let q = upper_power(powers, spare, &s, p);
    (p + q) * 0.5
}

// The powers, over the spare words. By a loop: `copy_from_slice` makes it a call of `memmove` here, and the C library is to
// need `memcpy` and `memset` alone. By number: over `zip` with `iter_mut` a proof knows no element.
fn copy_powers(powers: &[f64], spare: &mut [f64])
    requires { length spare.old ≡ length powers.now }
    ensures { spare.new ≡ powers.now }
{
    for (k, w) in spare.iter_mut().enumerate() {
        *w = powers[k];
    }
}

// The order of powers is total unless there is a NaN or a set sign bit.
pub fn floor_power(words: &mut [f64], n: usize) -> f64
    requires store { length words.old ≡ channel_width * n }
    requires few { n ≤ size_limit }
    requires some { 0 < n }
    ensures { result ≡ floor_of (take n words.old) }
{
    let (powers, rest) = words.split_at_mut(n);
    let from = 2 * n;
    let spare = &mut rest[from..];
    copy_powers(powers, spare);
    if all_plain(powers) {
        return selected_floor(powers, spare);
    }
    sorted_floor(spare)
}
