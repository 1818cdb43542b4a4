// What the stages marked: twelve rings of spans in one lent store, and a ring of repairs in another. A
// ring's numbers are changed in place; its words are a part of the store that is lent on.
#![tactic(auto)]

ghost use Rattle.std.specs.Prelude.{◌≡◌, true, List, [], ◌∷◌, ℕ, ◌+◌, ◌-◌, ◌*◌, ◌%◌, ◌<◌, ◌^◌, length, get_or};
ghost use Rattle.rules.specs.Log.{Sound, repair_width, store_width};
ghost use Rattle.rules.specs.Log.{spans_of};
ghost use Rattle.rules.specs.Log.{ring_number, stage_number, mark_number, span_of, joins, lengthened, roomed, append, mark};
ghost use Rattle.stage_log.specs.View.{stage_of, mark_of, ring_in, marks_in, span_in, Logged, fresh_ring, fresh_marks, fresh_log, fresh_notes, marked_at, words_of_repair};
ghost use Rattle.stage_log.specs.Ready.{Open, Markable, Fits};
ghost use Rattle.stage_log.specs.Check.{end_fits, ring_fits, log_fits, ends_fit, dropped_in_all};

// The words of a repair.
pub const REPAIR_WORDS: usize = 6;

// The words of a span.
pub const SPAN_WORDS: usize = 2;

// The rings of spans.
pub const RINGS: usize = 12;

// The words of the span store for each span that a ring holds.
pub const STORE_WORDS: usize = RINGS * SPAN_WORDS;

// 2^48: the most samples in all, and the last start of a hop or a repair.
pub const TOTAL_LIMIT: u64 = 0x1_0000_0000_0000;

// 2^49: the largest sum of a newest span's start and length.
pub const SUM_LIMIT: u64 = 0x2_0000_0000_0000;

// 2^52: the largest counter.
pub const COUNTER_LIMIT: u64 = 0x10_0000_0000_0000;

#[derive(Clone, Copy, PartialEq, Eq, Debug)]
pub enum Stage {
    Impulse,
    Dc,
    Iq,
}

#[derive(Clone, Copy, PartialEq, Eq, Debug)]
pub enum Mark {
    Repaired,
    Flagged,
    Corrected,
    Uncertain,
}

impl From<Stage> for usize {
    ghost from_gives = { λ stage n. n ≡ stage_number (stage_of stage) };

    fn from(stage: Stage) -> usize {
        match stage {
            Stage::Impulse => 0,
            Stage::Dc => 1,
            Stage::Iq => 2,
        }
    }
}

impl From<Mark> for usize {
    ghost from_gives = { λ kind n. n ≡ mark_number (mark_of kind) };

    fn from(kind: Mark) -> usize {
        match kind {
            Mark::Repaired => 0,
            Mark::Flagged => 1,
            Mark::Corrected => 2,
            Mark::Uncertain => 3,
        }
    }
}

// Where the oldest entry stands, how many there are, and how many were dropped.
#[derive(Clone, Copy, PartialEq, Eq, Debug)]
pub struct Ring {
    pub head: usize,
    pub count: usize,
    pub dropped: u64,
}

// A ring of spans, and how many samples it was told of.
#[derive(Clone, Copy, PartialEq, Eq, Debug)]
pub struct Marks {
    pub samples: u64,
    pub ring: Ring,
}

#[derive(Clone, Copy, PartialEq, Eq, Debug)]
pub struct Log {
    pub marks: [Marks; RINGS],
}

// All that the log is told: the rings of spans, the ring of repairs, and how many runs were too long.
#[derive(Clone, Copy, PartialEq, Eq, Debug)]
pub struct Notes {
    pub log: Log,
    pub repairs: Ring,
    pub longruns: u64,
}

// A span, as a ring holds it.
#[derive(Clone, Copy, PartialEq, Eq, Debug)]
pub struct Span {
    pub start: u64,
    pub len: u64,
}

// A mended run: its first sample, its length, and the words that stood there, unused ones 0.
#[derive(Clone, Copy, PartialEq, Eq, Debug)]
pub struct Repair {
    pub start: u64,
    pub len: u64,
    pub first: u64,
    pub second: u64,
    pub third: u64,
    pub fourth: u64,
}

// The number of a ring.
pub fn ring_number(stage: Stage, kind: Mark) -> usize
    ensures { result ≡ ring_number (stage_of stage) (mark_of kind) }
{
    usize::from(stage) * 4 + usize::from(kind)
}

impl Ring {
    pub fn fresh() -> Ring
        ensures { result ≡ fresh_ring }
    {
        Ring {
            head: 0,
            count: 0,
            dropped: 0,
        }
    }

    // Where the newest entry stands.
    fn newest_place(self, capacity: usize) -> usize
        requires { (0 < self.count) × (self.head < capacity) × (self.head + self.count < 2 ^ 64) }
        ensures { (result ≡ (self.head + (self.count - 1)) % capacity) × (result < capacity) }
    {
        (self.head + (self.count - 1)) % capacity
    }

    // Where the next one goes.
    fn next_place(self, capacity: usize) -> usize
        requires { (self.head < capacity) × (self.head + self.count < 2 ^ 64) }
        ensures { (result ≡ (self.head + self.count) % capacity) × (result < capacity) }
    {
        (self.head + self.count) % capacity
    }

    // The oldest entry goes where the ring is full.
    fn with_room(self, capacity: usize) -> Ring
        requires { (self.head < capacity) × (self.dropped + 1 < 2 ^ 64) }
        ensures { (ws : List ℕ) → ring_in result ws ≡ roomed capacity (ring_in self ws) }
    {
        if self.count < capacity {
            return self;
        }
        Ring {
            head: (self.head + 1) % capacity,
            count: self.count - 1,
            dropped: self.dropped + 1,
        }
    }

    fn with_one_more(self) -> Ring
        requires { self.count + 1 < 2 ^ 64 }
        ensures { (result.head ≡ self.head) × (result.count ≡ self.count + 1) × (result.dropped ≡ self.dropped) }
    {
        Ring {
            count: self.count + 1,
            ..self
        }
    }

    // An entry of so many words, behind the others.
    fn enter(&mut self, words: &mut [u64], capacity: usize, entry: &[u64])
        requires some { 0 < length entry.now }
        requires open_ring { Open (length entry.now) capacity (ring_in self.old words.old) }
        ensures { ring_in self.new words.new ≡ append capacity (ring_in self.old words.old) entry.now }
    {
        let roomy = self.with_room(capacity);
        let place = roomy.next_place(capacity) * entry.len();
        let end = place + entry.len();
        words[place..end].copy_from_slice(entry);
        *self = roomy.with_one_more();
    }

    // A repair, behind the others.
    pub fn record(&mut self, repairs: &mut [u64], capacity: usize, r: Repair)
        requires { Open repair_width capacity (ring_in self.old repairs.old) }
        ensures { ring_in self.new repairs.new ≡ append capacity (ring_in self.old repairs.old) (words_of_repair r) }
    {
        let entry = [r.start, r.len, r.first, r.second, r.third, r.fourth];
        self.enter(repairs, capacity, &entry);
    }
}

// Whether the newest span ends at start. Ring, words and capacity go together here and below: the words are a part of
// the lent store, which a struct would have to hold.
fn joins_newest(ring: Ring, words: &[u64], capacity: usize, start: u64) -> bool
    requires { Open 2 capacity (ring_in ring words.now) }
    ensures { result ≡ joins capacity (ring_in ring words.now) start }
{
    if ring.count == 0 {
        return false;
    }
    let place = ring.newest_place(capacity) * SPAN_WORDS;
    let s = words[place];
    s <= start && start - s == words[place + 1]
}

// Lengthens the newest span by one that begins where it ends.
fn lengthen(ring: Ring, words: &mut [u64], capacity: usize, span: Span)
    requires room { Open 2 capacity (ring_in ring words.old) }
    requires joins { joins capacity (ring_in ring words.old) span.start ≡ true }
    requires end { span.start + span.len < 2 ^ 64 }
    ensures { ring_in ring words.new ≡ lengthened capacity (ring_in ring words.old) span.len }
{
    let place = ring.newest_place(capacity) * SPAN_WORDS + 1;
    words[place] += span.len;
}

impl Marks {
    pub fn fresh() -> Marks
        ensures { result ≡ fresh_marks }
    {
        Marks {
            samples: 0,
            ring: Ring::fresh(),
        }
    }

    // Marks a span in the ring whose words these are.
    pub fn mark(&mut self, words: &mut [u64], capacity: usize, span: Span)
        requires { Markable capacity (marks_in self.old words.old) (span_in span) }
        ensures { marks_in self.new words.new ≡ mark capacity (marks_in self.old words.old) (span_in span) }
    {
        if span.len == 0 {
            return;
        }
        self.samples += span.len;
        if joins_newest(self.ring, words, capacity, span.start) {
            lengthen(self.ring, words, capacity, span);
        } else {
            self.ring.enter(words, capacity, &[span.start, span.len]);
        }
    }
}

impl Notes {
    pub fn fresh() -> Notes
        ensures { result ≡ fresh_notes }
    {
        Notes {
            log: Log::fresh(),
            repairs: Ring::fresh(),
            longruns: 0,
        }
    }
}

impl Log {
    pub fn fresh() -> Log
        ensures { result ≡ fresh_log }
    {
        Log {
            marks: [Marks::fresh(); RINGS],
        }
    }

    // Marks a span in ring number which, whose part of the store is lent on.
    fn mark_at(&mut self, spans: &mut [u64], capacity: usize, which: usize, span: Span)
        requires which_bound { which < 12 }
        requires fits { Fits capacity (record { log = self.old; spans = spans.old }) which (span_in span) }
        ensures { ◌≡◌ {A = Logged} (record { log = self.new; spans = spans.new })
            (marked_at capacity (record { log = self.old; spans = spans.old }) which (span_in span)) }
    {
        let a = which * (capacity * SPAN_WORDS);
        let e = a + capacity * SPAN_WORDS;
        self.marks[which].mark(&mut spans[a..e], capacity, span);
    }

    // Marks a span for a stage.
    pub fn mark(&mut self, spans: &mut [u64], capacity: usize, stage: Stage, kind: Mark, span: Span)
        requires { Fits capacity (record { log = self.old; spans = spans.old }) (ring_number (stage_of stage) (mark_of kind)) (span_in span) }
        ensures { ◌≡◌ {A = Logged} (record { log = self.new; spans = spans.new })
            (marked_at capacity (record { log = self.old; spans = spans.old }) (ring_number (stage_of stage) (mark_of kind)) (span_in span)) }
    {
        self.mark_at(spans, capacity, ring_number(stage, kind), span);
    }
}

// ---- reading

// Span number i of a ring, the oldest first.
pub fn span_at(ring: Ring, words: &[u64], capacity: usize, i: usize) -> Span
    requires sound { Sound 2 capacity (ring_in ring words.now) }
    requires i_lt_count { i < ring.count }
    ensures { span_of result.start result.len ≡ get_or (spans_of capacity (ring_in ring words.now)) i (span_of 0 0) }
{
    let place = (ring.head + i) % capacity * SPAN_WORDS;
    Span {
        start: words[place],
        len: words[place + 1],
    }
}

// Whether the newest span, if there is one, ends in range.
fn end_fits(ring: Ring, words: &[u64], capacity: usize) -> bool
    requires { Sound 2 capacity (ring_in ring words.now) }
    ensures { result ≡ end_fits capacity (ring_in ring words.now) }
{
    if ring.count == 0 {
        return true;
    }
    let place = ring.newest_place(capacity) * SPAN_WORDS;
    let s = words[place];
    s <= SUM_LIMIT && words[place + 1] <= SUM_LIMIT - s
}

// Whether a ring's numbers are in range.
pub fn ring_fits(ring: Ring, count: u64, capacity: usize) -> bool
    ensures { result ≡ ring_fits capacity ring count }
{
    ring.head < capacity
        && ring.count <= capacity
        && ring.dropped <= COUNTER_LIMIT
        && count <= COUNTER_LIMIT
}

impl Log {
    // Whether every ring's numbers are in range.
    pub fn fits(self, capacity: usize) -> bool
        ensures { result ≡ log_fits capacity self }
    {
        for marks in &self.marks {
            if !ring_fits(marks.ring, marks.samples, capacity) {
                return false;
            }
        }
        true
    }

    // Whether every ring's newest span ends in range. The number of a ring says which part of the store is its own.
    pub fn ends_fit(self, spans: &[u64], capacity: usize) -> bool
        requires { (log_fits capacity self ≡ true) × (length spans.now ≡ capacity * store_width) }
        ensures { result ≡ ends_fit capacity (record { log = self; spans = spans.now }) }
    {
        for (k, marks) in self.marks.iter().enumerate() {
            let a = k * (capacity * SPAN_WORDS);
            let e = a + capacity * SPAN_WORDS;
            if !end_fits(marks.ring, &spans[a..e], capacity) {
                return false;
            }
        }
        true
    }

    // How many spans were dropped in all, or the greatest u64 if they are more.
    pub fn dropped(self) -> u64
        ensures { result ≡ dropped_in_all self }
    {
        let mut sum: u64 = 0;
        for marks in &self.marks {
            sum = sum.saturating_add(marks.ring.dropped);
        }
        sum
    }
}
