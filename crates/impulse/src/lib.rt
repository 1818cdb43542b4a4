// The impulse stage: a trimmed-mean power gate that mends short runs of flagged samples. A sample
// is a word, as `complex` packs it. The arrays are circular by sample number: sample k stands at k
// mod the array's length. A push answers a sample or nothing and what happened beside it; it knows
// no store.
#![tactic(auto)]

ghost use Rattle.std.specs.Prelude.{◌≡◌, true, ◌+◌, ◌-◌, ◌^◌, ◌≤◌, ◌<◌, min};
ghost use Rattle.rules.specs.Impulse.{window_size, lookahead_size, trim_size, standard, next_judged};
ghost use Rattle.impulse.specs.Machine.{setting_of, fresh, grown, entered, with_run, with_neighbour, closing};
ghost use Rattle.impulse.specs.Machine.{closing_pending, ending, ending_pending, flagged_by, judge, verdict, released, push};
ghost use Rattle.impulse.specs.View.{ended_of, judged_of, judged_by, pushed_of};
ghost use Rattle.impulse.specs.Room.{run_end, Room};
ghost use Rattle.impulse_window.specs.Rising.{Rising};

mod runs;

use impulse_pause::PauseEdition;
use stage_log::Repair;

// An open run of flagged samples. `paused`: one of them lies in a paused block.
#[derive(Clone, Copy, PartialEq, Debug)]
pub struct Run {
    pub start: u64,
    pub len: u64,
    pub paused: bool,
}

// What making settled.
#[derive(Clone, Copy)]
pub struct GateSettings {
    pub apply: bool,
    pub edition: PauseEdition,
    pub blocklen: u64,
}

// What a repair is made from: the open run, and its left neighbour, the newest judged sample that is not
// flagged.
#[derive(Clone, Copy, PartialEq, Debug)]
pub struct Mending {
    pub run: Option<Run>,
    pub left: Option<u64>,
}

// A block of samples: its number, how many of its judged samples are flagged, and whether it is paused.
#[derive(Clone, Copy, PartialEq, Debug)]
pub struct Block {
    pub number: u64,
    pub flagged: u64,
    pub paused: bool,
}

// The suppressor's scalars. `block` is the block of the newest judged sample.
#[derive(Clone, Copy)]
pub struct Gate {
    pub settings: GateSettings,
    pub received: u64,
    pub mending: Mending,
    pub block: Block,
}

// The whole state. `sorted` has the window's powers, ascending, and then zeros.
#[derive(Clone, Copy)]
pub struct ImpulseSuppressor {
    pub gate: Gate,
    pub window: [f32; ImpulseSuppressor::WINDOW],
    pub sorted: [f32; ImpulseSuppressor::WINDOW],
    pub pending: [u64; ImpulseSuppressor::LOOKAHEAD],
}

// What became of a run when a sample was judged.
#[derive(Drop)]
pub enum Ended {
    Going,
    Kept { start: u64, len: u64, long: bool },
    Mended(Repair),
}

#[derive(Drop)]
struct Judged {
    uncertain: bool,
    ended: Ended,
}

// What a push said: the sample that it released, if any, and what was judged.
#[derive(Drop)]
pub struct Pushed {
    pub answer: Option<u64>,
    pub uncertain: bool,
    pub ended: Ended,
}

impl ImpulseSuppressor {
    // The reference window, centred on the sample being judged.
    pub const WINDOW: usize = impulse_window::WINDOW;
    // The samples on each side of it.
    pub const HALF_WINDOW: usize = ImpulseSuppressor::WINDOW / 2;
    // The window's strongest powers, left out of the reference: room for two runs that are mended.
    pub const TRIM: usize = 2 * ImpulseSuppressor::MAX_RUN;
    // The longest run that is mended.
    pub const MAX_RUN: usize = 4;
    // How many samples an applying suppressor holds back: half a window, a run and its neighbour.
    pub const LOOKAHEAD: usize = ImpulseSuppressor::HALF_WINDOW + ImpulseSuppressor::MAX_RUN + 1;

    pub fn fresh(blocklen: u64, apply: bool, edition: PauseEdition) -> ImpulseSuppressor
        ensures { result ≡ fresh (standard blocklen apply) edition }
    {
        let gate = Gate {
            settings: GateSettings {
                apply,
                edition,
                blocklen,
            },
            received: 0,
            mending: Mending {
                run: None,
                left: None,
            },
            block: Block {
                number: 0,
                flagged: 0,
                paused: false,
            },
        };
        ImpulseSuppressor {
            gate,
            window: [0.0f32; ImpulseSuppressor::WINDOW],
            sorted: [0.0f32; ImpulseSuppressor::WINDOW],
            pending: [0u64; ImpulseSuppressor::LOOKAHEAD],
        }
    }
}

// The next sample to be judged, of so many received: half a window before the next that comes.
pub fn next_judged(received: u64) -> u64
    ensures { result ≡ next_judged received }
{
    received.saturating_sub(ImpulseSuppressor::HALF_WINDOW as u64)
}

// How many of the window's powers are kept, when n samples have come.
fn kept(n: u64) -> usize
    requires { trim_size ≤ n }
    ensures { result ≡ min n window_size - trim_size }
{
    n.min(ImpulseSuppressor::WINDOW as u64) as usize - ImpulseSuppressor::TRIM
}

// A sample of power p is flagged, when n samples have come. `rising`: it is known that the powers ascend
// from 0 on.
fn is_flagged(sorted: &[f32; ImpulseSuppressor::WINDOW], n: u64, p: f32, rising: bool) -> bool
    requires trimmed { trim_size ≤ n }
    requires rising { rising ≡ true → Rising 0 sorted.now }
    ensures { result ≡ flagged_by window_size trim_size n sorted.now p }
{
    impulse_window::is_flagged(sorted, kept(n), p, rising)
}

// The run that a flagged sample j opens or lengthens.
fn grown(run: Option<Run>, j: u64, paused: bool) -> Run
    requires { run_end run ≤ 2 ^ 52 }
    ensures { result ≡ grown run j paused }
{
    let Some(r) = run else {
        return Run {
            start: j,
            len: 1,
            paused,
        };
    };
    Run {
        start: r.start,
        len: r.len + 1,
        paused: r.paused || paused,
    }
}

// What the i-th sample, x, releases. `out` is the sample whose place it takes.
fn released(apply: bool, i: u64, out: u64, x: u64) -> Option<u64>
    ensures { result ≡ released lookahead_size apply i out x }
{
    if !apply {
        return Some(x);
    }
    if i < ImpulseSuppressor::LOOKAHEAD as u64 {
        return None;
    }
    Some(out)
}

impl Gate {
    // Comes to the block of j.
    fn enter(&mut self, j: u64)
        requires { 0 < self.old.settings.blocklen }
        ensures { self.new ≡ entered self.old j }
    {
        let blocklen = self.settings.blocklen;
        let number = j / blocklen;
        if number == self.block.number {
            return;
        }
        let paused = self
            .settings
            .edition
            .pauses(blocklen, self.block.paused, self.block.flagged);
        self.block = Block {
            number,
            flagged: 0,
            paused,
        };
    }

    // Takes a flagged sample into its run, r.
    fn take_flagged(&mut self, r: Run)
        requires { self.old.block.flagged ≤ 2 ^ 53 }
        ensures { self.new ≡ with_run self.old r }
    {
        self.mending.run = Some(r);
        self.block.flagged += 1;
    }

    // Takes a sample that is not flagged.
    fn take_neighbour(&mut self, x: u64)
        ensures { self.new ≡ with_neighbour self.old x }
    {
        self.mending = Mending {
            run: None,
            left: Some(x),
        };
    }

    // Ends a run at its right neighbour: mends it, or keeps it where it is too long, paused or only observed.
    fn close(&self, r: Run, right: u64, pending: &mut [u64; ImpulseSuppressor::LOOKAHEAD]) -> Ended
        requires { r.start + r.len ≤ 2 ^ 52 }
        ensures result { result ≡ ended_of (closing (setting_of self.now) r pending.old) }
        ensures words { pending.new ≡ closing_pending (setting_of self.now) r self.now.mending.left right pending.old }
    {
        let start = r.start;
        let len = r.len;
        let long = len > ImpulseSuppressor::MAX_RUN as u64;
        if long || r.paused || !self.settings.apply {
            return Ended::Kept { start, len, long };
        }
        let repair = runs::repair(pending, start, len);
        runs::mend(
            pending,
            self.mending.left.unwrap_or(right),
            right,
            start,
            len,
        );
        Ended::Mended(repair)
    }

    // Ends the open run, if there is one.
    fn ending(&self, right: u64, pending: &mut [u64; ImpulseSuppressor::LOOKAHEAD]) -> Ended
        requires { run_end self.now.mending.run ≤ 2 ^ 52 }
        ensures result { result ≡ ended_of (ending (setting_of self.now) self.now.mending.run pending.old) }
        ensures words { pending.new ≡ ending_pending (setting_of self.now) self.now.mending.run self.now.mending.left right pending.old }
    {
        let Some(r) = self.mending.run else {
            return Ended::Going;
        };
        self.close(r, right, pending)
    }
}

impl ImpulseSuppressor {
    // Judges sample j, whose power is p.
    fn judge(&mut self, j: u64, p: f32, rising: bool) -> Judged
        requires room { (0 < self.old.gate.settings.blocklen) × (trim_size ≤ self.old.gate.received) × (self.old.gate.block.flagged ≤ 2 ^ 53)
            × (run_end self.old.gate.mending.run ≤ 2 ^ 52) }
        requires rising { rising ≡ true → Rising 0 self.old.sorted }
        ensures result { result ≡ judged_of (judge (setting_of self.old.gate) self.old.gate j p self.old.sorted self.old.pending) }
        ensures state { self.new
            ≡ judged_by self.old (judge (setting_of self.old.gate) self.old.gate j p self.old.sorted self.old.pending) }
    {
        self.gate.enter(j);
        let uncertain = self.gate.block.paused;
        if is_flagged(&self.sorted, self.gate.received, p, rising) {
            let run = grown(self.gate.mending.run, j, uncertain);
            self.gate.take_flagged(run);
            return Judged {
                uncertain,
                ended: Ended::Going,
            };
        }
        let x = self.pending[runs::place(j)];
        let ended = self.gate.ending(x, &mut self.pending);
        self.gate.take_neighbour(x);
        Judged { uncertain, ended }
    }

    // Judges the sample half a window before sample i, which is in the arrays. The first samples judge none.
    fn verdict(&mut self, i: u64, rising: bool) -> Judged
        requires room { (0 < self.old.gate.settings.blocklen) × (i ≤ self.old.gate.received) × (self.old.gate.block.flagged ≤ 2 ^ 53)
            × (run_end self.old.gate.mending.run ≤ 2 ^ 52) }
        requires rising { rising ≡ true → Rising 0 self.old.sorted }
        ensures result { result
            ≡ judged_of (verdict (setting_of self.old.gate) self.old.gate i self.old.window self.old.sorted self.old.pending) }
        ensures state { self.new
            ≡ judged_by self.old (verdict (setting_of self.old.gate) self.old.gate i self.old.window self.old.sorted self.old.pending) }
    {
        if i < ImpulseSuppressor::HALF_WINDOW as u64 {
            return Judged {
                uncertain: false,
                ended: Ended::Going,
            };
        }
        let j = i - ImpulseSuppressor::HALF_WINDOW as u64;
        let p = self.window[(j % ImpulseSuppressor::WINDOW as u64) as usize];
        self.judge(j, p, rising)
    }

    // Takes the next raw sample. The answer is the sample that is released: of an applying suppressor
    // the one that came LOOKAHEAD samples earlier, mended or not, and else this one.
    pub fn push(&mut self, x: u64) -> Pushed
        requires room { Room self.old.gate }
        ensures result { result ≡ pushed_of (push (setting_of self.old.gate) self.old x) }
        ensures state { self.new ≡ (push (setting_of self.old.gate) self.old x).state }
    {
        let i = self.gate.received;
        let rising = impulse_window::take_in(&mut self.window, &mut self.sorted, i, x);
        let out = runs::hold(&mut self.pending, i, x);
        let answer = released(self.gate.settings.apply, i, out, x);
        self.gate.received = i + 1;
        let d = self.verdict(i, rising);
        Pushed {
            answer,
            uncertain: d.uncertain,
            ended: d.ended,
        }
    }
}
