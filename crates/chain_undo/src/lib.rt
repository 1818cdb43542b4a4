// Repair undo: the originals that the repair ring holds return to their places in a slice of samples.
// It takes every input; what is unfit is refused by document 01's number, and then nothing has changed.
#![tactic(auto)]

ghost use Rattle.std.specs.Prelude.{◌≡◌, true, ◌+◌, ◌≤◌, length};
ghost use Rattle.rules.specs.Lists.{at};
ghost use Rattle.rules.specs.Log.{Sound, repair_width};
ghost use Rattle.rules.specs.Answers.{Said};
ghost use Rattle.rules.specs.Undo.{held_records, returned, undone, undone_all};
ghost use Rattle.refusal.specs.Words.{said_by};
ghost use Rattle.stage_log.specs.View.{ring_in};
ghost use Rattle.chain_undo.specs.Undoing.{record_in, record_fits, records_fit, undo_of};

use chain_state::InputConditioner;
use impulse::ImpulseSuppressor;
use refusal::Refusal;
use stage_log::Ring;

// Whether the record whose words begin at this place has a length of 1 to 4 and starts in range.
fn record_fits(repairs: &[u64], place: usize) -> bool
    requires { place + repair_width ≤ length repairs.now }
    ensures { result ≡ record_fits (record_in repairs.now place) }
{
    let start = repairs[place];
    let len = repairs[place + 1];
    0 < len && len <= ImpulseSuppressor::MAX_RUN as u64 && start <= stage_log::TOTAL_LIMIT
}

// Whether every held record does. The records are counted, here and in `undo_records`: they go round the ring.
fn records_fit(ring: Ring, repairs: &[u64], capacity: usize) -> bool
    requires { Sound repair_width capacity (ring_in ring repairs.now) }
    ensures { result ≡ records_fit (held_records capacity (ring_in ring repairs.now)) }
{
    for i in 0..ring.count {
        if !record_fits(
            repairs,
            (ring.head + i) % capacity * stage_log::REPAIR_WORDS,
        ) {
            return false;
        }
    }
    true
}

// The original of sample k, unless k is outside the slice, which begins with sample `first`.
fn put_back(samples: &mut [u64], first: u64, k: u64, original: u64)
    ensures { samples.new ≡ returned first samples.old k original }
{
    if first <= k && k - first < samples.len() as u64 {
        samples[(k - first) as usize] = original;
    }
}

// The originals of the record whose words begin at this place.
fn undo_record(samples: &mut [u64], first: u64, repairs: &[u64], place: usize)
    requires repair_width_in_bounds { place + repair_width ≤ length repairs.now }
    requires place_value { record_fits (record_in repairs.now place) ≡ true }
    ensures { samples.new ≡ undone first (record_in repairs.now place) (at (record_in repairs.now place) 1) samples.old }
{
    let start = repairs[place];
    // by number: it says which sample an original is of
    for t in 0..repairs[place + 1] {
        put_back(samples, first, start + t, repairs[place + 2 + t as usize]);
    }
}

// Those of every held record, oldest first.
fn undo_records(samples: &mut [u64], first: u64, ring: Ring, repairs: &[u64], capacity: usize)
    requires sound { Sound repair_width capacity (ring_in ring repairs.now) }
    requires repairs_value { records_fit (held_records capacity (ring_in ring repairs.now)) ≡ true }
    ensures { samples.new ≡ undone_all first (held_records capacity (ring_in ring repairs.now)) samples.old }
{
    for i in 0..ring.count {
        undo_record(
            samples,
            first,
            repairs,
            (ring.head + i) % capacity * stage_log::REPAIR_WORDS,
        );
    }
}

// Puts the originals that the repair ring holds back in their places, oldest first. The slice begins
// with sample `first`; originals outside it are skipped.
pub fn revert_repairs(
    state: &InputConditioner,
    repairs: &[u64],
    samples: &mut [u64],
    first: u64,
) -> Result<(), Refusal>
    ensures answer { said_by Said.accepted result ≡ (undo_of state.now repairs.now samples.old first).said }
    ensures written { samples.new ≡ (undo_of state.now repairs.now samples.old first).samples }
{
    if !state.fits() {
        return Err(Refusal::BadState);
    }
    let capacity = state.settings.repairs;
    if repairs.len() != stage_log::REPAIR_WORDS * capacity {
        return Err(Refusal::BadLength);
    }
    let ring = state.notes.repairs;
    if !records_fit(ring, repairs, capacity) {
        return Err(Refusal::BadState);
    }
    undo_records(samples, first, ring, repairs, capacity);
    Ok(())
}
