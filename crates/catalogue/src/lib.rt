// The catalogue of component objects: a lent slice of records, the first n strictly rising by device and then file. Every call tests
// that itself; what it decides is decided in the crate `entries`, but for a count or a place past the slice.
#![tactic(auto)]

ghost use Rattle.std.specs.Prelude.{◌≡◌, ◌≤◌, length, get_or};
ghost use Rattle.entries.specs.Blank.{blank};
ghost use Rattle.entries.specs.Catalogue.{sound};
ghost use Rattle.entries.specs.Answered.{found_of, changed_of, page_of};
ghost use Rattle.entries.specs.Promise.{Lookup, Insert, Delete, Listing};
ghost use Rattle.entries.specs.Roll.{rolled, IsInside};
ghost use Rattle.entries.specs.Listed.{listed};
ghost use Rattle.entries.specs.Look.{scan_of};
ghost use Rattle.entries.specs.Plans.{window_of, record_at};
ghost use Rattle.entries.specs.Listings.{AnyWithin};

use entries::{
    Entry, Key, Listed, Look, Plan, Show, Way, Wide, answer, deletion, device_end, insertion,
    is_rising, key_of, look_at, place, report, shown, trusted, wipe,
};
use lists::Refusal;

// No refusal 9: the count is not above the slice, and the keys of the first n records rise.
fn is_legal(s: &[Entry], n: usize) -> bool
    ensures { result ≡ sound n s.now }
{
    if s.len() < n {
        return false;
    }
    is_rising(&s[..n])
}

// The record at a place, five zeros past the end.
fn peek(s: &[Entry], at: usize) -> Entry
    ensures { result ≡ get_or s.now at blank }
{
    s.get(at).copied().unwrap_or_default()
}

// The test of the order, and the place of a key.
fn scan(s: &[Entry], n: usize, key: Key) -> Look
    ensures { result ≡ scan_of key n s.now }
{
    let sound = is_legal(s, n);
    let at = place(&s[..trusted(n, sound)], key);
    look_at(n, s.len(), sound, key, at, peek(s, at))
}

// The records of a run move by one place, and another one stands in the place that is left: every change of a catalogue. One record at a time is
// carried to the next place, as the library's turns of a slice need `memmove`, which the archive for C is to do without.
fn roll(s: &mut [Entry], plan: Plan)
    requires { IsInside plan (length s.old) }
    ensures { s.new ≡ rolled plan.way plan.from plan.end plan.first s.old }
{
    let run = &mut s[plan.from..plan.end];
    let mut carried = plan.first;
    match plan.way {
        Way::Up => {
            for slot in run.iter_mut() {
                let pushed = *slot;
                *slot = carried;
                carried = pushed;
            }
        }
        Way::Down => {
            for i in (0..run.len()).rev() {
                let pushed = run[i];
                run[i] = carried;
                carried = pushed;
            }
        }
    }
}

// The cobs of records, one after the other. An index names the place: of two iterators side by side the invariant would speak of their inside.
fn list(records: &[Entry], out: &mut [Wide])
    requires { length records.now ≤ length out.old }
    ensures { out.new ≡ listed records.now out.old }
{
    for (i, r) in records.iter().enumerate() {
        out[i] = r.cob;
    }
}

// The record at a place, where one is named.
fn record_at(s: &[Entry], place: Option<usize>) -> Option<Entry>
    ensures { result ≡ record_at s.now place }
{
    place.map(|at| peek(s, at))
}

// What a listing shows: the records of the device from the key on, as many as there is room for, and where it goes on.
fn window(s: &[Entry], n: usize, key: Key, room: usize) -> Result<Show, Refusal>
    ensures shows { result ≡ window_of key n room s.now }
    ensures inside { AnyWithin result (length s.now) room }
{
    let x = scan(s, n, key);
    let end = device_end(&s[..x.upto], key);
    shown(x, end, room)
}

// The cob of a key, or 11.
pub fn lookup(s: &[Entry], n: usize, key: Key) -> Result<Wide, Refusal>
    ensures { Lookup key n s.now (found_of result) }
{
    answer(scan(s, n, key))
}

// Replaces the cob of an equal key, else opens a slot in order, and answers the new count. 10 where all slots are taken and the key is new.
pub fn insert(s: &mut [Entry], n: usize, r: Entry) -> Result<usize, Refusal>
    ensures { Insert r n s.old (changed_of n result) s.new }
{
    let x = scan(s, n, key_of(r));
    let plan = insertion(x, r)?;
    roll(s, plan);
    Ok(plan.total)
}

// Takes a record out that matches in device, file and cob, else 11. The slot that is freed at the end becomes zeros in all five words.
pub fn delete(s: &mut [Entry], n: usize, r: Entry) -> Result<usize, Refusal>
    ensures { Delete r n s.old (changed_of n result) s.new }
{
    let x = scan(s, n, key_of(r));
    let plan = deletion(x, r)?;
    roll(s, plan);
    Ok(plan.total)
}

// The cobs of a device from a file number on, in file order, as many as fit.
pub fn listing(s: &[Entry], n: usize, key: Key, out: &mut [Wide]) -> Result<Listed, Refusal>
    ensures { Listing key n s.now out.old (page_of result) out.new }
{
    match window(s, n, key, out.len()) {
        Ok(w) => {
            list(&s[w.from..w.from + w.count], out);
            Ok(report(w.count, record_at(s, w.after)))
        }
        Err(refusal) => {
            wipe(out);
            Err(refusal)
        }
    }
}
