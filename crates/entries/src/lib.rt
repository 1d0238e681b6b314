// The records of the catalogue by value: their order, where a search goes on, and what each call makes of what it finds. Every decision of
// the catalogue falls here; the crate `catalogue` runs over the slots.
#![tactic(auto)]

ghost use Rattle.std.specs.Prelude.{◌≡◌, true, false, ◌≤◌, length, replicate};
ghost use Rattle.entries.specs.Wide.{nought, wide_lt, wide_eq};
ghost use Rattle.entries.specs.Blank.{blank};
ghost use Rattle.entries.specs.Key.{key_of, key_lt, key_eq, rising};
ghost use Rattle.entries.specs.Span.{past_count};
ghost use Rattle.entries.specs.Look.{trusted_of, look_of};
ghost use Rattle.entries.specs.Answered.{found_of, changed_of, page_of};
ghost use Rattle.entries.specs.Plans.{answer_of, IsPlaced, insertion_of, deletion_of, shown_of, report_of};

use lists::Refusal;

// The number of a file or of a cob, 128 bits wide: two words, the first the more significant.
#[repr(C)]
#[derive(Clone, Copy, PartialEq, Eq, PartialOrd, Ord, Default, Debug)]
pub struct Wide {
    pub first: u64,
    pub second: u64,
}

// A record of the catalogue: the component object of a file on a device.
#[repr(C)]
#[derive(Clone, Copy, PartialEq, Eq, Default, Debug)]
pub struct Entry {
    pub device: u64,
    pub file: Wide,
    pub cob: Wide,
}

// What a record is found by. A listing takes one too: the device, and the first file number.
#[repr(C)]
#[derive(Clone, Copy, PartialEq, Eq, PartialOrd, Ord, Default, Debug)]
pub struct Key {
    pub device: u64,
    pub file: Wide,
}

pub fn key_of(r: Entry) -> Key
    ensures { result ≡ key_of r }
{
    Key {
        device: r.device,
        file: r.file,
    }
}

// Five zeros.
pub fn blank_entry() -> Entry
    ensures { result ≡ blank }
{
    Entry::default()
}

// The order of two wide numbers: by the first word and then the second. No test decides what is compared next, here and in `below`: the test of
// the order makes a call for each record, and would go another way at each.
pub fn below_wide(a: Wide, b: Wide) -> bool
    ensures { result ≡ wide_lt a b }
{
    (a.first < b.first) | ((a.first == b.first) & (a.second < b.second))
}

// The order of the keys: by device and then file. No other function compares them so.
pub fn below(a: Key, b: Key) -> bool
    ensures { result ≡ key_lt a b }
{
    (a.device < b.device) | ((a.device == b.device) & below_wide(a.file, b.file))
}

pub fn same(a: Key, b: Key) -> bool
    ensures { result ≡ key_eq a b }
{
    a == b
}

// No other function looks into a cob number.
pub fn same_cob(a: Wide, b: Wide) -> bool
    ensures { result ≡ wide_eq a b }
{
    (a.first == b.first) & (a.second == b.second)
}

// ---- the test of the order, and the search among keys that rise

// Whether each key is above the one before it.
pub fn is_rising(s: &[Entry]) -> bool
    ensures { result ≡ rising s.now }
{
    s.is_sorted_by(|a, b| below(key_of(*a), key_of(*b)))
}

// How many records stand below a key: the place of its record.
pub fn place(s: &[Entry], key: Key) -> usize
    requires { rising s.now ≡ true }
    ensures { result ≡ past_count key false s.now }
{
    s.partition_point(|r| below(key_of(*r), key))
}

// How many stand on the device of a key or on one before it: the place where the device ends.
pub fn device_end(s: &[Entry], key: Key) -> usize
    requires { rising s.now ≡ true }
    ensures { result ≡ past_count key true s.now }
{
    s.partition_point(|r| r.device <= key.device)
}

// ---- what a call finds

// How many records may be searched: the count, or none where the catalogue is bad.
pub fn trusted(n: usize, sound: bool) -> usize
    ensures { result ≡ trusted_of n sound }
{
    if sound { n } else { 0 }
}

// What a call finds of its key.
#[derive(Clone, Copy)]
pub struct Look {
    pub n: usize,
    pub len: usize,
    // no refusal 9: a flag, as `trusted` tells from it how many records are searched, and the definitions speak of it
    pub sound: bool,
    // how many records were searched
    pub upto: usize,
    // how many keys are below
    pub at: usize,
    // the cob of the key's record
    pub found: Option<Wide>,
}

// Of the place that a search gave, and the record there.
pub fn look_at(n: usize, len: usize, sound: bool, key: Key, at: usize, there: Entry) -> Look
    ensures { result ≡ look_of n len sound key at there }
{
    let upto = trusted(n, sound);
    let held = at < upto && same(key_of(there), key);
    let found = if held { Some(there.cob) } else { None };
    Look {
        n,
        len,
        sound,
        upto,
        at,
        found,
    }
}

// What a lookup answers: 0 and the cob, or the number of a refusal and zeros.
#[repr(C)]
#[derive(Clone, Copy)]
pub struct Found {
    pub refusal: u64,
    pub cob: Wide,
}

// What an insertion or a deletion answers: 0 and the new count, or the number of a refusal and the old count.
#[repr(C)]
#[derive(Clone, Copy)]
pub struct Changed {
    pub refusal: u64,
    pub count: usize,
}

// What a listing answers.
#[repr(C)]
#[derive(Clone, Copy)]
pub struct Page {
    pub refusal: u64,
    pub count: usize,
    pub more: bool,
    pub next: Wide,
}

impl From<Result<Wide, Refusal>> for Found {
    ghost from_gives = { λ answer found. found ≡ found_of answer };

    fn from(answer: Result<Wide, Refusal>) -> Found {
        match answer {
            Ok(cob) => Found { refusal: 0, cob },
            Err(refusal) => Found {
                refusal: refusal.into(),
                cob: Wide::default(),
            },
        }
    }
}

impl Changed {
    // Of a change of n records: a refused one answers the count that it was given.
    pub fn of(answer: Result<usize, Refusal>, n: usize) -> Changed
        ensures { result ≡ changed_of n answer }
    {
        match answer {
            Ok(count) => Changed { refusal: 0, count },
            Err(refusal) => Changed {
                refusal: refusal.into(),
                count: n,
            },
        }
    }
}

// What an accepted listing answers: how many cobs it wrote, and the file number of the first record that is left out.
#[derive(Clone, Copy, PartialEq, Eq, Debug)]
pub struct Listed {
    pub count: usize,
    pub next: Option<Wide>,
}

impl From<Result<Listed, Refusal>> for Page {
    ghost from_gives = { λ answer page. page ≡ page_of answer };

    fn from(answer: Result<Listed, Refusal>) -> Page {
        match answer {
            Ok(p) => Page {
                refusal: 0,
                count: p.count,
                more: p.next.is_some(),
                next: p.next.unwrap_or_default(),
            },
            Err(refusal) => Page {
                refusal: refusal.into(),
                count: 0,
                more: false,
                next: Wide::default(),
            },
        }
    }
}

pub fn answer(x: Look) -> Result<Wide, Refusal>
    ensures { result ≡ answer_of x }
{
    if !x.sound {
        return Err(Refusal::BadCatalogue);
    }
    x.found.ok_or(Refusal::NotThere)
}

// The way in which the records of a run move.
#[derive(Clone, Copy, PartialEq, Eq, Debug)]
pub enum Way {
    Up,
    Down,
}

// A change: the records in the places `from` up to `end` move by one place, the one that the run pushes out is gone, and `first` stands in the
// place that is left. Then `total` records are in use.
#[derive(Clone, Copy)]
pub struct Plan {
    pub from: usize,
    pub end: usize,
    pub way: Way,
    pub first: Entry,
    pub total: usize,
}

// Where a record goes.
pub fn insertion(x: Look, r: Entry) -> Result<Plan, Refusal>
    requires { IsPlaced x }
    ensures { result ≡ insertion_of x r }
{
    if !x.sound {
        return Err(Refusal::BadCatalogue);
    }
    if x.found.is_some() {
        return Ok(Plan {
            from: x.at,
            end: x.at + 1,
            way: Way::Up,
            first: r,
            total: x.n,
        });
    }
    if x.len <= x.n {
        return Err(Refusal::Full);
    }
    Ok(Plan {
        from: x.at,
        end: x.n + 1,
        way: Way::Up,
        first: r,
        total: x.n + 1,
    })
}

// Which place is freed.
pub fn deletion(x: Look, r: Entry) -> Result<Plan, Refusal>
    requires { IsPlaced x }
    ensures { result ≡ deletion_of x r }
{
    if !x.sound {
        return Err(Refusal::BadCatalogue);
    }
    if !x.found.is_some_and(|cob| same_cob(cob, r.cob)) {
        return Err(Refusal::NotThere);
    }
    let freed = blank_entry();
    Ok(Plan {
        from: x.at,
        end: x.n,
        way: Way::Down,
        first: freed,
        total: x.n - 1,
    })
}

// A listing shows the records in `count` places, from the place `from` on.
#[derive(Clone, Copy)]
pub struct Show {
    pub from: usize,
    pub count: usize,
    // where the first record stands that is left out
    pub after: Option<usize>,
}

// Of the place where the device ends, and the room of the output.
pub fn shown(x: Look, end: usize, room: usize) -> Result<Show, Refusal>
    requires { x.at ≤ end }
    ensures { result ≡ shown_of x end room }
{
    if !x.sound {
        return Err(Refusal::BadCatalogue);
    }
    if room < end - x.at {
        return Ok(Show {
            from: x.at,
            count: room,
            after: Some(x.at + room),
        });
    }
    Ok(Show {
        from: x.at,
        count: end - x.at,
        after: None,
    })
}

// With the first record that is left out.
pub fn report(count: usize, first: Option<Entry>) -> Listed
    ensures { result ≡ report_of count first }
{
    Listed {
        count,
        next: first.map(|r| r.file),
    }
}

// What a refused listing leaves of its output.
pub fn wipe(out: &mut [Wide])
    ensures { out.new ≡ replicate (length out.old) nought }
{
    out.fill(Wide::default());
}
