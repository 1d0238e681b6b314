// A list of writes in one call: "At the end of a session the kiosk has photograph, weight and tag to
// store." A range is a pair, its offset and its length; the tests are made once for the whole list.
#![tactic(auto)]

ghost use Rattle.std.specs.Prelude.{◌≡◌, ℕ, ◌≤◌, ◌<◌, length, Err, IfErr, IfSome, IsNone};
ghost use Rattle.lists.specs.Count.{sum};
ghost use Rattle.lists.specs.First.{first_failing};
ghost use Rattle.checks.specs.Tests.{inside_of};
ghost use Rattle.pool_list.specs.Ranges.{range_offset, range_size, after_ranges, WritesList};
ghost use Rattle.pool_list.specs.Asked.{ListAsked};
ghost use Rattle.pool_list.specs.Told.{told_refusal, told_range};

use homes::Record;
use lists::Refusal;
use numbers::Layout;

// Why a list is refused, and the first range that is outside, counted from 1, where one is.
#[derive(Clone, Copy, Debug, PartialEq, Eq)]
pub struct ListRefusal {
    pub refusal: Refusal,
    pub range: Option<u64>,
}

// The answer as C has it: the refusal's number, and the range; 0 where there is none.
#[repr(C)]
#[derive(Clone, Copy)]
pub struct ListWritten {
    pub refusal: u64,
    pub range: u64,
}

impl From<Result<(), ListRefusal>> for ListWritten {
    ghost from_gives = { λ answer made. (made.refusal ≡ told_refusal answer) × (made.range ≡ told_range answer) };

    fn from(answer: Result<(), ListRefusal>) -> ListWritten {
        match answer {
            Ok(()) => ListWritten {
                refusal: 0,
                range: 0,
            },
            Err(refused) => ListWritten {
                refusal: refused.refusal.into(),
                range: refused.range.unwrap_or(0),
            },
        }
    }
}

fn refused(refusal: Refusal, range: Option<u64>) -> Result<(), ListRefusal>
    ensures { result ≡ Err (record { refusal = refusal; range = range }) }
{
    Err(ListRefusal { refusal, range })
}

// The first range outside a file of `capacity` bytes, counted from 1.
fn first_outside(capacity: u64, ranges: &[[u64; 2]]) -> Option<u64>
    requires { length ranges.now ≤ 64 }
    ensures some { IfSome result (λ m. (0 < m) × (m ≡ first_failing (λ i. inside_of capacity (range_offset ranges.now i) (range_size ranges.now i)) (length ranges.now))) }
    ensures none { IsNone result → first_failing (λ i. inside_of capacity (range_offset ranges.now i) (range_size ranges.now i)) (length ranges.now) ≡ 0 }
{
    for i in 0..ranges.len() {
        let [offset, size] = ranges[i];
        if !checks::is_inside(capacity, offset, size) {
            return Some(i as u64 + 1);
        }
    }
    None
}

// The sum of the lengths. It is taken once all ranges are inside, so it does not wrap.
fn sum_of_lengths(ranges: &[[u64; 2]]) -> u64
    requires { (length ranges.now ≤ 64) × ((i : ℕ) → i < length ranges.now → range_size ranges.now i ≤ 274877906944) }
    ensures { result ≡ sum (range_size ranges.now) (length ranges.now) }
{
    let mut total = 0;
    for i in 0..ranges.len() {
        total += ranges[i][1];
    }
    total
}

// Writes the ranges one after the other.
fn write_ranges(y: Layout, r: Record, image: &mut [u8], ranges: &[[u64; 2]], bytes: &[u8])
    requires { ListAsked y r (length image.old) ranges.now (length bytes.now) }
    ensures { image.new ≡ after_ranges y r image.old ranges.now bytes.now (length ranges.now) }
{
    let mut at = 0;
    for i in 0..ranges.len() {
        let [offset, size] = ranges[i];
        let end = at + size as usize;
        range_write::write_range(y, r, image, offset, &bytes[at..end]);
        at = end;
    }
}

// "Take a list of up to 64 ranges and one buffer with their bytes in order." A range that is answered counts from 1, so that 0 is told where there is
// none and nowhere else.
pub fn write_list(
    y: Layout,
    r: Record,
    image: &mut [u8],
    ranges: &[[u64; 2]],
    bytes: &[u8],
) -> Result<(), ListRefusal>
    ensures told { WritesList y r image.old ranges.now bytes.now (told_refusal result) (told_range result) image.new }
    ensures counted { IfErr result (λ e. IfSome e.range (λ m. 0 < m)) }
{
    if let Err(refusal) = checks::check_pool(y, r, image.len()) {
        return refused(refusal, None);
    }
    if 64 < ranges.len() {
        return refused(Refusal::Outside, None);
    }
    let capacity = numbers::numbers_of(y).capacity;
    if let Some(range) = first_outside(capacity, ranges) {
        return refused(Refusal::Outside, Some(range));
    }
    if sum_of_lengths(ranges) != bytes.len() as u64 {
        return refused(Refusal::BufferLength, None);
    }
    write_ranges(y, r, image, ranges, bytes);
    Ok(())
}
