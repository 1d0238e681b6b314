// The tests that the pool's calls make, in the order of document 01's table. Inner: the calls
// themselves are `pool_read`, `pool_write`, `pool_list`, `pool_fail`, `pool_count`, `pool_repair`,
// `pool_plan`, `pool_swap`, `pool_move` and `pool_look`.
#![tactic(auto)]

ghost use Rattle.std.specs.Prelude.{◌≡◌};
ghost use Rattle.lists.specs.Numbered.{answer_number};
ghost use Rattle.numbers.specs.Layouts.{Valid};
ghost use Rattle.numbers.specs.Answers.{Numbered};
ghost use Rattle.pool.specs.Refusals.{repair_refusal, range_refusal, otherwise, look_refusal};
ghost use Rattle.checks.specs.Tests.{inside_of};

use homes::Record;
use lists::Refusal;
use numbers::{Layout, Numbers};

// Image length and record, where the layout is good and these are its numbers.
fn check_stored(y: Layout, r: Record, len: usize, numbers: Numbers) -> Result<(), Refusal>
    requires { Valid y × Numbered y numbers }
    ensures { answer_number result ≡ repair_refusal y r len }
{
    if len as u64 != numbers.image {
        return Err(Refusal::ImageLength);
    }
    homes::check_record(y, r, numbers::all_contents(y, numbers.groups))
}

// Layout, image length and record: all that a repair tests, and what every call tests first.
pub fn check_pool(y: Layout, r: Record, len: usize) -> Result<(), Refusal>
    ensures { answer_number result ≡ repair_refusal y r len }
{
    numbers::check(y)?;
    check_stored(y, r, len, numbers::numbers_of(y))
}

// Whether a range of `size` bytes of a file of `capacity` bytes from `offset` on lies inside.
pub fn is_inside(capacity: u64, offset: u64, size: u64) -> bool
    ensures { result ≡ inside_of capacity offset size }
{
    if capacity < offset {
        return false;
    }
    size <= capacity - offset
}

// A range of `size` bytes of the file from `offset` on. The numbers of the layout, which take divisions, are worked out once for all tests.
pub fn check_range(
    y: Layout,
    r: Record,
    len: usize,
    offset: u64,
    size: usize,
) -> Result<(), Refusal>
    ensures { answer_number result ≡ range_refusal y r len offset size }
{
    numbers::check(y)?;
    let numbers = numbers::numbers_of(y);
    check_stored(y, r, len, numbers)?;
    if !is_inside(numbers.capacity, offset, size as u64) {
        return Err(Refusal::Outside);
    }
    Ok(())
}

// A target that is to fail, but for the test that the count stays within T·C·(N+K).
pub fn check_failing(y: Layout, r: Record, len: usize, target: u64) -> Result<(), Refusal>
    ensures { answer_number result ≡ otherwise y r len target }
{
    check_pool(y, r, len)?;
    if y.p <= target {
        return Err(Refusal::Outside);
    }
    if homes::is_listed(r.failed, r.k as usize, target) {
        return Err(Refusal::FailedAlready);
    }
    if r.k == y.k {
        return Err(Refusal::Dud);
    }
    Ok(())
}

// A look at one content of a group, with a scratch of `room` bytes.
pub fn check_look(
    y: Layout,
    r: Record,
    len: usize,
    room: usize,
    group: u64,
    content: u64,
) -> Result<(), Refusal>
    ensures { answer_number result ≡ look_refusal y r len room group content }
{
    check_pool(y, r, len)?;
    if numbers::numbers_of(y).groups <= group {
        return Err(Refusal::Outside);
    }
    if y.n + y.k <= content {
        return Err(Refusal::Outside);
    }
    if room as u64 != y.u {
        return Err(Refusal::BufferLength);
    }
    Ok(())
}
