// The public call that marks a target as failed.
#![tactic(auto)]

ghost use Rattle.std.specs.Result.{result_unwrap_or};
ghost use Rattle.lists.specs.Numbered.{answer_number};
ghost use Rattle.pool.specs.Calls.{Fails};

use homes::Record;
use lists::Refusal;
use numbers::Layout;

// The record with one entry more, and the count raised by the contents whose home was on the
// target. The image is lent for its length.
pub fn fail(y: Layout, r: Record, image: &[u8], target: u64) -> Result<Record, Refusal>
    ensures { Fails y r image.now target (answer_number result) (result_unwrap_or result r) }
{
    checks::check_failing(y, r, image.len(), target)?;
    let s = numbers::shape_of(y);
    let contents = numbers::all_contents(y, s.c * y.t);
    let waiting = r.waiting + tally::on_target(y, s, r, target);
    if contents < waiting {
        return Err(Refusal::Record);
    }
    let mut failed = r.failed;
    failed[r.k as usize] = target;
    Ok(Record {
        failed,
        k: r.k + 1,
        q: r.q,
        waiting,
    })
}
