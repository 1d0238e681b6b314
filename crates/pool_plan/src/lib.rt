// The public calls of repair by a proposed plan: the checker, the repair, and our planner. A plan is a slice of numbers, one entry after another, each
// of N+2 numbers: group, content, and the N contents of that group to rebuild it from.
#![tactic(auto)]

ghost use Rattle.std.specs.Prelude.{◌≡◌};
ghost use Rattle.std.specs.Result.{result_unwrap_or};
ghost use Rattle.lists.specs.Numbered.{answer_number};
ghost use Rattle.pool_repair.specs.Stored.{count_of, rec_of};
ghost use Rattle.proposal.specs.Running.{plan_refusal};
ghost use Rattle.proposal.specs.Calls.{RepairsBy, ChecksPlan, Draws};

use homes::Record;
use lists::Refusal;
use numbers::Layout;
use pool_repair::Mended;

// What every call of the pool tests, of an image of `len` bytes, and then that the plan is accepted.
fn check_accepted(y: Layout, r: Record, len: usize, plan: &[u64]) -> Result<(), Refusal>
    ensures { answer_number result ≡ plan_refusal y r len plan.now }
{
    checks::check_pool(y, r, len)?;
    if !proposal_check::plan_good(y, r, plan) {
        return Err(Refusal::BadPlan);
    }
    Ok(())
}

// The checker by itself: what `repair_by` would answer. The image is lent for its length.
pub fn check_plan(y: Layout, r: Record, image: &[u8], plan: &[u64]) -> Result<(), Refusal>
    ensures { ChecksPlan y r image.now plan.now (answer_number result) }
{
    check_accepted(y, r, image.len(), plan)
}

// Repairs everything that is missing, each content from the sources that its entry names and in the plan's order. A refused call changes no byte.
pub fn repair_by(y: Layout, r: Record, image: &mut [u8], plan: &[u64]) -> Result<Mended, Refusal>
    ensures { RepairsBy y r image.old plan.now (answer_number result) (count_of result) (rec_of result r) image.new }
{
    check_accepted(y, r, image.len(), plan)?;
    proposal_run::run_entries(y, r, plan, image);
    let count = plan.len() as u64 / (y.n + 2);
    let failed = r.failed;
    let rec = Record {
        failed,
        k: r.k,
        q: r.k,
        waiting: 0,
    };
    Ok(Mended { count, rec })
}

// Draws the plan up in the buffer, of which the numbers behind it stay as they are; how many numbers it takes. A refused call changes no number. The
// image is lent for its length.
pub fn draw_plan(y: Layout, r: Record, image: &[u8], plan: &mut [u64]) -> Result<u64, Refusal>
    ensures { Draws y r image.now plan.old (answer_number result) (result_unwrap_or result 0) plan.new }
{
    checks::check_pool(y, r, image.len())?;
    let waiting = tally::missing_units(y, r);
    let needed = (y.n + 2) * waiting;
    if (plan.len() as u64) < needed {
        return Err(Refusal::BufferLength);
    }
    proposal_draw::draw(y, r, plan, needed as usize);
    Ok(needed)
}
