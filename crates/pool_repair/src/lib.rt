// The public call that repairs the pool: every missing content is stored at its home under the
// whole list of failed targets.
#![tactic(auto)]

ghost use Rattle.std.specs.Prelude.{◌≡◌, length};
ghost use Rattle.lists.specs.Numbered.{answer_number};
ghost use Rattle.numbers.specs.Layouts.{all_groups, image_length};
ghost use Rattle.pool.specs.Asked.{Sound};
ghost use Rattle.pool.specs.Calls.{Repairs};
ghost use Rattle.pool.specs.Repairing.{mended_image};
ghost use Rattle.pool.specs.Counting.{missing_pairs};
ghost use Rattle.pool_repair.specs.Mending.{InHand, GroupMended};
ghost use Rattle.pool_repair.specs.Stored.{count_of, rec_of};

use homes::Record;
use lists::Refusal;
use numbers::{Layout, Shape};
use survey::Survey;

// How many missing contents were stored, and the record after that.
#[derive(Clone, Copy)]
pub struct Mended {
    pub count: u64,
    pub rec: Record,
}

// Stores the missing contents of group g, which the survey is at, at their homes under the whole list.
fn mend_group(w: Survey, y: Layout, s: Shape, r: Record, g: u64, image: &mut [u8])
    requires { InHand y s r g w × (length image.old ≡ image_length y) }
    ensures { GroupMended y r g image.old image.new }
{
    let plan = w.plan;
    if plan.gone == 0 {
        return;
    }
    let to = survey::tile_to(y, w.tile, w.to, g / s.c);
    let starts = survey::new_starts(y, s, r, &to, g);
    groups::repair_group(plan, starts, image);
}

// One group after another; how many contents were missing in all.
fn mend_groups(y: Layout, r: Record, image: &mut [u8]) -> u64
    requires { Sound y r (length image.old) }
    ensures { (result ≡ missing_pairs y r (all_groups y)) × (image.new ≡ mended_image y r image.old) }
{
    let s = numbers::shape_of(y);
    let numbers = numbers::numbers_of(y);
    let groups = numbers.groups;
    let mut survey = survey::begin(y, s, 0);
    let mut count: u64 = 0;
    for g in 0..groups {
        survey = survey::next(survey, y, s, r, g);
        mend_group(survey, y, s, r, g, image);
        count += survey.plan.gone as u64;
    }
    count
}

// Repairs everything that is missing. A refused call changes no byte.
pub fn repair(y: Layout, r: Record, image: &mut [u8]) -> Result<Mended, Refusal>
    ensures { Repairs y r image.old (answer_number result) (count_of result) (rec_of result r) image.new }
{
    checks::check_pool(y, r, image.len())?;
    let count = mend_groups(y, r, image);
    let failed = r.failed;
    let rec = Record {
        failed,
        k: r.k,
        q: r.k,
        waiting: 0,
    };
    Ok(Mended { count, rec })
}
