// The public call that takes back a target whose drive was swapped for a new one: the contents of the
// pool go to their homes under the list without it.
#![tactic(auto)]

ghost use Rattle.std.specs.Prelude.{◌≡◌, length};
ghost use Rattle.std.specs.Result.{result_unwrap_or};
ghost use Rattle.lists.specs.Numbered.{answer_number};
ghost use Rattle.homes.specs.Dropping.{without};
ghost use Rattle.swapping.specs.Swapping.{swap_refusal, swapped_image, Swaps};
ghost use Rattle.swapping.specs.SwapLaws.{SwapAsked};

use homes::Record;
use lists::Refusal;
use numbers::Layout;

// What every call tests first, then the target: it is one, it is in the list, and all that failed are repaired.
fn check_swap(y: Layout, r: Record, len: usize, target: u64) -> Result<(), Refusal>
    ensures { answer_number result ≡ swap_refusal y r len target }
{
    checks::check_pool(y, r, len)?;
    if y.p <= target {
        return Err(Refusal::Outside);
    }
    if !homes::is_listed(r.failed, r.k as usize, target) {
        return Err(Refusal::NotThere);
    }
    if r.q != r.k {
        return Err(Refusal::NotRepaired);
    }
    Ok(())
}

// One group after another: the permutation is worked out where the tile changes, homes under both lists once a group, and no plan.
fn swap_groups(y: Layout, r: Record, target: u64, image: &mut [u8]) -> Record
    requires { SwapAsked y r (length image.old) target }
    ensures { (result ≡ without r target) × (image.new ≡ swapped_image y r target image.old) }
{
    let less = homes::without(r, target);
    let s = numbers::shape_of(y);
    let numbers = numbers::numbers_of(y);
    let groups = numbers.groups;
    let m = (y.n + y.k) as usize;
    let u = y.u as usize;
    let mut scratch = [0u8; 12288];
    let mut tile: u64 = 0;
    let mut to = place::permutation(y, 0);
    for g in 0..groups {
        let here = g / s.c;
        to = survey::tile_to(y, tile, to, here);
        tile = here;
        let shift = survey::shift_of(y, s, r, less, &to, g);
        group_swap::move_units(shift.from, shift.to, m, u, image, &mut scratch);
    }
    less
}

// Takes the target back; the record without it. A refused call changes no byte.
pub fn swap(y: Layout, r: Record, image: &mut [u8], target: u64) -> Result<Record, Refusal>
    ensures { Swaps y r image.old target (answer_number result) (result_unwrap_or result r) image.new }
{
    check_swap(y, r, image.len(), target)?;
    Ok(swap_groups(y, r, target, image))
}
