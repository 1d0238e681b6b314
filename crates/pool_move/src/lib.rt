// The public call that moves a pool between editions: a second lent image is filled with the same file in the other edition. The old image is only
// read, and nothing is kept beside the two.
#![tactic(auto)]

ghost use Rattle.std.specs.Prelude.{◌≡◌, length};
ghost use Rattle.lists.specs.Numbered.{answer_number};
ghost use Rattle.numbers.specs.Layouts.{image_length};
ghost use Rattle.numbers.specs.Editions.{other_edition};
ghost use Rattle.pool.specs.Asked.{Sound};
ghost use Rattle.moving.specs.Fresh.{fresh_image};
ghost use Rattle.moving.specs.Moving.{shown_file, move_refusal, Moves};
ghost use Rattle.pool_move.specs.Groups.{Ready, GroupLaid};

use homes::Record;
use lists::Refusal;
use numbers::{Layout, Shape};
use plan::Plan;
use survey::Survey;

// Images of one length are both right or both wrong; of two lengths, one is wrong.
fn check_move(y: Layout, r: Record, old: usize, new: usize) -> Result<(), Refusal>
    ensures { answer_number result ≡ move_refusal y r old new }
{
    if new != old {
        numbers::check(y)?;
        return Err(Refusal::ImageLength);
    }
    checks::check_pool(y, r, old)
}

// Group g by its plan in the old image, where the survey of the new pool, of layout z, is at it too: every unit of the group is stored, contents and
// spares, so what the new image held does not matter.
fn move_group(p: Plan, there: Survey, z: Layout, s: Shape, g: u64, old: &[u8], new: &mut [u8])
    requires { Ready z s g p there (length old.now) (length new.old) }
    ensures { GroupLaid z g p old.now new.old new.new }
{
    group_move::move_contents(p, there.plan, old, new);
    let to = survey::tile_to(z, there.tile, there.to, g / s.c);
    let spares = survey::spare_starts(z, s, &to, g);
    group_move::clear_units(spares, z.k as usize, z.u as usize, new);
}

// One group after another, of both pools: that of the new image has no failures.
fn move_groups(y: Layout, r: Record, z: Layout, old: &[u8], new: &mut [u8])
    requires { Sound y r (length old.now) × (length new.old ≡ image_length y) × (z ≡ other_edition y) }
    ensures { new.new ≡ fresh_image z (shown_file y r old.now) }
{
    let s = numbers::shape_of(y);
    let numbers = numbers::numbers_of(y);
    let groups = numbers.groups;
    let none = Record {
        failed: [0u64; 3],
        k: 0,
        q: 0,
        waiting: 0,
    };
    let mut here = survey::begin(y, s, 0);
    let mut there = survey::begin(z, s, 0);
    for g in 0..groups {
        here = survey::next(here, y, s, r, g);
        there = survey::next(there, z, s, none, g);
        move_group(here.plan, there, z, s, g, old, new);
    }
}

// Fills the new image with the file that reads of the old pool show, in the other edition, under an empty list; with zeros where refused.
pub fn move_edition(y: Layout, r: Record, old: &[u8], new: &mut [u8]) -> Result<(), Refusal>
    ensures { Moves y r old.now (length new.old) (answer_number result) new.new }
{
    let answer = check_move(y, r, old.len(), new.len());
    if answer.is_err() {
        lists::clear(new);
        return answer;
    }
    let z = numbers::other_edition(y);
    move_groups(y, r, z, old, new);
    Ok(())
}
