// One group of a pool in another image, by runs of bytes: its data, as they stand in the old image or rebuilt, at their places in the new one, its
// parities worked out from those, and units of zeros. Nothing is kept beside the two images.
#![tactic(auto)]

ghost use Rattle.std.specs.Prelude.{◌≡◌, ℕ, ◌+◌, ◌<◌, ◌≤◌, length, get_or};
ghost use Rattle.plan.specs.Plans.{at_of, Fits, Apart};
ghost use Rattle.runs.specs.Run.{run_set};
ghost use Rattle.updates.specs.Sources.{Begins};
ghost use Rattle.group_move.specs.Moved.{Meets, byte_stored, contents_moved, units_cleared};

use plan::Plan;

// Content c of the group, from where the plan p finds it in the old image to where q has it in the new one: a data unit as it stands or rebuilt, a
// parity unit worked out from the data units, which are in the new image by then and begin at `starts`.
fn move_content(p: Plan, q: Plan, starts: [usize; 16], old: &[u8], new: &mut [u8], c: usize)
    requires { Fits p (length old.now) × Fits q (length new.old) × Apart q × Meets p q × Begins q 0 starts × (c < p.n + p.k) }
    ensures { new.new ≡ run_set (at_of q c) p.u (byte_stored p q old.now new.old c) new.old }
{
    if c < p.n {
        runs::read_run(p, old, c, 0, new, q.at[c], p.u);
        return;
    }
    updates::put_parity(q, new, &[], starts, 0, q.u, c - p.n);
}

// All contents of the group, one after another: the data units come first.
pub fn move_contents(p: Plan, q: Plan, old: &[u8], new: &mut [u8])
    requires { Fits p (length old.now) × Fits q (length new.old) × Apart q × Meets p q }
    ensures { new.new ≡ contents_moved p q old.now (p.n + p.k) new.old }
{
    let starts = updates::image_starts(q, new.len(), 0);
    for c in 0..p.n + p.k {
        move_content(p, q, starts, old, new, c);
    }
}

// Zeros in `count` units of u bytes.
pub fn clear_units(starts: [usize; 19], count: usize, u: usize, new: &mut [u8])
    requires { (count ≤ 19) × ((i : ℕ) → i < count → get_or starts i 0 + u ≤ length new.old) }
    ensures { new.new ≡ units_cleared starts u count new.old }
{
    for start in &starts[..count] {
        runs::clear_run(new, *start, u);
    }
}
