// How many contents have their home on one target, by a walk over the target's frames, and how many are missing. Inner.
#![tactic(auto)]

ghost use Rattle.std.specs.Prelude.{◌≡◌, ◌≤◌, ◌<◌};
ghost use Rattle.numbers.specs.Layouts.{Valid, frames};
ghost use Rattle.homes.specs.Records.{Good};
ghost use Rattle.pool.specs.Counting.{missing_units, on_target};
ghost use Rattle.pool.specs.Elsewhere.{is_home};
ghost use Rattle.tally.specs.Walking.{Walking, Here, in_tile_of};

use homes::Record;
use numbers::{Layout, Shape};
use place::Unit;

// Whether a unit is a content's home. A content's own place is, since its target is none of the
// repaired ones; for a spare the homes of its group are worked out, unless nothing is repaired.
fn is_home(y: Layout, s: Shape, r: Record, to: &[u8; 64], at: Unit) -> bool
    requires { Here y s r to.now at }
    ensures { result ≡ is_home y r at.group at.unit }
{
    let contents = y.n + y.k;
    if at.unit < contents {
        return true;
    }
    if r.q == 0 {
        return false;
    }
    let m = contents as usize;
    let sites = survey::sites_of(y, s, to, at.group);
    let homes = homes::homes_of(sites.targets, m, y.k as usize, r.failed, r.q as usize);
    homes::is_home(homes, m, at.unit as usize)
}

// In the rows of one tile: its permutation is worked out once, and the target's column found in it once.
fn in_tile(y: Layout, s: Shape, r: Record, target: u64, tile: u64) -> u64
    requires { Walking y s r target × (tile < y.t) }
    ensures { (result ≡ in_tile_of y r target tile) × (result ≤ s.l) }
{
    let to = place::permutation(y, tile);
    let column = tile::column_of(&to, target);
    // Loops here and below, no sums over chains: that a sum fits is what each turn keeps.
    let mut n = 0;
    for row in 0..s.l {
        let unit = place::unit_at(y, s, tile, row, column);
        n += u64::from(is_home(y, s, r, &to, unit));
    }
    n
}

// The contents whose home under the first q entries is on a target that is none of these.
pub fn on_target(y: Layout, s: Shape, r: Record, target: u64) -> u64
    requires { Walking y s r target }
    ensures { (result ≡ on_target y r target) × (result ≤ frames y) }
{
    let mut n = 0;
    for tile in 0..y.t {
        n += in_tile(y, s, r, target, tile);
    }
    n
}

// The missing units counted afresh: those on each failed target that is not repaired.
pub fn missing_units(y: Layout, r: Record) -> u64
    requires { Valid y × Good y r }
    ensures { result ≡ missing_units y r }
{
    let s = numbers::shape_of(y);
    let mut n = 0;
    for &target in &r.failed[r.q as usize..r.k as usize] {
        n += on_target(y, s, r, target);
    }
    n
}
