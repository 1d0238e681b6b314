// The plan of one group of a pool after another, under a failure record: the permutation is worked
// out once a tile, homes and missing contents once a group, and the rows of coefficients only
// where another set of contents is missing than in the group before.
#![tactic(auto)]

ghost use Rattle.std.specs.Prelude.{◌≡◌, false, ℕ, ◌+◌, ◌≤◌, ◌<◌, get_or, slice_index_or, length};
ghost use Rattle.numbers.specs.Layouts.{Valid, width, frames, contents, all_groups};
ghost use Rattle.numbers.specs.Answers.{Shaped};
ghost use Rattle.place.specs.declared.Place.{Place as PlaceOf};
ghost use Rattle.place.specs.Places.{place_of, tile_permutation};
ghost use Rattle.place.specs.Bytes.{spot};
ghost use Rattle.homes.specs.Standing.{InTile};
ghost use Rattle.homes.specs.Records.{failed, Good};
ghost use Rattle.homes.specs.Missing.{target_at};
ghost use Rattle.survey.specs.Starts.{Sited, StartsUnder, Shifts, Stands};
ghost use Rattle.survey.specs.Surveyed.{Surveyed, Surveying};

use homes::Record;
use numbers::{Layout, Shape};
use place::Place;
use plan::Plan;

// The target of each unit of a group, and where the unit begins in the image.
#[derive(Clone, Copy)]
pub struct Sites {
    pub targets: [u8; 22],
    pub starts: [usize; 22],
}

// Writes what `f` tells of the places of a group's units, from unit `first` on. The divisions are made once, for the first: the others lie in one cell
// after another.
fn fill_by_units<T: Copy, F: Fn(Place) -> T>(
    y: Layout,
    s: Shape,
    to: &[u8; 64],
    g: u64,
    first: u64,
    out: &mut [T],
    f: F,
)
    requires units { InTile y s to.now g × (first < width y) × (first + length out.old ≤ width y) }
    requires callable { (a : PlaceOf) → a.frame < frames y → a.target < y.p → F.pre f a }
    ensures long { length out.new ≡ length out.old }
    ensures each { (c : ℕ) → c < length out.new → (d : T) → F.post f (place_of y g (first + c)) (slice_index_or out.new c d) }
{
    let mut cell = place::cell_of(y, s, g, first);
    for x in out.iter_mut() {
        let a = place::place_at(to, cell);
        *x = f(a);
        cell = place::next_cell(y, cell);
    }
}

// One walk for both: the divisions are made once a group, for its first unit.
pub fn sites_of(y: Layout, s: Shape, to: &[u8; 64], g: u64) -> Sites
    requires { InTile y s to.now g }
    ensures { Sited y g result }
{
    let w = s.w as usize;
    let mut targets = [0u8; 22];
    let mut starts = [0usize; 22];
    let mut cell = place::cell_of(y, s, g, 0);
    for u in 0..w {
        let a = place::place_at(to, cell);
        targets[u] = a.target as u8;
        starts[u] = place::spot_of(y, s, a, 0) as usize;
        cell = place::next_cell(y, cell);
    }
    Sites { targets, starts }
}

// Where `count` of a group's units begin, from unit `first` on.
fn unit_starts(y: Layout, s: Shape, to: &[u8; 64], g: u64, first: u64, count: usize) -> [usize; 19]
    requires { InTile y s to.now g × (first < width y) × (first + count ≤ width y) × (count ≤ 19) }
    ensures { (c : ℕ) → c < count → get_or result c 0 ≡ spot y g (first + c) 0 }
{
    let mut at = [0usize; 19];
    fill_by_units(
        y,
        s,
        to,
        g,
        first,
        &mut at[..count],
        |a| place::spot_of(y, s, a, 0) as usize,
    );
    at
}

// Where a group's contents begin while each is at its own unit.
fn own_starts(y: Layout, s: Shape, to: &[u8; 64], g: u64) -> [usize; 19]
    requires { InTile y s to.now g }
    ensures { (c : ℕ) → c < contents y → get_or result c 0 ≡ spot y g c 0 }
{
    unit_starts(y, s, to, g, 0, (y.n + y.k) as usize)
}

// Where a group's spares begin, which come after its contents.
pub fn spare_starts(y: Layout, s: Shape, to: &[u8; 64], g: u64) -> [usize; 19]
    requires { InTile y s to.now g }
    ensures { (i : ℕ) → i < y.k → get_or result i 0 ≡ spot y g (contents y + i) 0 }
{
    if y.k == 0 {
        return [0; 19];
    }
    unit_starts(y, s, to, g, y.n + y.k, y.k as usize)
}

// Which of a group's contents lie on a failed target while each is at its own unit.
fn own_missing(y: Layout, s: Shape, r: Record, to: &[u8; 64], g: u64) -> [bool; 19]
    requires { Good y r × InTile y s to.now g }
    ensures { (c : ℕ) → c < contents y → get_or result c false ≡ failed r (target_at y g c) }
{
    let m = (y.n + y.k) as usize;
    let k = r.k as usize;
    let mut missing = [false; 19];
    fill_by_units(
        y,
        s,
        to,
        g,
        0,
        &mut missing[..m],
        |a| homes::is_listed(r.failed, k, a.target),
    );
    missing
}

// Where the units that are the homes of m contents begin.
fn home_starts(starts: [usize; 22], homes: [usize; 19], m: usize) -> [usize; 19]
    requires { (m ≤ 19) × ((c : ℕ) → c < m → get_or homes c 0 < 22) }
    ensures { (c : ℕ) → c < m → get_or result c 0 ≡ get_or starts (get_or homes c 0) 0 }
{
    let mut at = [0usize; 19];
    for c in 0..m {
        at[c] = starts[homes[c]];
    }
    at
}

// Where a group's contents begin, and which of them are missing.
#[derive(Clone, Copy)]
pub struct Stand {
    pub at: [usize; 19],
    pub missing: [bool; 19],
}

// Homes are worked out only once something is repaired: before, each content is at its own unit.
pub fn stand_of(y: Layout, s: Shape, r: Record, to: &[u8; 64], g: u64) -> Stand
    requires { Good y r × InTile y s to.now g }
    ensures { Stands y r g result }
{
    if r.q == 0 {
        let at = own_starts(y, s, to, g);
        let missing = own_missing(y, s, r, to, g);
        return Stand { at, missing };
    }
    let spares = y.k as usize;
    let m = (y.n + y.k) as usize;
    let sites = sites_of(y, s, to, g);
    let homes = homes::homes_of(sites.targets, m, spares, r.failed, r.q as usize);
    let missing = homes::missing_of(sites.targets, homes, m, spares, r.failed, r.k as usize);
    let at = home_starts(sites.starts, homes, m);
    Stand { at, missing }
}

// Where a group's contents begin once the whole list is repaired.
pub fn new_starts(y: Layout, s: Shape, r: Record, to: &[u8; 64], g: u64) -> [usize; 19]
    requires { Good y r × InTile y s to.now g }
    ensures { StartsUnder y r r.k g result }
{
    listed_starts(y, r, sites_of(y, s, to, g))
}

// The same of the group whose units are at these sites.
fn listed_starts(y: Layout, r: Record, sites: Sites) -> [usize; 19]
    requires { Valid y × Good y r × ((g : ℕ) × Sited y g sites) }
    ensures { (g : ℕ) → Sited y g sites → StartsUnder y r r.k g result }
{
    let m = (y.n + y.k) as usize;
    let homes = homes::homes_of(sites.targets, m, y.k as usize, r.failed, r.k as usize);
    home_starts(sites.starts, homes, m)
}

// Where a group's contents begin under one record, and where under another.
#[derive(Clone, Copy)]
pub struct Shift {
    pub from: [usize; 19],
    pub to: [usize; 19],
}

// Both records with their whole lists: the units are looked for once.
pub fn shift_of(y: Layout, s: Shape, r: Record, other: Record, to: &[u8; 64], g: u64) -> Shift
    requires { Good y r × Good y other × InTile y s to.now g }
    ensures { Shifts y r other g result }
{
    let sites = sites_of(y, s, to, g);
    Shift {
        from: listed_starts(y, r, sites),
        to: listed_starts(y, other, sites),
    }
}

// The tile whose permutation is in hand, and the plan of the group last looked at.
#[derive(Clone, Copy)]
pub struct Survey {
    pub tile: u64,
    pub to: [u8; 64],
    pub plan: Plan,
}

// Before the first group, which is g: its tile's permutation, and a plan for a group that misses nothing.
pub fn begin(y: Layout, s: Shape, g: u64) -> Survey
    requires { Valid y × Shaped y s }
    ensures { Surveying y result }
{
    let tile = g / s.c;
    let to = place::permutation(y, tile);
    let plan = plan::plan_whole(y.n as usize, y.k as usize, y.u as usize, [0; 19]);
    Survey { tile, to, plan }
}

// The permutation of a tile: the one in hand, or another.
pub fn tile_to(y: Layout, last: u64, to: [u8; 64], tile: u64) -> [u8; 64]
    requires { Valid y × (to ≡ tile_permutation y last) }
    ensures { result ≡ tile_permutation y tile }
{
    if last == tile {
        to
    } else {
        place::permutation(y, tile)
    }
}

// The plan of group g. Where no target has failed, as mostly, there is nothing to look for but where the units begin; where all that failed are
// repaired, nothing but where the contents live now.
pub fn next(last: Survey, y: Layout, s: Shape, r: Record, g: u64) -> Survey
    requires { Surveying y last × Valid y × Shaped y s × Good y r × (g < all_groups y) }
    ensures { Surveying y result × Surveyed y r r.q g result.plan }
{
    let tile = g / s.c;
    let to = tile_to(y, last.tile, last.to, tile);
    if r.k == 0 {
        let at = own_starts(y, s, &to, g);
        let plan = plan::plan_whole(y.n as usize, y.k as usize, y.u as usize, at);
        return Survey { tile, to, plan };
    }
    if r.q == r.k {
        let at = new_starts(y, s, r, &to, g);
        let plan = plan::plan_whole(y.n as usize, y.k as usize, y.u as usize, at);
        return Survey { tile, to, plan };
    }
    let stand = stand_of(y, s, r, &to, g);
    let plan = plan::plan_next(last.plan, stand.at, stand.missing);
    Survey { tile, to, plan }
}
