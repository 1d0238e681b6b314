// Our planner: groups rise, contents rise within each, and the sources are the N lowest present contents. Inner. Each step is given the whole buffer
// and a place in it, and no part of it: its contract says where in the plan each number stands.
#![tactic(auto)]

ghost use Rattle.std.specs.Prelude.{◌≡◌, ◌+◌, ◌*◌, ◌≤◌, length};
ghost use Rattle.lists.specs.Count.{count};
ghost use Rattle.lists.specs.Passing.{over};
ghost use Rattle.lists.specs.Span.{Span};
ghost use Rattle.numbers.specs.Layouts.{Valid, contents};
ghost use Rattle.homes.specs.Records.{Good};
ghost use Rattle.homes.specs.Standing.{InTile};
ghost use Rattle.proposal.specs.Plans.{entry_size};
ghost use Rattle.proposal.specs.Drawing.{drawn_length, drawn_plan};
ghost use Rattle.proposal_draw.specs.Entry.{present_by, lowest_from, entry_from};
ghost use Rattle.proposal_draw.specs.Drawn.{plan_number, numbers_below};

use homes::Record;
use numbers::{Layout, Shape};

// The n lowest of m contents that are not missing, in out[at ..]. There are at least n, so the loop ends by what is
// written, and not at the end of the contents.
fn draw_sources(missing: [bool; 19], m: usize, n: usize, out: &mut [u64], at: usize)
    requires { (m ≤ 19) × (n ≤ count (present_by missing) m) × (at + n ≤ length out.old) }
    ensures { Span (lowest_from missing m at) at (at + n) out.old out.new }
{
    let mut j: usize = 0;
    let mut u: usize = 0;
    while j < n {
        if !missing[u] {
            out[at + j] = u as u64;
            j += 1;
        }
        u += 1;
    }
}

// The entry that names content c of group g, in out[at ..].
fn draw_entry(y: Layout, missing: [bool; 19], g: u64, c: usize, out: &mut [u64], at: usize)
    requires { Valid y × (y.n ≤ count (present_by missing) (contents y)) × (at + entry_size y ≤ length out.old) }
    ensures { Span (entry_from missing (contents y) g c at) at (at + entry_size y) out.old out.new }
{
    out[at] = g;
    out[at + 1] = c as u64;
    draw_sources(missing, (y.n + y.k) as usize, y.n as usize, out, at + 2);
}

// The entries of group g, in out[at ..]; where the next group's begin.
fn draw_group(
    y: Layout,
    s: Shape,
    r: Record,
    to: &[u8; 64],
    g: u64,
    out: &mut [u64],
    at: usize,
) -> usize
    requires { Good y r × InTile y s to.now g × (drawn_length y r ≤ length out.old) × (at ≡ numbers_below y r (contents y * g)) }
    ensures { (result ≡ numbers_below y r (contents y * (g + 1))) × Span (plan_number y r) at result out.old out.new }
{
    let stand = survey::stand_of(y, s, r, to, g);
    let missing = stand.missing;
    let m = (y.n + y.k) as usize;
    let size = y.n as usize + 2;
    let mut next = at;
    for c in 0..m {
        if missing[c] {
            draw_entry(y, missing, g, c, out, next);
            next += size;
        }
    }
    next
}

// The whole plan, of `needed` numbers, in a buffer that has room for it. A permutation is worked out where the tile changes, and the loop ends by
// what is written: after that no group is looked at any more.
pub fn draw(y: Layout, r: Record, out: &mut [u64], needed: usize)
    requires { Valid y × Good y r × (needed ≡ drawn_length y r) × (needed ≤ length out.old) }
    ensures { out.new ≡ over (drawn_plan y r) out.old }
{
    let s = numbers::shape_of(y);
    let mut tile: u64 = 0;
    let mut to = place::permutation(y, 0);
    let mut g: u64 = 0;
    let mut at: usize = 0;
    while at < needed {
        let here = g / s.c;
        to = survey::tile_to(y, tile, to, here);
        tile = here;
        at = draw_group(y, s, r, &to, g, out, at);
        g += 1;
    }
}
