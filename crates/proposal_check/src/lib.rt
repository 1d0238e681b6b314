// The checker of a proposed plan: is each missing content named once, each of its sources a different present content of its group, and nothing
// else named. No scratch is lent for it and there is no heap, so that nothing is named twice is seen window by window, with local marks. Inner.
#![tactic(auto)]

ghost use Rattle.std.specs.Prelude.{◌≡◌, List, ℕ, ◌*◌, ◌≤◌, length, get_or};
ghost use Rattle.lists.specs.Search.{all};
ghost use Rattle.numbers.specs.Layouts.{Valid};
ghost use Rattle.homes.specs.Records.{Good};
ghost use Rattle.homes.specs.Standing.{InTile};
ghost use Rattle.proposal.specs.Plans.{entry_size, entries, plan_good};
ghost use Rattle.proposal_check.specs.Checked.{entries_good};
ghost use Rattle.proposal_check.specs.Marks.{weight_of};
ghost use Rattle.proposal_check.specs.Windows.{window_good};
ghost use Rattle.proposal_check.specs.Entry.{source_good_by, IsEntry, rank_if_good};
ghost use Rattle.proposal_check.specs.Steps.{Asked};

use homes::Record;
use numbers::{Layout, Shape};

// The sources of an entry: each below m, not missing, and none of those before it.
fn sources_good(missing: [bool; 19], m: usize, sources: &[u64]) -> bool
    requires { m ≤ 19 }
    ensures { result ≡ all (source_good_by missing m sources.now) (length sources.now) }
{
    let mut taken = missing;
    for &source in sources {
        let x = source as usize;
        if m <= x || taken[x] {
            return false;
        }
        taken[x] = true;
    }
    true
}

// The rank, among the missing contents of its group, of what an entry names; none where the entry is not good. The permutation of the group's tile is
// in hand.
fn entry_rank(y: Layout, s: Shape, r: Record, to: &[u8; 64], entry: &[u64]) -> Option<usize>
    requires { Good y r × InTile y s to.now (get_or entry.now 0 0) × (length entry.now ≡ entry_size y) }
    ensures { (plan : List ℕ) (e : ℕ) → IsEntry y plan e entry.now → result ≡ rank_if_good y r plan e }
{
    let m = (y.n + y.k) as usize;
    let stand = survey::stand_of(y, s, r, to, entry[0]);
    let missing = stand.missing;
    let c = entry[1] as usize;
    if m <= c || !missing[c] {
        return None;
    }
    if !sources_good(missing, m, &entry[2..]) {
        return None;
    }
    let below = parity::missing_below(missing, c);
    Some(below.count)
}

// The weight of a rank in a group's mark.
#[tactic(auto, unfolding(crate::specs::Marks::weight_of))]
fn weight(rank: usize) -> u8
    ensures { result ≡ weight_of rank }
{
    if rank == 0 {
        1
    } else if rank == 1 {
        2
    } else {
        4
    }
}

// One pass over the plan, for the groups 65,536·w .. 65,536·(w + 1): every entry names a group of the pool, and those of the window are good and name
// no content twice. A group's mark has a bit for each of its missing contents, by rank.
fn window_good(y: Layout, s: Shape, r: Record, groups: u64, plan: &[u64], w: u64) -> bool
    requires { Asked y s r groups plan.now w }
    ensures { result ≡ window_good y r plan.now 65536 w }
{
    let mut marks = [0u8; 65536];
    let mut tile = 65536 * w / s.c;
    let mut to = place::permutation(y, tile);
    for entry in plan.chunks_exact(y.n as usize + 2) {
        let g = entry[0];
        if groups <= g {
            return false;
        }
        if g / 65536 == w {
            let here = g / s.c;
            to = survey::tile_to(y, tile, to, here);
            tile = here;
            let Some(rank) = entry_rank(y, s, r, &to, entry) else {
                return false;
            };
            let h = (g % 65536) as usize;
            let bit = weight(rank);
            if (marks[h] / bit) % 2 == 1 {
                return false;
            }
            marks[h] += bit;
        }
    }
    true
}

// Every window of the pool's groups.
fn windows_good(y: Layout, r: Record, plan: &[u64]) -> bool
    requires { Valid y × Good y r × (entry_size y * entries y plan.now ≡ length plan.now) }
    ensures { result ≡ entries_good y r plan.now }
{
    let s = numbers::shape_of(y);
    let numbers = numbers::numbers_of(y);
    let groups = numbers.groups;
    for w in 0..groups.div_ceil(65536) {
        if !window_good(y, s, r, groups, plan, w) {
            return false;
        }
    }
    true
}

// Whole entries, as many as units await repair, each good, and none names what another does.
pub fn plan_good(y: Layout, r: Record, plan: &[u64]) -> bool
    requires { Valid y × Good y r }
    ensures { result ≡ plan_good y r plan.now }
{
    let size = y.n as usize + 2;
    let len = plan.len();
    if len % size != 0 {
        return false;
    }
    let waiting = tally::missing_units(y, r);
    if (len / size) as u64 != waiting {
        return false;
    }
    windows_good(y, r, plan)
}
