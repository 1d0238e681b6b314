// Groups and lists of units: drawn ones, and those that are refused.
ghost use Rattle.std.specs.Prelude.{take, ◌≡◌, ◌*◌, ◌<◌, ◌≤◌};
ghost use Rattle.group_trial.specs.Bounds.{Bounded};

use numbers::Layout;
use trial::draw;

// A group's N, K and U.
#[derive(Clone, Copy)]
pub struct Group {
    pub n: u64,
    pub k: u64,
    pub u: u64,
}

// At most four units.
#[derive(Clone, Copy)]
pub struct Units {
    at: [u64; 4],
    count: usize,
    ghost few: { count ≤ 4 },
}

impl Units {
    pub fn list(&self) -> &[u64]
        ensures { result.now ≡ take self.now.count self.now.at }
    {
        &self.at[..self.count]
    }
}

// The product of a number of units and their size.
pub fn times(a: u64, b: u64) -> u64
    requires { (a ≤ 19) × (b ≤ 4096) }
    ensures { result ≤ 77824 }
{
    a * b
}

// One tile on as few targets as hold a group, in edition 1 where N is even.
pub fn layout_of(g: Group) -> Layout
    requires { Bounded g }
{
    Layout {
        n: g.n,
        k: g.k,
        p: g.n + 2 * g.k,
        u: g.u,
        t: 1,
        cookie: 0,
        edition: 1 + g.n % 2,
    }
}

fn unit_bytes(seed: &mut u64) -> u64
    ensures { (1 ≤ result) × (result ≤ 4096) }
{
    let kind = draw(seed, 16);
    if kind < 12 {
        return 1 + draw(seed, 16);
    }
    if kind < 14 {
        return 1 + draw(seed, 256);
    }
    if kind < 15 {
        return 1 + draw(seed, 4096);
    }
    4096
}

pub fn group_by(seed: &mut u64) -> Group
    ensures { Bounded result }
{
    let n = 1 + draw(seed, 16);
    let k = draw(seed, 4);
    let u = unit_bytes(seed);

    // As many bytes as fit the buffer.
    Group {
        n,
        k,
        u: u.min(65535 / (n + k)),
    }
}

// How many units are named, but for a second naming of the first.
fn how_many(seed: &mut u64, k: u64) -> u64
    requires { k ≤ 3 }
    ensures { result ≤ 3 }
{
    if draw(seed, 2) == 0 {
        return draw(seed, k + 1);
    }
    k
}

pub fn units_by(seed: &mut u64, g: Group) -> Units
    requires { Bounded g }
{
    let m = how_many(seed, g.k);
    let contents = g.n + g.k;
    let mut at = [0u64; 4];
    for i in 0..m {
        at[i as usize] = draw(seed, contents);
    }
    let again = draw(seed, 4);
    if again == 0 && 0 < m {
        at[m as usize] = at[0];
        return Units {
            at,
            count: m as usize + 1,
        };
    }
    Units {
        at,
        count: m as usize,
    }
}

// ---- refused calls, by their kind

pub fn refused_layout(g: Group, kind: u64) -> Layout
    requires { Bounded g }
{
    let y = layout_of(g);
    match kind {
        5 => Layout { u: 0, ..y },
        8 => Layout { edition: 0, ..y },
        9 => Layout { edition: 3, ..y },
        _ => y,
    }
}

pub fn refused_length(e: usize, kind: u64) -> usize
    requires { e ≤ 77824 }
{
    match kind {
        3 => e.saturating_sub(1),
        4 | 6 => e + 1,
        7 => 0,
        _ => e,
    }
}

fn some_units(at: [u64; 4], count: usize) -> Units
    requires { count ≤ 4 }
{
    Units { at, count }
}

pub fn refused_units(g: Group, kind: u64) -> Units
    requires { Bounded g }
{
    let beyond = g.n + g.k;
    match kind {
        0 => some_units([0, beyond, 0, 0], 2),
        1 => some_units([u64::MAX, 0, 0, 0], 1),
        3 => some_units([0, 0, 0, 0], 1),
        4 | 8 => some_units([0, 0, 0, 0], 0),
        5 => some_units([beyond, 0, 0, 0], 1),
        6 => some_units([0, 0, 0, beyond], 4),
        _ => some_units([0, 1, 2, 3], g.k as usize + 1),
    }
}
