// What is drawn: layouts, starts, ranges, targets, looks and counts.
ghost use Rattle.std.specs.Prelude.{◌≤◌};

use crate::calls::Run;
use homes::Record;
use numbers::Layout;
use trial::draw;

// A number below n, or 0 where there is none.
fn below(seed: &mut u64, n: u64) -> u64
    ensures { result ≤ n }
{
    if n == 0 { 0 } else { draw(seed, n) }
}

// ---- layouts and starts

fn targets(w: u64, seed: &mut u64) -> u64 {
    let more = if draw(seed, 2) == 0 {
        draw(seed, 4)
    } else {
        below(seed, 65u64.wrapping_sub(w))
    };
    w.wrapping_add(more)
}

fn limit(seed: &mut u64) -> u64 {
    if draw(seed, 8) == 0 { 65535 } else { 4096 }
}

fn unit_bytes(most: u64, seed: &mut u64) -> u64 {
    let longest = if draw(seed, 2) == 0 { 4096 } else { 8 };
    1 + below(seed, most.min(longest))
}

fn units_of_a_tile(w: u64, p: u64) -> u64 {
    let periods = w.checked_div(numbers::gcd(w, p)).unwrap_or(0);
    periods.wrapping_mul(p)
}

// A layout whose image has at most 65,535 bytes.
pub fn layout(seed: &mut u64) -> Layout {
    let n = 1 + draw(seed, 16);
    let k = ((draw(seed, 8) + 1) / 2).min(3);
    let w = n + 2 * k;
    let p = targets(w, seed);
    let most = limit(seed).checked_div(units_of_a_tile(w, p)).unwrap_or(0);
    let u = unit_bytes(most, seed);
    let t = 1 + below(seed, most.checked_div(u).unwrap_or(0).min(32));
    let cookie = trial::high(seed);
    let edition = 1 + draw(seed, 2);
    Layout {
        n,
        k,
        p,
        u,
        t,
        cookie,
        edition,
    }
}

// The list grown to k entries by fails, of which there are at most three: so the count is the true one.
fn grown(start: Run, image: &[u8], k: u64) -> Run {
    let mut run = start;
    for _ in 0..3 {
        if run.rec.k < k {
            let target = run.entry(run.rec.k);
            run = run.with(pool_fail::fail(run.y, run.rec, image, target).unwrap_or(run.rec));
        }
    }
    run
}

// No failure, in a list that holds something.
fn unused_list(seed: &mut u64) -> Record {
    let second = draw(seed, 64);
    let third = draw(seed, 64);
    Record {
        failed: [u64::MAX, second, third],
        k: 0,
        q: 0,
        waiting: 0,
    }
}

// Some targets in a row have failed, the first q of them are repaired, and the image has any bytes.
fn failed_targets(run: Run, image: &mut [u8], seed: &mut u64) -> Run {
    let p = run.y.p;
    let first = below(seed, p);
    let k = below(seed, run.y.k.wrapping_add(1));
    let q = below(seed, k.wrapping_add(1));
    let target = |i: u64| first.wrapping_add(i).checked_rem(p).unwrap_or(0);
    let repaired = run.with(Record {
        failed: [first, target(1), target(2)],
        k: q,
        q,
        waiting: 0,
    });
    trial::fill(seed, image);
    grown(repaired, image, k)
}

// The record and the image that a run starts with.
pub fn start(run: Run, image: &mut [u8], seed: &mut u64) -> Run {
    match draw(seed, 4) {
        0 | 1 => run,
        2 => run.with(unused_list(seed)),
        _ => failed_targets(run, image, seed),
    }
}

// ---- ranges

#[derive(Clone, Copy)]
pub struct Extent {
    pub offset: u64,
    pub length: u64,
}

fn offset(capacity: u64, seed: &mut u64) -> u64 {
    match draw(seed, 16) {
        0 | 1 => 0,
        2 => capacity,
        3 => capacity.wrapping_sub(1),
        4 => capacity.wrapping_add(1),
        5 => u64::MAX,
        _ => trial::wide(seed).checked_rem(capacity).unwrap_or(0),
    }
}

fn length(y: Layout, left: u64, seed: &mut u64) -> u64 {
    match draw(seed, 8) {
        0 => 0,
        1 => 1,
        2 | 3 => 1 + below(seed, y.u.wrapping_mul(3).min(4096)),
        4..=6 => 1 + below(seed, y.n.wrapping_mul(3).wrapping_mul(y.u).min(32768)),
        _ => left,
    }
}

// Mostly within the file, where it begins there.
pub fn range(run: Run, seed: &mut u64) -> Extent {
    let capacity = run.numbers.capacity;
    let offset = offset(capacity, seed);
    let left = capacity.saturating_sub(offset);
    let any = length(run.y, left, seed);
    let length = if draw(seed, 8) != 0 && offset <= capacity {
        any.min(left)
    } else {
        any
    };
    Extent { offset, length }
}

// ---- counts

// Another count: beside the one that stands there, at the bound, or a little below that, where a fail may raise it up
// to the bound or above.
pub fn count(run: Run, seed: &mut u64) -> u64 {
    let now = run.rec.waiting;
    let most = run.contents();
    match draw(seed, 4) {
        0 => now.saturating_sub(1),
        1 => most.min(now.wrapping_add(1)),
        2 => most,
        _ => most.wrapping_sub(below(seed, run.numbers.frames.wrapping_add(1))),
    }
}

// ---- targets and looks

pub fn target(run: Run, seed: &mut u64) -> u64 {
    match draw(seed, 16) {
        0 => run.y.p,
        1 => u64::MAX,
        2 | 3 => run.entry(0),
        _ => below(seed, run.y.p),
    }
}

// Mostly a drive of the list.
pub fn swapped(run: Run, seed: &mut u64) -> u64 {
    match draw(seed, 16) {
        0 => run.y.p,
        1 => u64::MAX,
        2 | 3 => below(seed, run.y.p),
        _ => run.entry(below(seed, run.rec.k)),
    }
}

#[derive(Clone, Copy)]
pub struct View {
    pub group: u64,
    pub content: u64,
    pub length: u64,
}

fn group(groups: u64, seed: &mut u64) -> u64 {
    match draw(seed, 16) {
        0 => groups,
        1 => u64::MAX,
        _ => trial::wide(seed).checked_rem(groups).unwrap_or(0),
    }
}

fn content(m: u64, seed: &mut u64) -> u64 {
    match draw(seed, 16) {
        0 => m,
        1 => u64::MAX,
        _ => below(seed, m),
    }
}

fn scratch(u: u64, seed: &mut u64) -> u64 {
    match draw(seed, 16) {
        0 => u.wrapping_sub(1),
        1 => u.wrapping_add(1),
        _ => u,
    }
}

pub fn look(run: Run, seed: &mut u64) -> View {
    View {
        group: group(run.numbers.groups, seed),
        content: content(run.y.n.wrapping_add(run.y.k), seed),
        length: scratch(run.y.u, seed),
    }
}
