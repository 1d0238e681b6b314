// The record of failed targets, and where the contents of a group live under it.
#![tactic(auto)]

ghost use Rattle.std.specs.Prelude.{◌≡◌, ℕ, ◌+◌, ◌<◌, ◌≤◌, eqb, ltb};
ghost use Rattle.lists.specs.Pick.{pick};
ghost use Rattle.lists.specs.Search.{all, lowest};
ghost use Rattle.lists.specs.Tabulate.{at};
ghost use Rattle.lists.specs.Numbered.{answer_number};
ghost use Rattle.numbers.specs.Layouts.{Valid, all_contents};
ghost use Rattle.homes.specs.Listed.{listed};
ghost use Rattle.homes.specs.Once.{place_in};
ghost use Rattle.homes.specs.Homes.{free, move};
ghost use Rattle.homes.specs.Records.{entry_good, failures_refusal, record_refusal};
ghost use Rattle.homes.specs.Dropping.{skip, without};
ghost use Rattle.homes.specs.Standing.{Units, HomesAre, MissingAre, Standing};

use lists::Refusal;
use numbers::Layout;

// The targets that have failed, in order: the first k entries, of which the first q are repaired.
// Entries from k on are never read. `waiting` counts the units that wait for repair. Any values may
// stand in it.
#[repr(C)]
#[derive(Clone, Copy)]
pub struct Record {
    pub failed: [u64; 3],
    pub k: u64,
    pub q: u64,
    pub waiting: u64,
}

// Whether t is among the first j entries.
pub fn is_listed(failed: [u64; 3], j: usize, t: u64) -> bool
    requires { j ≤ 3 }
    ensures { result ≡ listed (at failed) j t }
{
    for i in 0..j {
        if failed[i] == t {
            return true;
        }
    }
    false
}

// Whether each of the first k entries is a target and stands there once.
fn entries_good(y: Layout, r: Record) -> bool
    requires { r.k ≤ 3 }
    ensures { result ≡ all (entry_good y r) r.k }
{
    let failed = r.failed;
    let k = r.k as usize;
    for i in 0..k {
        let t = failed[i];
        if y.p <= t {
            return false;
        }
        if is_listed(failed, i, t) {
            return false;
        }
    }
    true
}

// Refused where the list is bad. k and q are tested before any entry is read.
fn check_failures(y: Layout, r: Record) -> Result<(), Refusal>
    requires { Valid y }
    ensures { answer_number result ≡ failures_refusal y r }
{
    if y.k < r.k {
        return Err(Refusal::Record);
    }
    if r.k < r.q {
        return Err(Refusal::Record);
    }
    if !entries_good(y, r) {
        return Err(Refusal::Record);
    }
    Ok(())
}

// Refused where the record is bad: the list, then the count, which may be as high as the contents of all groups.
pub fn check_record(y: Layout, r: Record, contents: u64) -> Result<(), Refusal>
    requires { Valid y × (contents ≡ all_contents y) }
    ensures { answer_number result ≡ record_refusal y r }
{
    check_failures(y, r)?;
    if contents < r.waiting {
        return Err(Refusal::Record);
    }
    Ok(())
}

// The place of target t among the first k entries; k where it is not there.
fn place_of(failed: [u64; 3], k: usize, t: u64) -> usize
    requires { k ≤ 3 }
    ensures { result ≡ place_in (at failed) k t }
{
    for i in 0..k {
        if failed[i] == t {
            return i;
        }
    }
    k
}

// Entry i of the list without the one at `place`; `last` is the last place of the list, which is freed.
fn entry_without(failed: [u64; 3], last: usize, place: usize, i: usize) -> u64
    requires { (last < 3) × (i < 3) }
    ensures { result ≡ pick (ltb i last) (at failed (skip place i)) (pick (eqb i last) 0 (at failed i)) }
{
    if last < i {
        return failed[i];
    }
    if i == last {
        return 0;
    }
    if i < place {
        return failed[i];
    }
    failed[i + 1]
}

// The record once target t, one of the first k entries, has left the list.
pub fn without(r: Record, t: u64) -> Record
    requires { (0 < r.k) × (r.k ≤ 3) × (0 < r.q) }
    ensures { result ≡ without r t }
{
    let old = r.failed;
    let k = r.k;
    let last = k as usize - 1;
    let place = place_of(old, k as usize, t);
    let mut failed = [0u64; 3];
    for i in 0..3 {
        failed[i] = entry_without(old, last, place, i);
    }
    Record {
        failed,
        k: k - 1,
        q: r.q - 1,
        waiting: r.waiting,
    }
}

// Whether unit u is the home of one of m contents.
pub fn is_home(homes: [usize; 19], m: usize, u: usize) -> bool
    requires { m ≤ 19 }
    ensures { result ≡ listed (at homes) m u }
{
    for c in 0..m {
        if homes[c] == u {
            return true;
        }
    }
    false
}

// Whether spare i is no content's home and lies on none of the first j entries.
fn is_free(
    targets: [u8; 22],
    homes: [usize; 19],
    m: usize,
    failed: [u64; 3],
    j: usize,
    i: usize,
) -> bool
    requires { (m ≤ 19) × (m + i < 22) × (j ≤ 3) }
    ensures { result ≡ free (at targets) m (at failed) j (at homes) i }
{
    let u = m + i;
    if is_home(homes, m, u) {
        return false;
    }
    !is_listed(failed, j, u64::from(targets[u]))
}

// The lowest free one of `spares` spares; `spares` where there is none.
fn free_spare(
    targets: [u8; 22],
    homes: [usize; 19],
    m: usize,
    spares: usize,
    failed: [u64; 3],
    j: usize,
) -> usize
    requires { (m ≤ 19) × (m + spares ≤ 22) × (j ≤ 3) }
    ensures { (result ≡ lowest (free (at targets) m (at failed) j (at homes)) spares) × (result ≤ spares) }
{
    for spare in 0..spares {
        if is_free(targets, homes, m, failed, j, spare) {
            return spare;
        }
    }
    spares
}

// The homes once entry j is looked at too: the content whose home is there has moved.
fn moved(
    targets: [u8; 22],
    homes: [usize; 19],
    m: usize,
    spares: usize,
    failed: [u64; 3],
    j: usize,
) -> [usize; 19]
    requires { Units targets homes m spares × (j < 3) }
    ensures { (c : ℕ) → c < m → at result c ≡ move (at targets) m spares (at failed) j (at homes) c }
{
    let to = m + free_spare(targets, homes, m, spares, failed, j + 1);
    let gone = failed[j];
    let mut after = [0usize; 19];
    for c in 0..m {
        let home = homes[c];
        after[c] = if u64::from(targets[home]) == gone {
            to
        } else {
            home
        };
    }
    after
}

// Content c at unit c.
fn own_places() -> [usize; 19]
    ensures { (c : ℕ) → c < 19 → at result c ≡ c }
{
    let mut homes = [0usize; 19];
    for c in 0..19 {
        homes[c] = c;
    }
    homes
}

// The home of each of a group's m contents under the first j entries: a unit of the group, worked
// out once a group.
pub fn homes_of(
    targets: [u8; 22],
    m: usize,
    spares: usize,
    failed: [u64; 3],
    j: usize,
) -> [usize; 19]
    requires { Standing targets m spares j }
    ensures { HomesAre targets m spares failed j result }
{
    let mut homes = own_places();
    for i in 0..j {
        let next = moved(targets, homes, m, spares, failed, i);
        homes = next;
    }
    homes
}

// Which of m contents with these homes lie on one of the first k entries.
pub fn missing_of(
    targets: [u8; 22],
    homes: [usize; 19],
    m: usize,
    spares: usize,
    failed: [u64; 3],
    k: usize,
) -> [bool; 19]
    requires { Units targets homes m spares × (k ≤ 3) }
    ensures { MissingAre targets homes m failed k result }
{
    let mut missing = [false; 19];
    for c in 0..m {
        let home = homes[c];
        missing[c] = is_listed(failed, k, u64::from(targets[home]));
    }
    missing
}
