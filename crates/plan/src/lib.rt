// A group of a pool as read, write and repair go about it: where the unit of each content lies in the image, which contents are missing, and
// the coefficients that rebuild them. What hangs on the missing contents alone is worked out once and kept from group to group.
#![tactic(auto)]

ghost use Rattle.std.specs.Prelude.{◌≡◌, false, [], ℕ, ◌+◌, ◌<◌, ◌≤◌, length, get_or, replicate};
ghost use Rattle.lists.specs.Count.{count};
ghost use Rattle.lists.specs.Those.{those};
ghost use Rattle.parity.specs.Matrix.{flag, RowsFor};
ghost use Rattle.parity.specs.Group.{Solvable};
ghost use Rattle.plan.specs.Plans.{lines_of, Codes, Right, Planned};

// Three rows of coefficients.
pub type Lines = [[u8; 16]; 3];

// n data and k parity units of u bytes. `at`: the image byte where each content's unit begins. `rank`: how many contents below each are
// missing. `slots`: the units that are read where some are missing, and `rows` the coefficients over them of each missing content, lowest
// first. `codes`: the coefficients of each parity unit over the data. `gone`: how many contents are missing.
#[derive(Clone, Copy)]
pub struct Plan {
    pub n: usize,
    pub k: usize,
    pub u: usize,
    pub gone: usize,
    pub at: [usize; 19],
    pub missing: [bool; 19],
    pub rank: [usize; 19],
    pub slots: [usize; 16],
    pub rows: Lines,
    pub codes: Lines,
}

// Row i of three.
pub fn line(l: Lines, i: usize) -> [u8; 16]
    requires { i < 3 }
    ensures { result ≡ get_or (lines_of l) i [] }
{
    l[i]
}

// How many contents below each of the first m are missing.
fn ranks(miss: [bool; 19], m: usize) -> [usize; 19]
    requires { m ≤ 19 }
    ensures { (i : ℕ) → i < m → get_or result i 0 ≡ count (flag miss) i }
{
    let mut r = [0usize; 19];
    let mut c: usize = 0;
    for i in 0..m {
        r[i] = c;
        c += usize::from(miss[i]);
    }
    r
}

// The rows of a set of `gone` missing contents. Where nothing is missing, as mostly, none is read.
fn lines_for(miss: [bool; 19], n: usize, k: usize, gone: usize) -> Lines
    requires { Solvable n k (flag miss) × (gone ≡ length (those (flag miss) (n + k))) }
    ensures { RowsFor n k (flag miss) result }
{
    if gone == 0 {
        return [[0; 16]; 3];
    }
    parity::rows(miss, n, k)
}

// The coefficients of the parity units.
fn codes() -> Lines
    ensures { Codes result }
{
    [systems::row(0), systems::row(1), systems::row(2)]
}

// The plan of a group from nothing.
fn plan_anew(
    n: usize,
    k: usize,
    u: usize,
    at: [usize; 19],
    missing: [bool; 19],
    codes: Lines,
) -> Plan
    requires { Solvable n k (flag missing) × Codes codes }
    ensures { Planned n k u at missing result }
{
    let gone = parity::missing_below(missing, n + k).count;
    Plan {
        n,
        k,
        u,
        gone,
        at,
        missing,
        rank: ranks(missing, n + k),
        slots: parity::slots(missing, n, k),
        rows: lines_for(missing, n, k, gone),
        codes,
    }
}

// The plan of a group that misses nothing, as most do: constants, with no loop to work them out.
pub fn plan_whole(n: usize, k: usize, u: usize, at: [usize; 19]) -> Plan
    requires { (n ≤ 16) × (k ≤ 3) }
    ensures { Planned n k u at (replicate 19 false) result }
{
    Plan {
        n,
        k,
        u,
        gone: 0,
        at,
        missing: [false; 19],
        rank: [0; 19],
        slots: [0, 1, 2, 3, 4, 5, 6, 7, 8, 9, 10, 11, 12, 13, 14, 15],
        rows: [[0; 16]; 3],
        codes: codes(),
    }
}

// The plan of the next group, which keeps all but the places where the same contents are missing.
pub fn plan_next(last: Plan, at: [usize; 19], missing: [bool; 19]) -> Plan
    requires { Right last × Solvable last.n last.k (flag missing) }
    ensures { Planned last.n last.k last.u at missing result }
{
    let contents = last.n + last.k;
    // The field is named before it is sliced: the whole plan would be copied else.
    let flags = last.missing;
    if flags[..contents] == missing[..contents] {
        return Plan { at, ..last };
    }
    plan_anew(last.n, last.k, last.u, at, missing, last.codes)
}
