// Read, write and repair of one group of the pool, by runs of bytes.
#![tactic(auto)]

ghost use Rattle.std.specs.Prelude.{◌≡◌, ◌+◌, ◌-◌, ◌*◌, ◌≤◌, ◌<◌, min, max, length, get_or};
ghost use Rattle.lists.specs.Pick.{pick};
ghost use Rattle.plan.specs.Plans.{at_of, miss_of, Fits, Apart};
ghost use Rattle.runs.specs.Run.{run_set};
ghost use Rattle.runs.specs.Held.{held_run};
ghost use Rattle.lists.specs.Lays.{Lays};
ghost use Rattle.groups.specs.Write.{on_at, on_in, val_at, Named, Cut, Uncut};
ghost use Rattle.groups.specs.Cuts.{unit_from};
ghost use Rattle.groups.specs.Read.{unit_read, group_read};
ghost use Rattle.groups.specs.Mend.{group_mended, MendFits};

use plan::Plan;
use updates::Run;

// Byte `offset` of data unit `unit`.
#[derive(Clone, Copy)]
pub struct Spot {
    pub unit: usize,
    pub offset: usize,
}

// The first byte that is named, and the first after those that are.
#[derive(Clone, Copy)]
pub struct Ends {
    pub first: Spot,
    pub after: Spot,
}

impl Spot {
    // The first unit of which the byte at unit offset lo is at or after this one, where no unit offset in between is cut.
    fn unit_from(self, lo: usize) -> usize
        requires { self.unit < 16 }
        ensures { result ≡ unit_from self.unit self.offset lo }
    {
        if lo < self.offset {
            self.unit + 1
        } else {
            self.unit
        }
    }
}

// ---- writing

// The ends of the named bytes in a group whose data begin at file byte s.
fn ends_of(n: usize, u: usize, s: usize, a: usize, count: usize) -> Ends
    requires { (n ≤ 16) × (u ≤ 4096) × Named n u s a count }
    ensures { Cut n u s a (a + count) result.first.unit result.first.offset result.after.unit result.after.offset }
{
    let first = a.saturating_sub(s);
    let last = (a + count).saturating_sub(s).min(n * u) - 1;
    Ends {
        first: Spot {
            unit: first / u,
            offset: first % u,
        },
        after: Spot {
            unit: last / u,
            offset: last % u + 1,
        },
    }
}

// Writes to the unit offsets lo .. hi, which neither end of the named bytes cuts.
fn write_part(
    p: Plan,
    image: &mut [u8],
    bytes: &[u8],
    s: usize,
    a: usize,
    ends: Ends,
    lo: usize,
    hi: usize,
)
    requires { Fits p (length image.old) × Apart p × Cut p.n p.u s a (a + length bytes.now) ends.first.unit ends.first.offset ends.after.unit ends.after.offset
        × Uncut p.u ends.first.offset ends.after.offset lo hi × (s ≤ 17592186044416) }
    ensures { Lays (p.n + p.k) p.u (at_of p) (on_in lo hi p s a (length bytes.now))
        (val_at p image.old bytes.now s a) image.old image.new }
{
    let from = ends.first.unit_from(lo);
    let to = ends.after.unit_from(lo);
    if to <= from || hi <= lo {
        return;
    }
    let run = Run {
        group_at: s,
        bytes_at: a,
        from,
        units: to - from,
        lo,
        len: hi - lo,
    };
    updates::write_run(p, image, bytes, run);
}

// Writes the bytes that fall into the group whose data begin at file byte s; the bytes begin at file byte a.
pub fn write_group(p: Plan, image: &mut [u8], bytes: &[u8], s: usize, a: usize)
    requires { Fits p (length image.old) × Apart p × Named p.n p.u s a (length bytes.now) }
    ensures { Lays (p.n + p.k) p.u (at_of p) (on_at p s a (length bytes.now)) (val_at p image.old bytes.now s a) image.old image.new }
{
    let ends = ends_of(p.n, p.u, s, a, bytes.len());
    let low = ends.first.offset.min(ends.after.offset);
    let high = ends.first.offset.max(ends.after.offset);
    write_part(p, image, bytes, s, a, ends, 0, low);
    write_part(p, image, bytes, s, a, ends, low, high);
    write_part(p, image, bytes, s, a, ends, high, p.u);
}

// ---- repair

// Stores content c, where it is missing, rebuilt, at its new home.
pub fn mend_unit(p: Plan, homes: [usize; 19], image: &mut [u8], c: usize)
    requires { Fits p (length image.old) × MendFits p homes (length image.old) × (c < p.n + p.k) }
    ensures { image.new ≡ pick (miss_of p c) (run_set (get_or homes c 0) p.u (held_run p image.old 0 c) image.old) image.old }
{
    // The field is named before it is indexed: the whole plan would be copied else.
    let missing = p.missing;
    if missing[c] {
        runs::mend_run(p, image, c, homes[c]);
    }
}

// Stores each missing content, rebuilt, at its new home, one unit after another in rising order. A store changes no present content, so what
// the later ones are rebuilt from is what stood there at first.
pub fn repair_group(p: Plan, homes: [usize; 19], image: &mut [u8])
    requires { Fits p (length image.old) × MendFits p homes (length image.old) }
    ensures { image.new ≡ group_mended p homes image.old }
{
    for c in 0..p.n + p.k {
        mend_unit(p, homes, image, c);
    }
}

// ---- reading

// The named bytes of data unit v, which begins at file byte b; out begins at file byte a.
fn read_unit(p: Plan, image: &[u8], b: usize, a: usize, v: usize, out: &mut [u8])
    requires { Fits p (length image.now) × (v < p.n) × (b ≤ 17592186044416) × (a + length out.old ≤ 17592186044416) }
    ensures { out.new ≡ unit_read p image.now b a v out.old }
{
    let lo = a.saturating_sub(b);
    let hi = (a + out.len()).saturating_sub(b).min(p.u);
    if lo < hi {
        runs::read_run(p, image, v, lo, out, b + lo - a, hi - lo);
    }
}

// The file bytes that fall into the group whose data begin at file byte s; out begins at file byte a.
pub fn read_group(p: Plan, image: &[u8], s: usize, a: usize, out: &mut [u8])
    requires { Fits p (length image.now) × (s ≤ 8796093022208) × (a + length out.old ≤ 17592186044416) }
    ensures { out.new ≡ group_read p image.now s a out.old }
{
    for v in 0..p.n {
        read_unit(p, image, s + p.u * v, a, v, out);
    }
}
