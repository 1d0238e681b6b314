// Writing to a run of unit offsets of one group. The named data are stored first, each at its home; parity is then put at its own home at once,
// from the bytes to write where those name every data unit, else from the data as they stand by then. What is missing is kept in a scratch.
#![tactic(auto)]

ghost use Rattle.std.specs.Prelude.{◌≡◌, ◌⊎◌, true, false, not, ℕ, ◌+◌, ◌-◌, ◌*◌, ◌<◌, ◌≤◌, length, get_or};
ghost use Rattle.lists.specs.Pick.{pick};
ghost use Rattle.lists.specs.Part.{within as withinRun};
ghost use Rattle.parity.specs.Matrix.{flag};
ghost use Rattle.kernel.specs.InPlace.{Apart as ApartIn};
ghost use Rattle.plan.specs.Plans.{at_of, miss_of, Right, Fits, Apart};
ghost use Rattle.runs.specs.Run.{run_set, paint};
ghost use Rattle.runs.specs.Held.{run_of, rank_place};
ghost use Rattle.updates.specs.Writing.{stores_in};
ghost use Rattle.updates.specs.Sources.{byte_start, lost_start, Starts, standing, parity_at, whole_parity, around_sum, parity_over, kept_run, Begins, Keeps};
ghost use Rattle.updates.specs.Whole.{Suits, written};

use plan::Plan;

// A run of a group: the unit offsets lo .. lo + len, where the data units from .. from + units are named. The group's data begin at file byte
// `group_at`, the bytes to write at file byte `bytes_at`.
#[derive(Clone, Copy)]
pub struct Run {
    pub group_at: usize,
    pub bytes_at: usize,
    pub from: usize,
    pub units: usize,
    pub lo: usize,
    pub len: usize,
}

impl Run {
    // Whether data unit c is named. No end of the named units is worked out, so that no sum has to fit.
    fn names(self, c: usize) -> bool
        ensures { result ≡ withinRun self.from self.units c }
    {
        self.from <= c && c - self.from < self.units
    }

    // Whether all n data units are named.
    fn names_all(self, n: usize) -> bool
        ensures { result ≡ true → (j : ℕ) → j < n → withinRun self.from self.units j ≡ true }
    {
        self.from == 0 && n <= self.units
    }

    // Where the named bytes of data unit j begin in the bytes to write. The start of another is not read.
    fn byte_start(self, u: usize, j: usize) -> usize
        requires sizes { (self.group_at ≤ 17592186044416) × (u ≤ 4096) × (self.lo ≤ u) × (j < 16) }
        requires after { withinRun self.from self.units j ≡ true → self.bytes_at ≤ self.group_at + (u * j + self.lo) }
        ensures { result ≡ byte_start u self.group_at self.bytes_at self.from self.units self.lo j }
    {
        if self.names(j) {
            return self.group_at + (u * j + self.lo) - self.bytes_at;
        }
        0
    }
}

// ---- where the data lie

// The starts of the first n of 16 runs, each by its number.
fn starts_by<F: Fn(usize) -> usize>(n: usize, start: F) -> [usize; 16]
    requires few { n ≤ 16 }
    requires callable { (j : ℕ) → j < n → F.pre start j }
    ensures { (j : ℕ) → j < n → F.post start j (get_or result j 0) }
{
    let mut r = [0usize; 16];
    for j in 0..n {
        r[j] = start(j);
    }
    r
}

// Where the n data units begin in the image, from unit offset lo on. Here and below a field is named before it is indexed or captured: the
// whole plan would be copied else.
pub fn image_starts(p: Plan, size: usize, lo: usize) -> [usize; 16]
    requires { Fits p size × (lo ≤ p.u) }
    ensures { Begins p lo result }
{
    let at = p.at;
    starts_by(p.n, |j| at[j] + lo)
}

// Where the named bytes of the data units begin in the bytes to write.
fn byte_starts(p: Plan, run: Run) -> [usize; 16]
    requires { (p.n ≤ 16) × (run.group_at ≤ 17592186044416) × (p.u ≤ 4096) × (run.lo ≤ p.u)
        × ((j : ℕ) → withinRun run.from run.units j ≡ true → run.bytes_at ≤ run.group_at + (p.u * j + run.lo)) }
    ensures { (j : ℕ) → j < p.n → get_or result j 0 ≡ byte_start p.u run.group_at run.bytes_at run.from run.units run.lo j }
{
    let u = p.u;
    starts_by(p.n, |j| run.byte_start(u, j))
}

// Where a missing data unit is kept in the scratch. The start of another is not read.
fn lost_start(p: &Plan, j: usize) -> usize
    requires { Right p.now × (j < p.now.n) }
    ensures { result ≡ lost_start p.now j }
{
    if p.missing[j] {
        return p.rank[j] * 4096;
    }
    0
}

fn lost_starts(p: Plan) -> [usize; 16]
    requires { Right p }
    ensures { (j : ℕ) → j < p.n → get_or result j 0 ≡ lost_start p j }
{
    starts_by(p.n, |j| lost_start(&p, j))
}

// ---- the data

// Whether data unit c is stored: it is present, and named.
fn stores(p: Plan, run: Run, c: usize) -> bool
    requires { (c < p.n) × (p.n ≤ 16) }
    ensures { result ≡ stores_in p (withinRun run.from run.units) c }
{
    let missing = p.missing;
    !missing[c] && run.names(c)
}

// The bytes of data unit c at its home, where they are named and it is present.
fn store_unit(p: Plan, image: &mut [u8], bytes: &[u8], starts: [usize; 16], run: Run, c: usize)
    requires { Fits p (length image.old) × (run.lo + run.len ≤ p.u) × (c < p.n) × Starts (length bytes.now) starts p.n run.len }
    ensures { image.new ≡ pick (stores_in p (withinRun run.from run.units) c)
        (run_set (at_of p c + run.lo) run.len (run_of bytes.now (get_or starts c 0)) image.old) image.old }
{
    if stores(p, run, c) {
        let at = p.at;
        runs::put_run(image, at[c] + run.lo, bytes, starts[c], run.len);
    }
}

// This loop and the three of its form below stay apart: each contract says which runs of which units are stored, and a loop over a closure could say
// no more than that its calls ran in turn.
fn store_data(p: Plan, image: &mut [u8], bytes: &[u8], starts: [usize; 16], run: Run)
    requires { Fits p (length image.old) × (run.lo + run.len ≤ p.u) × Starts (length bytes.now) starts p.n run.len }
    ensures { image.new ≡ paint (stores_in p (withinRun run.from run.units)) (λ c. at_of p c + run.lo) run.len (λ c. run_of bytes.now (get_or starts c 0)) p.n image.old }
{
    for c in 0..p.n {
        store_unit(p, image, bytes, starts, run, c);
    }
}

// ---- parity of a run that names every data unit

// Parity i at its home, where it is present, from the bytes to write.
fn put_whole(
    p: Plan,
    image: &mut [u8],
    bytes: &[u8],
    starts: [usize; 16],
    lo: usize,
    len: usize,
    i: usize,
)
    requires { Fits p (length image.old) × (lo + len ≤ p.u) × (i < p.k) × Starts (length bytes.now) starts p.n len }
    ensures { image.new ≡ pick (standing p i) (run_set (parity_at p lo i) len (whole_parity p bytes.now starts i) image.old) image.old }
{
    let c = p.n + i;
    let missing = p.missing;
    if missing[c] {
        return;
    }
    let at = p.at;
    let coefs = plan::line(p.codes, i);
    kernel::combine_put(image, at[c] + lo, bytes, &starts, &coefs, p.n, len);
}

fn put_wholes(p: Plan, image: &mut [u8], bytes: &[u8], starts: [usize; 16], lo: usize, len: usize)
    requires { Fits p (length image.old) × (lo + len ≤ p.u) × Starts (length bytes.now) starts p.n len }
    ensures { image.new ≡ paint (standing p) (parity_at p lo) len (whole_parity p bytes.now starts) p.k image.old }
{
    for i in 0..p.k {
        put_whole(p, image, bytes, starts, lo, len, i);
    }
}

// ---- parity of another run, from the data in the image and the missing ones in the scratch

// A row of coefficients in two: those of the data that are present, and those of the missing ones.
#[derive(Clone, Copy)]
pub struct Halves {
    pub present: [u8; 16],
    pub missing: [u8; 16],
}

fn halved(row: [u8; 16], gone: [bool; 19], n: usize) -> Halves
    requires { n ≤ 16 }
    ensures { ((j : ℕ) → j < n → get_or result.present j 0 ≡ pick (not (flag gone j)) (get_or row j 0) 0)
        × ((j : ℕ) → j < n → get_or result.missing j 0 ≡ pick (flag gone j) (get_or row j 0) 0) }
{
    let mut present = [0u8; 16];
    let mut missing = [0u8; 16];
    for j in 0..n {
        present[j] = if gone[j] { 0 } else { row[j] };
        missing[j] = if gone[j] { row[j] } else { 0 };
    }
    Halves { present, missing }
}

// A sum over the data where some are missing: over those in the image, and onto it over those in the scratch.
fn put_around(
    p: Plan,
    image: &mut [u8],
    lost: &[u8],
    starts: [usize; 16],
    row: [u8; 16],
    to: usize,
    len: usize,
)
    requires { Right p × (len ≤ 4096) × (to + len ≤ length image.old) × ((j : ℕ) → j < p.n → ApartIn (get_or starts j 0) to len (length image.old)) × (length lost.now ≡ 12288) }
    ensures { image.new ≡ run_set to len (around_sum p image.old lost.now starts row) image.old }
{
    let halves = halved(row, p.missing, p.n);
    let kept = lost_starts(p);
    kernel::combine_in(image, to, &starts, &halves.present, p.n, len);
    kernel::combine(image, to, lost, &kept, &halves.missing, p.n, len);
}

// Parity i at its home, where it is present.
pub fn put_parity(
    p: Plan,
    image: &mut [u8],
    lost: &[u8],
    starts: [usize; 16],
    lo: usize,
    len: usize,
    i: usize,
)
    requires { Fits p (length image.old) × Apart p × (lo + len ≤ p.u) × (i < p.k) × Begins p lo starts × Keeps p (length lost.now) }
    ensures { image.new ≡ pick (standing p i) (run_set (parity_at p lo i) len (parity_over p image.old lost.now lo i) image.old) image.old }
{
    let c = p.n + i;
    let missing = p.missing;
    if missing[c] {
        return;
    }
    let at = p.at;
    let to = at[c] + lo;
    let row = plan::line(p.codes, i);
    if p.gone == 0 {
        kernel::combine_in(image, to, &starts, &row, p.n, len);
        return;
    }
    put_around(p, image, lost, starts, row, to, len);
}

fn put_parities(p: Plan, image: &mut [u8], lost: &[u8], lo: usize, len: usize)
    requires { Fits p (length image.old) × Apart p × (lo + len ≤ p.u) × Keeps p (length lost.now) }
    ensures { image.new ≡ paint (standing p) (parity_at p lo) len (parity_over p image.old lost.now lo) p.k image.old }
{
    let starts = image_starts(p, image.len(), lo);
    for i in 0..p.k {
        put_parity(p, image, lost, starts, lo, len, i);
    }
}

// ---- the missing data, kept in a scratch before anything is stored

// Data unit c where it is missing: the bytes to write, or what it held, rebuilt.
fn keep_unit(
    p: Plan,
    image: &[u8],
    bytes: &[u8],
    starts: [usize; 16],
    run: Run,
    lost: &mut [u8],
    c: usize,
)
    requires { Fits p (length image.now) × (run.lo + run.len ≤ p.u) × (c < p.n) × Starts (length bytes.now) starts p.n run.len × (length lost.old ≡ 12288) }
    ensures { lost.new ≡ pick (miss_of p c)
        (run_set (rank_place p c) run.len (kept_run p image.now bytes.now starts run.from run.units run.lo c) lost.old) lost.old }
{
    let missing = p.missing;
    if missing[c] {
        let rank = p.rank;
        let to = rank[c] * 4096;
        if run.names(c) {
            runs::put_run(lost, to, bytes, starts[c], run.len);
            return;
        }
        runs::rebuild_run(p, image, run.lo, c, lost, to, run.len);
    }
}

fn keep_lost(p: Plan, image: &[u8], bytes: &[u8], starts: [usize; 16], run: Run, lost: &mut [u8])
    requires { Fits p (length image.now) × (run.lo + run.len ≤ p.u) × Starts (length bytes.now) starts p.n run.len × (length lost.old ≡ 12288) }
    ensures { lost.new ≡ paint (miss_of p) (rank_place p) run.len (kept_run p image.now bytes.now starts run.from run.units run.lo) p.n lost.old }
{
    for c in 0..p.n {
        keep_unit(p, image, bytes, starts, run, lost, c);
    }
}

// ---- a run

// Where something is missing. The scratch is made here, so that no other write clears it.
fn write_around(p: Plan, image: &mut [u8], bytes: &[u8], starts: [usize; 16], run: Run)
    requires fits { Fits p (length image.old) × Apart p × Suits p run (length bytes.now) }
    requires begin { (j : ℕ) → j < p.n → get_or starts j 0 ≡ byte_start p.u run.group_at run.bytes_at run.from run.units run.lo j }
    ensures { image.new ≡ written p image.old bytes.now run }
{
    let mut lost = [0u8; 12288];
    keep_lost(p, image, bytes, starts, run, &mut lost);
    store_data(p, image, bytes, starts, run);
    put_parities(p, image, &lost, run.lo, run.len);
}

// Writes a run: where it names every data unit, whatever is missing; where nothing is missing; and where something is.
pub fn write_run(p: Plan, image: &mut [u8], bytes: &[u8], run: Run)
    requires { Fits p (length image.old) × Apart p × Suits p run (length bytes.now) }
    ensures { image.new ≡ written p image.old bytes.now run }
{
    let starts = byte_starts(p, run);
    if run.names_all(p.n) {
        store_data(p, image, bytes, starts, run);
        put_wholes(p, image, bytes, starts, run.lo, run.len);
        return;
    }
    if p.gone == 0 {
        store_data(p, image, bytes, starts, run);
        put_parities(p, image, &[], run.lo, run.len);
        return;
    }
    write_around(p, image, bytes, starts, run);
}
