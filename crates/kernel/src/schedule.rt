// Which runs each digit of the factors adds, and the sum of a block by them.
ghost use Rattle.std.specs.Prelude.{◌≡◌, false, ℕ, ◌+◌, ◌*◌, ◌/◌, ◌%◌, ◌^◌, ◌<◌, ◌≤◌, length, get_or};
ghost use Rattle.field.specs.Byte.{double, ◌⊕◌};
ghost use Rattle.lists.specs.Span.{Span};
ghost use Rattle.kernel.specs.Plan.{picked, Reach, Filled};
ghost use Rattle.kernel.specs.Fill.{Plane, Planes};

// Doubles the first m bytes.
fn double_run(acc: &mut [u8; 192], m: usize)
    requires { (length acc.old ≡ 192) × (m ≤ 192) }
    ensures { Span (λ i. double (get_or acc.old i 0)) 0 m acc.old acc.new }
{
    for i in 0..m {
        acc[i] = field::double(acc[i]);
    }
}

// Adds m bytes of src from s on.
fn xor_run(acc: &mut [u8; 192], src: &[u8], s: usize, m: usize)
    requires { (length acc.old ≡ 192) × (m ≤ 192) × (s + m ≤ length src.now) }
    ensures { Span (λ i. get_or acc.old i 0 ⊕ get_or src.now (s + i) 0) 0 m acc.old acc.new }
{
    for i in 0..m {
        acc[i] ^= src[s + i];
    }
}

// Adds the `count` runs whose starts stand in `list` from `base` on, m bytes of each, from o on.
fn add_plane(
    acc: &mut [u8; 192],
    src: &[u8],
    list: &[usize; 128],
    base: usize,
    count: usize,
    o: usize,
    m: usize,
)
    requires { (length acc.old ≡ 192) × (m ≤ 192) × Reach list.now base count (o + m) (length src.now) }
    ensures { Span (λ i. get_or acc.old i 0 ⊕ picked src.now list.now base count (o + i)) 0 m acc.old acc.new }
{
    for q in 0..count {
        let s = list[base + q] + o;
        xor_run(acc, src, s, m);
    }
}

// Doubles the first m bytes, unless they are zeros yet.
fn double_from(acc: &mut [u8; 192], on: bool, m: usize)
    requires { (length acc.old ≡ 192) × (m ≤ 192) × ((on ≡ false) → (i : ℕ) → i < m → get_or acc.old i 0 ≡ 0) }
    ensures { Span (λ i. double (get_or acc.old i 0)) 0 m acc.old acc.new }
{
    if on {
        double_run(acc, m);
    }
}

// Digit k of x.
fn digit(x: u8, k: usize) -> usize
    requires { k < 8 }
    ensures { (result < 2) × (result ≡ x / 2 ^ k % 2) }
{
    usize::from((x >> k) % 2)
}

// Writes the starts of the runs whose factor has the lowest digit into `list`, and answers how many.
fn fill_lowest(list: &mut [usize; 128], starts: &[usize; 16], coefs: &[u8; 16], n: usize) -> usize
    requires { (length list.old ≡ 128) × (n ≤ 16) }
    ensures { Plane starts.now coefs.now n 0 list.new result }
{
    let mut c: usize = 0;
    for j in 0..n {
        list[c] = starts[j];
        c += digit(coefs[j], 0);
    }
    c
}

// Source j in the plan: its start goes to the end of the list of each digit, and counts where its factor has the digit. With the literal 8 the loop
// is straight code once it is inlined, and the eight counts stay in registers.
fn spread(
    list: &mut [usize; 128],
    counts: &mut [usize; 8],
    starts: &[usize; 16],
    coefs: &[u8; 16],
    j: usize,
)
    requires { (length list.old ≡ 128) × (length counts.old ≡ 8) × (j < 16) × Planes starts.now coefs.now j list.old counts.old 8 }
    ensures { (length list.new ≡ 128) × (length counts.new ≡ 8) × Planes starts.now coefs.now (j + 1) list.new counts.new 8 }
{
    let s = starts[j];
    let c = coefs[j];
    for k in 0..8 {
        let q = counts[k];
        list[k * 16 + q] = s;
        counts[k] = q + digit(c, k);
    }
}

// How many digits the factors have at most.
pub fn top_of(coefs: &[u8; 16], n: usize) -> usize
    requires { n ≤ 16 }
    ensures { (result ≤ 8) × ((j : ℕ) → j < n → get_or coefs.now j 0 < 2 ^ result) }
{
    let mut most: u8 = 0;
    for j in 0..n {
        most = most.max(coefs[j]);
    }
    if most == 0 {
        return 0;
    }
    most.ilog2() as usize + 1
}

// Writes the lists of a schedule, and answers how many starts each has. Factors of one digit have one list, and all others all eight. A call of its own,
// whose registers hold the counts.
#[inline(never)]
fn fill_lists(
    list: &mut [usize; 128],
    starts: &[usize; 16],
    coefs: &[u8; 16],
    n: usize,
    top: usize,
) -> [usize; 8]
    requires { (length list.old ≡ 128) × (n ≤ 16) × (top ≤ 8) }
    ensures { Planes starts.now coefs.now n list.new result top }
{
    let mut counts = [0usize; 8];
    if top < 2 {
        counts[0] = fill_lowest(list, starts, coefs, n);
        return counts;
    }
    for j in 0..n {
        spread(list, &mut counts, starts, coefs, j);
    }
    counts
}

// For each digit below `top` a list of starts, from 16 times the digit on, and how many each has. The lists stand with the caller, since a kilobyte
// handed back by value would be copied.
#[derive(Clone, Copy)]
pub struct Schedule<'a> {
    pub list: &'a [usize; 128],
    pub counts: [usize; 8],
    pub top: usize,
    ghost top_max: { top ≤ 8 },
}

impl<'a> Schedule<'a> {
    ghost use Rattle.kernel.specs.Schedule.{Reaches, Schedules, scheduled};

    // The schedule of n factors that have at most `top` digits, in lists that were zeros.
    pub fn new(
        list: &'a mut [usize; 128],
        starts: &[usize; 16],
        coefs: &[u8; 16],
        n: usize,
        top: usize,
    ) -> Schedule<'a>
        requires { (length list.old ≡ 128) × (n ≤ 16) × (top ≤ 8) × ((j : ℕ) → j < n → get_or coefs.now j 0 < 2 ^ top) }
        ensures { Schedules starts.now coefs.now n result }
    {
        let counts = fill_lists(list, starts, coefs, n, top);
        Schedule { list, counts, top }
    }

    // The sum, m bytes from o on, of the runs that the schedule names: digit after digit, highest first. A whole block has a literal for m, and its
    // loops become vectors once they are inlined.
    pub fn block(&self, src: &[u8], o: usize, m: usize) -> [u8; 192]
        requires { (m ≤ 192) × Reaches self.now (o + m) (length src.now) }
        ensures { Filled (λ i. scheduled src.now self.now (o + i)) m result }
    {
        let mut acc = [0u8; 192];
        for k in (0..self.top).rev() {
            double_from(&mut acc, k + 1 < self.top, m);
            add_plane(&mut acc, src, self.list, k * 16, self.counts[k], o, m);
        }
        acc
    }

    // The block that ends a run, whole or shorter. Inlined by force, since a call of its own would copy the block.
    #[inline(always)]
    pub fn last_block(&self, src: &[u8], o: usize, m: usize) -> [u8; 192]
        requires { (m ≤ 128) × Reaches self.now (o + m) (length src.now) }
        ensures { Filled (λ i. scheduled src.now self.now (o + i)) m result }
    {
        if m == 128 {
            return self.block(src, o, 128);
        }
        self.block(src, o, m)
    }
}
