// Runs of bytes of one group: copied, cleared, and rebuilt where a content is missing.
#![tactic(auto)]

ghost use Rattle.std.specs.Prelude.{◌≡◌, true, ℕ, ◌+◌, ◌<◌, ◌≤◌, length, get_or};
ghost use Rattle.plan.specs.Plans.{at_of, miss_of, Fits};
ghost use Rattle.runs.specs.Run.{run_set};
ghost use Rattle.runs.specs.Held.{run_of, zero_byte, held_run};
ghost use Rattle.runs.specs.InPlace.{Clear};

use plan::Plan;

// A piece of M bytes of `src` from `from` on, in those of `out` from `to` on, by way of an array of its own. The compiler knows M, so that a piece is a
// few loads and as many stores. The two slices might overlap for all that it knows: a copy from one to the other whose length it doesn't know, in one
// step or in two, would bring `memmove` into the archive for C, which is to need `memcpy` and `memset` alone.
fn put_piece<const M: usize>(out: &mut [u8], to: usize, src: &[u8], from: usize)
    requires { (to + M ≤ length out.old) × (from + M ≤ length src.now) }
    ensures { out.new ≡ run_set to M (run_of src.now from) out.old }
{
    let mut b = [0u8; M];
    b.copy_from_slice(&src[from..from + M]);
    out[to..to + M].copy_from_slice(&b);
}

// As many whole pieces of M bytes as there are in `len`; the answer is how many bytes they are.
fn put_pieces<const M: usize>(
    out: &mut [u8],
    to: usize,
    src: &[u8],
    from: usize,
    len: usize,
) -> usize
    requires { (0 < M) × (to + len ≤ length out.old) × (from + len ≤ length src.now) }
    ensures { (result ≤ len) × (len < result + M) × (out.new ≡ run_set to result (run_of src.now from) out.old) }
{
    let mut done = 0;
    // No `for`: what is left begins where the last whole piece ended.
    while M <= len - done {
        put_piece::<M>(out, to + done, src, from + done);
        done += M;
    }
    done
}

// The `len` bytes of `src` from `from` on, in those of `out` from `to` on: pieces of 128, eight loads and eight stores each, then of 8, and at most
// seven bytes one by one.
pub fn put_run(out: &mut [u8], to: usize, src: &[u8], from: usize, len: usize)
    requires { (to + len ≤ length out.old) × (from + len ≤ length src.now) }
    ensures { out.new ≡ run_set to len (run_of src.now from) out.old }
{
    let wide = put_pieces::<128>(out, to, src, from, len);
    let words = wide + put_pieces::<8>(out, to + wide, src, from + wide, len - wide);
    put_pieces::<1>(out, to + words, src, from + words, len - words);
}

// Zeros in the `len` bytes of `out` from `to` on.
pub fn clear_run(out: &mut [u8], to: usize, len: usize)
    requires { to + len ≤ length out.old }
    ensures { out.new ≡ run_set to len zero_byte out.old }
{
    out[to..to + len].fill(0);
}

// Where the units of the slots begin, from unit offset lo on. Here and below a field is named before it is indexed: the whole plan would be copied
// else.
fn slot_starts(p: Plan, size: usize, lo: usize) -> [usize; 16]
    requires { Fits p size × (lo ≤ p.u) }
    ensures { (j : ℕ) → j < p.n → get_or result j 0 ≡ at_of p (get_or p.slots j 0) + lo }
{
    let at = p.at;
    let slots = p.slots;
    let mut r = [0usize; 16];
    for j in 0..p.n {
        r[j] = at[slots[j]] + lo;
    }
    r
}

// The bytes of the missing content c from unit offset lo on, rebuilt, in those of `out` from `to` on.
pub fn rebuild_run(
    p: Plan,
    image: &[u8],
    lo: usize,
    c: usize,
    out: &mut [u8],
    to: usize,
    len: usize,
)
    requires { Fits p (length image.now) × (lo + len ≤ p.u) × (c < p.n + p.k) × (miss_of p c ≡ true) × (to + len ≤ length out.old) }
    ensures { out.new ≡ run_set to len (held_run p image.now lo c) out.old }
{
    let starts = slot_starts(p, image.len(), lo);
    let rows = p.rows;
    let rank = p.rank;
    let row = rows[rank[c]];
    kernel::combine_put(out, to, image, &starts, &row, p.n, len);
}

// The bytes of content c from unit offset lo on, as they stand or rebuilt, in those of `out` from `to` on.
pub fn read_run(p: Plan, image: &[u8], c: usize, lo: usize, out: &mut [u8], to: usize, len: usize)
    requires { Fits p (length image.now) × (c < p.n + p.k) × (lo + len ≤ p.u) × (to + len ≤ length out.old) }
    ensures { out.new ≡ run_set to len (held_run p image.now lo c) out.old }
{
    let missing = p.missing;
    if missing[c] {
        rebuild_run(p, image, lo, c, out, to, len);
        return;
    }
    let at = p.at;
    put_run(out, to, image, at[c] + lo, len);
}

// The unit of the missing content c, rebuilt within the image, at `to`: no unit that the row reads meets it, so that nothing is kept beside the image.
pub fn mend_run(p: Plan, image: &mut [u8], c: usize, to: usize)
    requires { Fits p (length image.old) × Clear p to (length image.old) × (c < p.n + p.k) × (miss_of p c ≡ true) }
    ensures { image.new ≡ run_set to p.u (held_run p image.old 0 c) image.old }
{
    let starts = slot_starts(p, image.len(), 0);
    let lines = p.rows;
    let rank = p.rank;
    let coefficients = lines[rank[c]];
    kernel::combine_in(image, to, &starts, &coefficients, p.n, p.u);
}
