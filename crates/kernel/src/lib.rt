// Sums of multiples of runs of bytes: a block at a time in a local array, digit after digit of the factors, highest first (Horner's rule).
// Which runs each digit adds is scheduled once a call, so that no factor is looked at in the loops over bytes.
#![tactic(auto)]

mod schedule;

ghost use Rattle.std.specs.Prelude.{◌≡◌, ℕ, ◌+◌, ◌-◌, ◌*◌, ◌/◌, ◌%◌, ◌^◌, ◌<◌, ◌≤◌, length, get_or};
ghost use Rattle.field.specs.Byte.{◌⊕◌};
ghost use Rattle.lists.specs.Span.{Span};
ghost use Rattle.kernel.specs.Schedule.{Reaches, scheduled};
ghost use Rattle.kernel.specs.Combine.{sum_at};
ghost use Rattle.kernel.specs.InPlace.{Apart};

use schedule::{Schedule, top_of};

// Adds the first m bytes of b to those from o on.
fn add_block(out: &mut [u8], b: &[u8; 192], o: usize, m: usize)
    requires { (m ≤ 192) × (o + m ≤ length out.old) }
    ensures { Span (λ y. get_or out.old y 0 ⊕ get_or b.now (y - o) 0) o (o + m) out.old out.new }
{
    for i in 0..m {
        out[o + i] ^= b[i];
    }
}

// Puts the first m bytes of b in place of those from o on.
fn put_block(out: &mut [u8], b: &[u8], o: usize, m: usize)
    requires { (m ≤ length b.now) × (o + m ≤ length out.old) }
    ensures { Span (λ y. get_or b.now (y - o) 0) o (o + m) out.old out.new }
{
    out[o..o + m].copy_from_slice(&b[..m]);
}

// Adds to the bytes of `out` from `to + o` on, which are left when no whole block is, up to `to + len`.
fn add_rest(out: &mut [u8], to: usize, src: &[u8], schedule: &Schedule, o: usize, len: usize)
    requires { (o ≤ len) × (len ≤ o + 128) × (to + len ≤ length out.old) × Reaches schedule.now len (length src.now) }
    ensures { Span (λ y. get_or out.old y 0 ⊕ scheduled src.now schedule.now (y - to)) (to + o) (to + len) out.old out.new }
{
    let m = len - o;
    if 0 < m {
        let b = schedule.block(src, o, m);
        add_block(out, &b, to + o, m);
    }
}

// Adds to the `len` bytes of `out` from `to` on the sum of coefs[j] times the run of `src` that starts at starts[j], over j < n.
pub fn combine(
    out: &mut [u8],
    to: usize,
    src: &[u8],
    starts: &[usize; 16],
    coefs: &[u8; 16],
    n: usize,
    len: usize,
)
    requires { (n ≤ 16) × (to + len ≤ length out.old) × ((j : ℕ) → j < n → get_or starts.now j 0 + len ≤ length src.now) }
    ensures { Span (λ y. get_or out.old y 0 ⊕ sum_at n coefs.now starts.now src.now (y - to)) to (to + len) out.old out.new }
{
    let top = top_of(coefs, n);
    if top == 0 {
        return;
    }
    let mut list = [0usize; 128];
    let schedule = Schedule::new(&mut list, starts, coefs, n, top);
    let mut o = 0;
    // No `for`: what is left begins where the last whole block ended.
    while 128 <= len - o {
        let b = schedule.block(src, o, 128);
        add_block(out, &b, to + o, 128);
        o += 128;
    }
    add_rest(out, to, src, &schedule, o, len);
}

// Where the last block begins, once fewer than 128 bytes from o on are left: those that end a run of 128 or more go as a whole block, over bytes
// that hold their sum already, since only a block whose length is known to the compiler is made of whole vectors.
fn rest_from(o: usize, len: usize) -> usize
    requires { (o ≤ len) × (len ≤ o + 128) }
    ensures { (result ≤ o) × (len ≤ result + 128) }
{
    if o < len && 128 <= len { len - 128 } else { o }
}

// Puts into the `len` bytes of `out` from `to` on the sum of coefs[j] times the run of `src` that starts at starts[j], over j < n. A block has 192
// bytes, what the registers of the oldest processor hold beside what a doubling needs, as long as 128 are left after it; then 128.
pub fn combine_put(
    out: &mut [u8],
    to: usize,
    src: &[u8],
    starts: &[usize; 16],
    coefs: &[u8; 16],
    n: usize,
    len: usize,
)
    requires { (n ≤ 16) × (to + len ≤ length out.old) × ((j : ℕ) → j < n → get_or starts.now j 0 + len ≤ length src.now) }
    ensures { Span (λ y. sum_at n coefs.now starts.now src.now (y - to)) to (to + len) out.old out.new }
{
    let top = top_of(coefs, n);
    let mut list = [0usize; 128];
    let schedule = Schedule::new(&mut list, starts, coefs, n, top);
    let mut o = 0;
    // No `for`: the shorter blocks begin where the longer ones ended.
    while 320 <= len - o {
        let b = schedule.block(src, o, 192);
        put_block(out, &b, to + o, 192);
        o += 192;
    }
    while 128 <= len - o {
        let b = schedule.block(src, o, 128);
        put_block(out, &b, to + o, 128);
        o += 128;
    }
    let from = rest_from(o, len);
    if from < len {
        let b = schedule.last_block(src, from, len - from);
        put_block(out, &b, to + from, len - from);
    }
}

// Where the block after the first `end` bytes of a run at `at` begins: from the second on at a multiple of 64 of the slice, over bytes that hold
// their sum already. Units mostly begin at such multiples, and then no vector of any source lies across two lines of the cache.
fn block_from(at: usize, end: usize) -> usize
    requires { at + end < 18446744073709551616 }
    ensures { (result ≤ end) × (end < result + 64) }
{
    if end < 64 {
        return end;
    }
    end - (at + end) % 64
}

// Puts into the `len` bytes from `at` on the sum of coefs[j] times the run that starts at starts[j], over j < n, by the same blocks. The runs lie apart
// from those bytes. A function of its own, since it reads the slice that it writes: one for both would take its blocks from a closure, and say what that
// answers at every state of the slice.
pub fn combine_in(
    buf: &mut [u8],
    at: usize,
    starts: &[usize; 16],
    coefs: &[u8; 16],
    n: usize,
    len: usize,
)
    requires { (n ≤ 16) × (at + len ≤ length buf.old) × ((j : ℕ) → j < n → Apart (get_or starts.now j 0) at len (length buf.old)) }
    ensures { Span (λ y. sum_at n coefs.now starts.now buf.old (y - at)) at (at + len) buf.old buf.new }
{
    let top = top_of(coefs, n);
    let mut list = [0usize; 128];
    let schedule = Schedule::new(&mut list, starts, coefs, n, top);
    let mut o = 0;
    // No `for`: a block may begin before the end of the last.
    while 320 <= len - o {
        let from = block_from(at, o);
        let b = schedule.block(buf, from, 192);
        put_block(buf, &b, at + from, 192);
        o = from + 192;
    }
    while 128 <= len - o {
        let b = schedule.block(buf, o, 128);
        put_block(buf, &b, at + o, 128);
        o += 128;
    }
    let from = rest_from(o, len);
    if from < len {
        let b = schedule.last_block(buf, from, len - from);
        put_block(buf, &b, at + from, len - from);
    }
}
