// Encoding and rebuilding of one group in one buffer, unit by unit, through the kernel.
#![tactic(auto)]

ghost use Rattle.std.specs.Prelude.{◌≡◌, ℕ, ◌+◌, ◌-◌, ◌*◌, ◌^◌, ◌<◌, ◌≤◌, length, get_or};
ghost use Rattle.lists.specs.Span.{Span};
ghost use Rattle.parity.specs.Matrix.{flag, Holds};
ghost use Rattle.lists.specs.Those.{those};
ghost use Rattle.parity.specs.Group.{Solvable, lost};
ghost use Rattle.coding.specs.Buffer.{encoded_of, rebuilt_of};
ghost use Rattle.coding.specs.Closing.{IsClosing, closing_sum};

use parity::Few;

const DATA_UNITS: [usize; 16] = [0, 1, 2, 3, 4, 5, 6, 7, 8, 9, 10, 11, 12, 13, 14, 15];

// Where the n units start in a buffer of units of `unit` bytes.
fn starts_of(units: [usize; 16], n: usize, unit: usize) -> [usize; 16]
    requires { (n ≤ 16) × ((j : ℕ) → j < n → get_or units j 0 * unit < 2 ^ 64) }
    ensures { (j : ℕ) → j < n → get_or result j 0 ≡ get_or units j 0 * unit }
{
    let mut starts = [0usize; 16];
    for j in 0..n {
        starts[j] = units[j] * unit;
    }
    starts
}

// Sets the k parity units of a group of n data units from the data units.
pub fn encode(buf: &mut [u8], n: usize, k: usize, unit: usize)
    requires { (n ≤ 16) × (k ≤ 3) × (0 < unit) × (length buf.old ≡ (n + k) * unit) }
    ensures { buf.new ≡ encoded_of n unit buf.old }
{
    let starts = starts_of(DATA_UNITS, n, unit);
    for i in 0..k {
        let at = (n + i) * unit;
        kernel::combine_in(buf, at, &starts, &systems::row(i), n, unit);
    }
}

// The missing unit that `fill_last` can fill: the last lost data unit, where parity unit 0 is there.
fn closing(miss: [bool; 19], n: usize) -> Option<usize>
    requires { (n ≤ 16) × (length (lost n (flag miss)) ≤ 3) }
    ensures { IsClosing result n (flag miss) }
{
    if miss[n] {
        return None;
    }
    parity::missing_below(miss, n).count.checked_sub(1)
}

// Fills data unit u, where the other data units and parity unit 0 are right. Parity unit 0 has ones for coefficients, so that u is the plain sum of
// those: one pass of the kernel, where a row of other coefficients takes one for each digit.
fn fill_last(buf: &mut [u8], n: usize, unit: usize, u: usize)
    requires { (n ≤ 16) × (u < n) × (n * unit + unit ≤ length buf.old) }
    ensures { Span (λ y. closing_sum n unit u buf.old (y - u * unit)) (u * unit) (u * unit + unit) buf.old buf.new }
{
    let mut units = DATA_UNITS;
    units[u] = n;
    let starts = starts_of(units, n, unit);
    kernel::combine_in(buf, u * unit, &starts, &[1u8; 16], n, unit);
}

// Fills the missing units of a group of n data and k parity units, lowest first: by its row each, but number `last`.
fn fill_all(
    buf: &mut [u8],
    n: usize,
    k: usize,
    unit: usize,
    miss: [bool; 19],
    gone: Few,
    last: Option<usize>,
)
    requires { Solvable n k (flag miss) × (0 < unit) × (length buf.old ≡ (n + k) * unit) × Holds (those (flag miss) (n + k)) gone.at gone.count × IsClosing last n (flag miss) }
    ensures { buf.new ≡ rebuilt_of n k unit (flag miss) buf.old }
{
    let rows = parity::rows(miss, n, k);
    let starts = starts_of(parity::slots(miss, n, k), n, unit);
    for q in 0..gone.count {
        let u = gone.at[q];
        if last == Some(q) {
            fill_last(buf, n, unit, u);
        } else {
            kernel::combine_in(buf, u * unit, &starts, &rows[q], n, unit);
        }
    }
}

// Fills the missing units of a group of n data and k parity units. One data unit alone, with parity unit 0 there, needs no row and no inverse.
pub fn rebuild(buf: &mut [u8], n: usize, k: usize, unit: usize, miss: [bool; 19])
    requires { Solvable n k (flag miss) × (0 < unit) × (length buf.old ≡ (n + k) * unit) }
    ensures { buf.new ≡ rebuilt_of n k unit (flag miss) buf.old }
{
    let gone = parity::missing_below(miss, n + k);
    let last = closing(miss, n);
    if gone.count == 1 && last == Some(0) {
        fill_last(buf, n, unit, gone.at[0]);
    } else {
        fill_all(buf, n, k, unit, miss, gone, last);
    }
}
