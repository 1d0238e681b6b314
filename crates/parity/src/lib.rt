// One group of n data and k parity units with some units missing: the units that are read in their place, and for each missing unit its row
// of coefficients over those. Worked out once for a set of missing units, whatever the bytes are.
#![tactic(auto)]

ghost use Rattle.std.specs.Prelude.{◌≡◌, Bool, ℕ, ◌+◌, ◌-◌, ◌<◌, ◌≤◌, length, get_or};
ghost use Rattle.lists.specs.Count.{count};
ghost use Rattle.lists.specs.Those.{those};
ghost use Rattle.systems.specs.Coef.{coef as coefficient};
ghost use Rattle.systems.specs.Matrix.{ent, three_of};
ghost use Rattle.parity.specs.Matrix.{flag, set_to, present, Holds, weight_of, slot_coef, lost_coef, parity_coef, RowsFor};
ghost use Rattle.parity.specs.Group.{Solvable};
ghost use Rattle.parity.specs.Rows.{slot};

use field::Tables;
use std::array;

// At most three numbers, in order, with zeros after them: an array with its count, since nothing here allocates and the crates above read both.
#[derive(Clone, Copy)]
pub struct Few {
    pub at: [usize; 3],
    pub count: usize,
}

// The places at which a flag is `wanted`, of which there are at most three.
fn places(flags: &[bool], wanted: bool) -> Few
    requires { length (those (set_to wanted flags.now) (length flags.now)) ≤ 3 }
    ensures { Holds (those (set_to wanted flags.now) (length flags.now)) result.at result.count }
{
    let mut at = [0usize; 3];
    let mut count: usize = 0;
    for (j, &flag) in flags.iter().enumerate() {
        if flag == wanted {
            at[count] = j;
            count += 1;
        }
    }
    Few { at, count }
}

// The missing units below n.
pub fn missing_below(miss: [bool; 19], n: usize) -> Few
    requires { (n ≤ 19) × (length (those (flag miss) n) ≤ 3) }
    ensures { Holds (those (flag miss) n) result.at result.count }
{
    places(&miss[..n], true)
}

// The weights of d equations in one unknown, from its row of the inverse; those of padding are 0.
fn weights(line: [u8; 3], d: usize) -> [u8; 3]
    ensures { result ≡ three_of (weight_of line d) }
{
    array::from_fn(|r| if r < d { line[r] } else { 0 })
}

// The coefficients of the parity units `is`, a row each.
fn coefs_of(is: [usize; 3]) -> [[u8; 16]; 3]
    requires { (r : ℕ) → r < 3 → get_or is r 0 < 3 }
    ensures { (r : ℕ) → r < 3 → (j : ℕ) → j < 16 → ent result r j ≡ coefficient (get_or is r 0) j }
{
    array::from_fn(
        |r|
            requires { (r < 3) × ((r : ℕ) → r < 3 → get_or is r 0 < 3) }
            ensures { (j : ℕ) → j < 16 → get_or result j 0 ≡ coefficient (get_or is r 0) j }
        { systems::row(is[r]) },
    )
}

// The coefficients of the data units `ks` in parity unit i.
fn coefs_across(i: usize, ks: [usize; 3]) -> [u8; 3]
    requires { (i < 3) × ((c : ℕ) → c < 3 → get_or ks c 0 < 16) }
    ensures { result ≡ three_of (λ c. coefficient i (get_or ks c 0)) }
{
    array::from_fn(|c| systems::coef(i, ks[c]))
}

// The rows of missing units that are all parity: no data is lost, so that each is the sum that it stands for.
fn own_rows(gone: Few, n: usize) -> [[u8; 16]; 3]
    requires { (gone.count ≤ 3) × ((q : ℕ) → q < 3 → q < gone.count → (n ≤ get_or gone.at q 0) × (get_or gone.at q 0 < n + 3)) }
    ensures { (q : ℕ) → q < gone.count → (j : ℕ) → j < 16 → ent result q j ≡ coefficient (get_or gone.at q 0 - n) j }
{
    let mut rows = [[0u8; 16]; 3];
    for q in 0..gone.count {
        rows[q] = systems::row(gone.at[q] - n);
    }
    rows
}

// A group of n data and k parity units, of which at most k are missing.
#[derive(Clone, Copy)]
struct Group {
    miss: [bool; 19],
    n: usize,
    k: usize,
    ghost solvable: { Solvable n k (flag miss) },
}

impl Group {
    // The missing units.
    fn gone(&self) -> Few
        ensures { Holds (those (flag self.now.miss) (self.now.n + self.now.k)) result.at result.count }
    {
        missing_below(self.miss, self.n + self.k)
    }

    // The missing data units.
    fn lost(&self) -> Few
        ensures { Holds (those (flag self.now.miss) self.now.n) result.at result.count }
    {
        missing_below(self.miss, self.n)
    }

    // The parity units that are there, counted from the first.
    fn there(&self) -> Few
        ensures { Holds (those (present self.now.miss self.now.n) self.now.k) result.at result.count }
    {
        places(&self.miss[self.n..self.n + self.k], false)
    }

    // The row of a lost data unit, from its weights: in the slot of a missing data unit the parity unit that stands in counts for its weight, in any
    // other the data unit for what the equations bring of it.
    fn data_row(&self, tables: &Tables, weights: [u8; 3], is: [usize; 3]) -> [u8; 16]
        requires { (r : ℕ) → r < 3 → get_or is r 0 < 3 }
        ensures { (j : ℕ) → j < self.now.n → get_or result j 0 ≡ slot_coef weights is (flag self.now.miss j) (count (flag self.now.miss) j) j }
    {
        let lines = coefs_of(is);
        let mut row = [0u8; 16];
        let mut c: usize = 0;
        for j in 0..self.n {
            if self.miss[j] {
                row[j] = weights[c];
                c += 1;
            } else {
                row[j] = systems::dot(tables, weights, [lines[0][j], lines[1][j], lines[2][j]]);
            }
        }
        row
    }

    // The rows of the d lost data units, where m is the inverse; zeros beyond them.
    fn lost_rows(&self, tables: &Tables, m: [[u8; 3]; 3], is: [usize; 3], d: usize) -> [[u8; 16]; 3]
        requires { (d ≤ 3) × ((r : ℕ) → r < 3 → get_or is r 0 < 3) }
        ensures { (c : ℕ) → c < 3 → (j : ℕ) → j < self.now.n → ent result c j ≡ lost_coef m is d (flag self.now.miss) c j }
    {
        let mut rows = [[0u8; 16]; 3];
        for c in 0..d {
            rows[c] = self.data_row(tables, weights(m[c], d), is);
        }
        rows
    }

    // The row of parity unit i, from the rows of the lost data units: its own coefficient of a slot, and what the lost units bring.
    fn parity_row(
        &self,
        tables: &Tables,
        ks: [usize; 3],
        lines: [[u8; 16]; 3],
        i: usize,
    ) -> [u8; 16]
        requires { (i < 3) × ((c : ℕ) → c < 3 → get_or ks c 0 < 16) }
        ensures { (j : ℕ) → j < self.now.n → get_or result j 0 ≡ parity_coef ks (three_of (λ r. ent lines r j)) (flag self.now.miss j) i j }
    {
        let own = systems::row(i);
        let across = coefs_across(i, ks);
        let mut row = [0u8; 16];
        for j in 0..self.n {
            let brought = systems::dot(tables, across, [lines[0][j], lines[1][j], lines[2][j]]);
            row[j] = if self.miss[j] {
                brought
            } else {
                own[j] ^ brought
            };
        }
        row
    }

    // The rows of the missing units, from the solved equations: those of the lost data units, then those of parity units.
    fn solved_rows(&self, gone: Few) -> [[u8; 16]; 3]
        requires { Holds (those (flag self.now.miss) (self.now.n + self.now.k)) gone.at gone.count }
        ensures { RowsFor self.now.n self.now.k (flag self.now.miss) result }
    {
        let lost = self.lost();
        let is = self.there().at;
        let tables = Tables::new();
        let inverse = systems::inverse(&tables, systems::system(is, lost.at, lost.count));
        let lines = self.lost_rows(&tables, inverse, is, lost.count);
        let mut rows = lines;
        for q in lost.count..gone.count {
            rows[q] = self.parity_row(&tables, lost.at, lines, gone.at[q] - self.n);
        }
        rows
    }
}

// For each missing unit, lowest first, its coefficients over the slots. Parity units alone, and one data unit alone, which is a plain sum, need no
// equations: that is all there is after one failure. For the others the field's tables are made once, and lent to all that makes products.
pub fn rows(miss: [bool; 19], n: usize, k: usize) -> [[u8; 16]; 3]
    requires { Solvable n k (flag miss) }
    ensures { RowsFor n k (flag miss) result }
{
    let group = Group { miss, n, k };
    let gone = group.gone();
    if n <= gone.at[0] {
        return own_rows(gone, n);
    }
    if gone.count == 1 {
        return [[1u8; 16], [0u8; 16], [0u8; 16]];
    }
    group.solved_rows(gone)
}

// The units that the slots read: slot j reads data unit j, or where that is missing the parity unit that stands in.
pub fn slots(miss: [bool; 19], n: usize, k: usize) -> [usize; 16]
    requires { Solvable n k (flag miss) }
    ensures { (j : ℕ) → j < n → get_or result j 0 ≡ slot n k (flag miss) j }
{
    let group = Group { miss, n, k };
    let there = group.there();
    let mut units = [0usize; 16];
    let mut c: usize = 0;
    for j in 0..n {
        if miss[j] {
            units[j] = n + there.at[c];
            c += 1;
        } else {
            units[j] = j;
        }
    }
    units
}
