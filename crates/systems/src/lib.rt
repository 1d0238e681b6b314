// The coefficients of the parity code, and small systems over the field with a matrix held by value, rows of rows. What makes products has the
// field's tables lent.
#![tactic(auto)]

ghost use Rattle.std.specs.Prelude.{◌≡◌, ℕ, ◌<◌, get_or};
ghost use Rattle.field.specs.Byte.{mul as product};
ghost use Rattle.systems.specs.Coef.{coef as coefficient};
ghost use Rattle.systems.specs.Cramer.{lo, hi, cof, inverse as inverseEntry};
ghost use Rattle.systems.specs.System.{system_entry};
ghost use Rattle.systems.specs.Matrix.{ent, three_of, square_of, dot_of};

use field::Tables;
use std::array;

const COEFS: [[u8; 16]; 3] = [
    [1, 1, 1, 1, 1, 1, 1, 1, 1, 1, 1, 1, 1, 1, 1, 1],
    [
        1, 232, 220, 240, 194, 14, 124, 170, 53, 144, 186, 162, 17, 63, 50, 101,
    ],
    [
        1, 220, 130, 32, 10, 134, 21, 182, 128, 3, 55, 126, 83, 193, 88, 41,
    ],
];

// The coefficient of data unit j in parity unit i.
pub fn coef(i: usize, j: usize) -> u8
    requires { (i < 3) × (j < 16) }
    ensures { result ≡ coefficient i j }
{
    COEFS[i][j]
}

// The coefficients of parity i.
pub fn row(i: usize) -> [u8; 16]
    requires { i < 3 }
    ensures { (j : ℕ) → j < 16 → get_or result j 0 ≡ coefficient i j }
{
    COEFS[i]
}

// The two other indices of three.
fn low(r: usize) -> usize
    ensures { (result < 3) × (result ≡ lo r) }
{
    if r == 0 { 1 } else { 0 }
}

fn high(r: usize) -> usize
    requires { r < 3 }
    ensures { (result < 3) × (result ≡ hi r) }
{
    if r == 2 { 1 } else { 2 }
}

// The determinant of what is left without row r and column c.
fn cofactor(tables: &Tables, m: [[u8; 3]; 3], r: usize, c: usize) -> u8
    requires { (r < 3) × (c < 3) }
    ensures { result ≡ cof (ent m) r c }
{
    let i = low(r);
    let k = high(r);
    let j = low(c);
    let l = high(c);
    tables.mul(m[i][j], m[k][l]) ^ tables.mul(m[i][l], m[k][j])
}

// The sum of the products of two rows of three, written out in the order of the rule: it is made for every slot.
pub fn dot(tables: &Tables, u: [u8; 3], v: [u8; 3]) -> u8
    ensures { result ≡ dot_of u v }
{
    let first = tables.mul(u[0], v[0]);
    let second = tables.mul(u[1], v[1]);
    let third = tables.mul(u[2], v[2]);
    first ^ (second ^ third)
}

// The cofactors, each column of m as a row: times the inverse of the determinant they are the inverse.
fn cofactors(tables: &Tables, m: [[u8; 3]; 3]) -> [[u8; 3]; 3]
    ensures { result ≡ square_of (λ c r. cof (ent m) r c) }
{
    array::from_fn(
        |c|
            requires { c < 3 }
            ensures { result ≡ three_of (λ r. cof (ent m) r c) }
        { array::from_fn(|r| cofactor(tables, m, r, c)) },
    )
}

// A matrix, each entry times d.
fn scaled(tables: &Tables, m: [[u8; 3]; 3], d: u8) -> [[u8; 3]; 3]
    ensures { result ≡ square_of (λ c r. product (ent m c r) d) }
{
    array::from_fn(
        |c|
            requires { c < 3 }
            ensures { result ≡ three_of (λ r. product (ent m c r) d) }
        { array::from_fn(|r| tables.mul(m[c][r], d)) },
    )
}

// The inverse of a matrix whose determinant is not 0: times a right side it is the one solution.
pub fn inverse(tables: &Tables, m: [[u8; 3]; 3]) -> [[u8; 3]; 3]
    ensures { result ≡ square_of (inverseEntry (ent m)) }
{
    let columns = cofactors(tables, m);
    let det = dot(tables, m[0], [columns[0][0], columns[1][0], columns[2][0]]);
    scaled(tables, columns, tables.inv(det))
}

// One entry of the equations for the lost units `ks` from the parity units `is`, d of each, padded with the identity.
#[tactic(auto, unfolding(crate::specs::System::system_entry))]
fn entry(is: [usize; 3], ks: [usize; 3], d: usize, r: usize, c: usize) -> u8
    requires { (r < 3) × (c < 3) × ((r : ℕ) → r < 3 → get_or is r 0 < 3) × ((c : ℕ) → c < 3 → get_or ks c 0 < 16) }
    ensures { result ≡ system_entry is ks d r c }
{
    if r < d && c < d {
        coef(is[r], ks[c])
    } else {
        u8::from(r == c)
    }
}

// The equations, rows of rows.
pub fn system(is: [usize; 3], ks: [usize; 3], d: usize) -> [[u8; 3]; 3]
    requires { ((r : ℕ) → r < 3 → get_or is r 0 < 3) × ((c : ℕ) → c < 3 → get_or ks c 0 < 16) }
    ensures { result ≡ square_of (system_entry is ks d) }
{
    array::from_fn(
        |r|
            requires { (r < 3) × ((r : ℕ) → r < 3 → get_or is r 0 < 3) × ((c : ℕ) → c < 3 → get_or ks c 0 < 16) }
            ensures { result ≡ three_of (system_entry is ks d r) }
        { array::from_fn(|c| entry(is, ks, d, r, c)) },
    )
}
