// Where units lie, and which unit lies at a place.
#![tactic(auto)]

ghost use Rattle.std.specs.Prelude.{◌≡◌, ℕ, ◌+◌, ◌<◌};
ghost use Rattle.lists.specs.Tabulate.{at};
ghost use Rattle.numbers.specs.Layouts.{Valid, width, frames, all_groups, image_length};
ghost use Rattle.numbers.specs.Answers.{Shaped};
ghost use Rattle.tile.specs.Permutation.{inverse_of};
ghost use Rattle.place.specs.Places.{tile_permutation, cell_of, place_of, unit_in_row, unit_of};
ghost use Rattle.place.specs.Bytes.{spot_of};
ghost use Rattle.place.specs.Asked.{Holding};

use numbers::{Layout, Shape};

// A column of the row of one frame of each target: the permutation of the row's tile tells the column's target.
#[derive(Clone, Copy)]
pub struct Cell {
    pub frame: u64,
    pub column: u64,
}

// A frame of a target.
#[derive(Clone, Copy)]
pub struct Place {
    pub frame: u64,
    pub target: u64,
}

// A unit of a group.
#[repr(C)]
#[derive(Clone, Copy)]
pub struct Unit {
    pub group: u64,
    pub unit: u64,
}

// The cell of unit u of group g.
#[tactic(auto, using(crate::specs::Asked::cell_fits), unfolding(crate::specs::Places::cell_of, crate::specs::Units::frame_of, numbers::specs::Answers::shape_of))]
pub fn cell_of(y: Layout, s: Shape, g: u64, u: u64) -> Cell
    requires { Valid y × Shaped y s × (g < all_groups y) × (u < width y) }
    ensures { result ≡ cell_of y g u }
{
    let x = s.w * (g % s.c) + u;
    Cell {
        frame: s.l * (g / s.c) + x / y.p,
        column: x % y.p,
    }
}

// The cell of the next unit of a group, with no division: the next column, or the first of the next row.
pub fn next_cell(y: Layout, a: Cell) -> Cell
    requires { Valid y × (a.frame < frames y) × (a.column < y.p) }
    ensures { (g u : ℕ) → a ≡ cell_of y g u → result ≡ cell_of y g (u + 1) }
{
    let column = a.column + 1;
    if column == y.p {
        Cell {
            frame: a.frame + 1,
            column: 0,
        }
    } else {
        Cell {
            frame: a.frame,
            column,
        }
    }
}

// The place at a cell, by the permutation of its tile.
pub fn place_at(to: &[u8; 64], a: Cell) -> Place
    requires { a.column < 64 }
    ensures { (result.frame ≡ a.frame) × (result.target ≡ at to.now a.column) }
{
    Place {
        frame: a.frame,
        target: u64::from(to[a.column as usize]),
    }
}

// The unit in a column of a row of a tile.
#[tactic(auto, using(crate::specs::Asked::row_fits), unfolding(crate::specs::Places::unit_in_row, numbers::specs::Answers::shape_of))]
pub fn unit_at(y: Layout, s: Shape, tile: u64, row: u64, column: u64) -> Unit
    requires { Valid y × Shaped y s × (tile < y.t) × (row < s.l) × (column < y.p) }
    ensures { result ≡ unit_in_row y tile row column }
{
    let x = y.p * row + column;
    Unit {
        group: s.c * tile + x / s.w,
        unit: x % s.w,
    }
}

// The unit in frame r of target t, by the inverse of the permutation of the frame's tile.
pub fn unit_in(y: Layout, s: Shape, from: &[u8; 64], r: u64, t: u64) -> Unit
    requires { Holding y s from.now r t }
    ensures { result ≡ unit_of y r t }
{
    let column = u64::from(from[t as usize]);
    unit_at(y, s, r / s.l, r % s.l, column)
}

// The target of each column of a tile. Whoever needs a tile's permutation has it from here, or from `inverse`.
#[tactic(auto, unfolding(crate::specs::Places::tile_permutation))]
pub fn permutation(y: Layout, tile: u64) -> [u8; 64]
    requires { Valid y }
    ensures { result ≡ tile_permutation y tile }
{
    tile::permutation(y.edition, y.p, y.cookie, tile)
}

// The column of each target of a tile.
#[tactic(auto, unfolding(crate::specs::Places::tile_permutation))]
pub fn inverse(y: Layout, tile: u64) -> [u8; 64]
    requires { Valid y }
    ensures { result ≡ inverse_of (tile_permutation y tile) }
{
    tile::inverse(y.edition, y.p, y.cookie, tile)
}

// The place of unit u of group g, working out the permutation too.
pub fn place_of(y: Layout, s: Shape, g: u64, u: u64) -> Place
    requires { Valid y × Shaped y s × (g < all_groups y) × (u < width y) }
    ensures { result ≡ place_of y g u }
{
    let a = cell_of(y, s, g, u);
    let tile = g / s.c;
    place_at(&permutation(y, tile), a)
}

// The unit in frame r of target t, working out the inverse too.
pub fn unit_of(y: Layout, s: Shape, r: u64, t: u64) -> Unit
    requires { Valid y × Shaped y s × (r < frames y) × (t < y.p) }
    ensures { result ≡ unit_of y r t }
{
    unit_in(y, s, &inverse(y, r / s.l), r, t)
}

// The byte of the image that is byte o of a place.
#[tactic(auto, using(crate::specs::Asked::spot_fits), unfolding(crate::specs::Bytes::spot_of))]
pub fn spot_of(y: Layout, s: Shape, a: Place, o: u64) -> u64
    requires { Valid y × Shaped y s × (a.target < y.p) × (a.frame < frames y) × (o < y.u) }
    ensures { (result ≡ spot_of y a o) × (result < image_length y) }
{
    a.target * (s.l * y.t * y.u) + a.frame * y.u + o
}
