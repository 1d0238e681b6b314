// The numbers of a layout.
#![tactic(auto)]

ghost use Rattle.std.specs.Prelude.{◌≡◌, ◌≤◌};
ghost use Rattle.lists.specs.Numbered.{answer_number};
ghost use Rattle.numbers.specs.Gcd.{gcd as gcdOf};
ghost use Rattle.numbers.specs.Layouts.{Valid, all_groups, all_contents};
ghost use Rattle.numbers.specs.Refused.{layout_refusal, no_layout};
ghost use Rattle.numbers.specs.Answers.{Shaped, Numbered};
ghost use Rattle.numbers.specs.Editions.{other_edition};

use lists::Refusal;

// Document 01's six numbers: N data units and K parity units a group (with K spares), P targets,
// U bytes a unit, T tiles, and the cookie that the permutations start from. And document 02's
// edition of the permutations, 1 or 2: document 01's are edition 1.
#[repr(C)]
#[derive(Clone, Copy, Debug, Default, PartialEq, Eq)]
pub struct Layout {
    pub n: u64,
    pub k: u64,
    pub p: u64,
    pub u: u64,
    pub t: u64,
    pub cookie: u64,
    pub edition: u64,
}

// W, B, L and C.
#[derive(Clone, Copy, Debug, Default, PartialEq, Eq)]
pub struct Shape {
    pub w: u64,
    pub b: u64,
    pub l: u64,
    pub c: u64,
}

// All the numbers that follow from a layout.
#[repr(C)]
#[derive(Clone, Copy, Debug, Default, PartialEq, Eq)]
pub struct Numbers {
    pub w: u64,
    pub b: u64,
    pub l: u64,
    pub c: u64,
    pub frames: u64,
    pub groups: u64,
    pub capacity: u64,
    pub image: u64,
}

// The greatest common divisor, by Euclid's rule.
pub fn gcd(a: u64, b: u64) -> u64
    ensures { result ≡ gcdOf a b }
{
    if b == 0 { a } else { gcd(b, a % b) }
}

// Refused where a number is out of its bounds. N and K are tested before W is worked out, so that nothing wraps.
pub fn check(y: Layout) -> Result<(), Refusal>
    ensures { answer_number result ≡ layout_refusal y }
{
    if y.n < 1 {
        return Err(Refusal::Layout);
    }
    if 16 < y.n {
        return Err(Refusal::Layout);
    }
    if 3 < y.k {
        return Err(Refusal::Layout);
    }
    if y.p < y.n + 2 * y.k {
        return Err(Refusal::Layout);
    }
    if 64 < y.p {
        return Err(Refusal::Layout);
    }
    if y.u < 1 {
        return Err(Refusal::Layout);
    }
    if 4096 < y.u {
        return Err(Refusal::Layout);
    }
    if y.t < 1 {
        return Err(Refusal::Layout);
    }
    if 65536 < y.t {
        return Err(Refusal::Layout);
    }
    if y.edition < 1 {
        return Err(Refusal::Layout);
    }
    if 2 < y.edition {
        return Err(Refusal::Layout);
    }
    Ok(())
}

// Zeros: no layout that is within the bounds.
pub fn no_layout() -> Layout
    ensures { result ≡ no_layout }
{
    Layout::default()
}

pub fn shape_of(y: Layout) -> Shape
    requires { Valid y }
    ensures { Shaped y result }
{
    let w = y.n + 2 * y.k;
    let b = w / gcd(w, y.p) * y.p;
    Shape {
        w,
        b,
        l: b / y.p,
        c: b / w,
    }
}

pub fn numbers_of(y: Layout) -> Numbers
    requires { Valid y }
    ensures { Numbered y result }
{
    let Shape { w, b, l, c } = shape_of(y);
    Numbers {
        w,
        b,
        l,
        c,
        frames: l * y.t,
        groups: c * y.t,
        capacity: y.t * c * y.n * y.u,
        image: y.p * l * y.t * y.u,
    }
}

// T·C·(N+K), the contents of all groups.
pub fn all_contents(y: Layout, groups: u64) -> u64
    requires { Valid y × (groups ≡ all_groups y) }
    ensures { (result ≡ all_contents y) × (result ≤ 79691776) }
{
    groups * (y.n + y.k)
}

// The same layout in the other edition: 2 for 1, and 1 for 2.
pub fn other_edition(y: Layout) -> Layout
    requires { Valid y }
    ensures { result ≡ other_edition y }
{
    Layout {
        edition: 3 - y.edition,
        ..y
    }
}
