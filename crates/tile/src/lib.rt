// The permutation of a tile: which target each column of the tile lies on.
#![tactic(auto)]

ghost use Rattle.std.specs.Prelude.{ℕ, ◌≢◌, IfSome, IsNone, ◌≡◌, ◌*◌, ◌%◌, ◌^◌, ◌<◌, ◌≤◌, length};
ghost use Rattle.lists.specs.Tabulate.{at};
ghost use Rattle.tile.specs.Generator.{start_of, next_of, extra, begin_of, draw_of};
ghost use Rattle.tile.specs.Permutation.{own, exchange, permutation_of, inverse_of};
ghost use Rattle.tile.specs.Laws.{Permutes};

const HALF: u64 = 4294967296;

// a * b modulo 2^64: the method under the contract that docs/TRACE.md names.
pub fn wrapping_mul(a: u64, b: u64) -> u64
    ensures { result ≡ a * b % 2 ^ 64 }
{
    a.wrapping_mul(b)
}

#[derive(Clone, Copy)]
pub struct Generator {
    pub state: u64,
}

impl Generator {
    // Knuth's MMIX constants.
    pub const MULTIPLIER: u64 = 6364136223846793005;

    pub const INCREMENT: u64 = 1442695040888963407;

    // How far apart the starts of neighbouring tiles lie.
    pub const SPREAD: u64 = 11400714819323198485;

    // How many advances edition 2 makes before the exchanges begin.
    pub const EXTRA: u64 = 4;

    #[tactic(auto, unfolding(crate::specs::Generator::start_of))]
    pub fn start(cookie: u64, tile: u64) -> Self
        ensures { result.state ≡ start_of cookie tile }
    {
        Generator {
            state: cookie.wrapping_add(wrapping_mul(Self::SPREAD, tile)),
        }
    }

    #[tactic(auto, unfolding(crate::specs::Generator::next_of))]
    pub fn advance(self) -> Self
        ensures { result.state ≡ next_of self.state }
    {
        Generator {
            state: wrapping_mul(Self::MULTIPLIER, self.state).wrapping_add(Self::INCREMENT),
        }
    }

    // By the edition's number, as a layout from C has it.
    #[tactic(auto, unfolding(crate::specs::Generator::extra))]
    fn extra_advances(edition: u64) -> u64
        ensures { result ≡ extra edition }
    {
        if edition == 2 { Self::EXTRA } else { 0 }
    }

    // The generator from which the exchanges of a tile begin.
    pub fn begin(edition: u64, cookie: u64, tile: u64) -> Self
        ensures { result.state ≡ begin_of edition cookie tile }
    {
        let mut g = Self::start(cookie, tile);
        for _ in 0..Self::extra_advances(edition) {
            g = g.advance();
        }
        g
    }

    // A number up to i, from the upper half of the state.
    pub fn draw(self, i: u64) -> u64
        requires { i < 64 }
        ensures { (result ≡ draw_of self.state i) × (result ≤ i) }
    {
        self.state / HALF * (i + 1) / HALF
    }
}

// Entry t is t.
fn own_indices() -> [u8; 64]
    ensures { result ≡ own }
{
    std::array::from_fn(|t| t as u8)
}

// Exchanges entries i and j. In place, and not by the slice's `swap`, which tests which of the two comes first: a permutation takes more
// than half as many instructions again by it.
#[tactic(auto, unfolding(crate::specs::Permutation::exchange))]
fn swap(a: &mut [u8; 64], i: usize, j: usize)
    requires { (i < 64) × (j < 64) }
    ensures { a.new ≡ exchange a.old i j }
{
    let x = a[i];
    let y = a[j];
    a[i] = y;
    a[j] = x;
}

// The target of each column of a tile.
pub fn permutation(edition: u64, p: u64, cookie: u64, tile: u64) -> [u8; 64]
    requires { (1 ≤ p) × (p ≤ 64) }
    ensures { result ≡ permutation_of edition p cookie tile }
{
    let mut a = own_indices();
    let mut g = Generator::begin(edition, cookie, tile);
    for i in (1..p).rev() {
        g = g.advance();
        let j = g.draw(i);
        swap(&mut a, i as usize, j as usize);
    }
    a
}

// The index of each entry.
fn inverted(a: [u8; 64]) -> [u8; 64]
    requires { Permutes 64 a }
    ensures { result ≡ inverse_of a }
{
    let mut b = [0u8; 64];
    for (t, &v) in a.iter().enumerate() {
        b[usize::from(v)] = t as u8;
    }
    b
}

// Where target t stands. One entry after another: the library's search loads sixteen at once, which were stored one by one just before, and takes
// twice as long.
fn find(a: &[u8; 64], t: u64) -> Option<usize>
    ensures found { IfSome result (λ i. (i < length a.now) × (at a.now i ≡ t)) }
    ensures none { IsNone result → (k : ℕ) → k < length a.now → at a.now k ≢ t }
{
    for i in 0..64 {
        if u64::from(a[i]) == t {
            return Some(i);
        }
    }
    None
}

// The column of one target, by the permutation of its tile: the inverse has 64 entries to fill where one is asked for.
pub fn column_of(a: &[u8; 64], t: u64) -> u64
    requires { (length a.now ≡ 64) × Permutes 64 a.now × (t < 64) }
    ensures { result ≡ at (inverse_of a.now) t }
{
    find(a, t).unwrap() as u64
}

// The column of each target of a tile.
pub fn inverse(edition: u64, p: u64, cookie: u64, tile: u64) -> [u8; 64]
    requires { (1 ≤ p) × (p ≤ 64) }
    ensures { result ≡ inverse_of (permutation_of edition p cookie tile) }
{
    inverted(permutation(edition, p, cookie, tile))
}
