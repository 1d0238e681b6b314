// One group of a pool whose contents get other homes: all that move are taken up into a scratch before
// any is put down, since one content's new home may be another's old one.
#![tactic(auto)]

ghost use Rattle.std.specs.Prelude.{◌≡◌, true, false, ℕ, ◌+◌, ◌*◌, ◌≤◌, ◌<◌, length, get_or};
ghost use Rattle.lists.specs.Pick.{pick, bit};
ghost use Rattle.runs.specs.Run.{run_set};
ghost use Rattle.runs.specs.Held.{run_of};
ghost use Rattle.group_swap.specs.Taken.{units_copied, units_moved, RoomsAre, Movable};

// The `len` bytes of each of m units that is on, one unit after another: from where it begins in `src` to where it is to begin in `out`.
fn copy_units(
    on: [bool; 19],
    from: [usize; 19],
    to: [usize; 19],
    m: usize,
    len: usize,
    src: &[u8],
    out: &mut [u8],
)
    requires { (m ≤ 19) × ((c : ℕ) → c < m → get_or on c false ≡ true → (get_or from c 0 + len ≤ length src.now) × (get_or to c 0 + len ≤ length out.old)) }
    ensures { out.new ≡ units_copied on from to len src.now m out.old }
{
    for c in 0..m {
        if on[c] {
            runs::put_run(out, to[c], src, from[c], len);
        }
    }
}

// Which contents move, and where in the scratch each of them is kept. Two arrays and no Option, since `copy_units` takes flags and places apart: the
// places are the rooms in one call and the homes in the other.
#[derive(Clone, Copy)]
pub struct Rooms {
    pub moves: [bool; 19],
    pub at: [usize; 19],
}

// A room of 4,096 bytes, the longest unit, for each of m contents that begins elsewhere afterwards.
fn rooms_of(from: [usize; 19], to: [usize; 19], m: usize) -> Rooms
    requires { m ≤ 19 }
    ensures { RoomsAre from to m result }
{
    let mut moves = [false; 19];
    let mut at = [0usize; 19];
    let mut room: usize = 0;
    for c in 0..m {
        let taken = from[c] != to[c];
        moves[c] = taken;
        at[c] = room;
        room += usize::from(taken) * 4096;
    }
    Rooms { moves, at }
}

// Each of m contents that begins elsewhere afterwards, from there to there; what the scratch holds does not matter.
pub fn move_units(
    from: [usize; 19],
    to: [usize; 19],
    m: usize,
    len: usize,
    image: &mut [u8],
    scratch: &mut [u8],
)
    requires { Movable from to m len (length image.old) × (length scratch.old ≡ 12288) }
    ensures { image.new ≡ units_moved from to len m image.old }
{
    let rooms = rooms_of(from, to, m);
    copy_units(rooms.moves, from, rooms.at, m, len, image, scratch);
    copy_units(rooms.moves, rooms.at, to, m, len, scratch, image);
}
