// Layouts over the whole range, with their numbers, permutations, places, offsets, image bytes,
// walks and refusals; seeded, and compared with what `oracle/` prints.
#![tactic(auto)]

mod bounds;
mod drawn;
mod show;

use numbers::Layout;
use std::io;

// N, K, P, U, T, the cookie and the edition.
type Row = (u64, u64, u64, u64, u64, u64, u64);

const ENDS: [Row; 7] = [
    (1, 0, 1, 1, 1, 0, 1),
    (1, 0, 64, 4096, 65536, u64::MAX, 2),
    (16, 3, 22, 4096, 65536, u64::MAX, 1),
    (16, 3, 64, 4096, 65536, 0, 2),
    (16, 0, 16, 1, 65536, u64::MAX - 1, 1),
    (1, 3, 7, 1, 1, 1, 2),
    (1, 3, 64, 1, 65536, u64::MAX, 1),
];

const SMALL: [Row; 7] = [
    (4, 2, 20, 16, 3, 0, 1),
    (4, 2, 20, 16, 3, 0, 2),
    (1, 1, 3, 2, 1, 0, 1),
    (1, 1, 4, 4, 1, 0, 1),
    (1, 1, 4, 4, 1, 0, 2),
    (15, 3, 21, 512, 1000, 9223372036854775808, 1),
    (8, 2, 63, 4095, 65535, 9223372036854775807, 2),
];

fn show_rows(rt: &impl Print, rows: &[Row], seed: &mut u64) -> io::Result<()> {
    for &(n, k, p, u, t, cookie, edition) in rows {
        let y = Layout {
            n,
            k,
            p,
            u,
            t,
            cookie,
            edition,
        };
        show::whole(rt, y, seed)?;
    }
    Ok(())
}

fn say_everything(rt: HostRuntime) -> io::Result<()> {
    let mut seed = 20260101;
    show_rows(&rt, &ENDS, &mut seed)?;
    show_rows(&rt, &SMALL, &mut seed)?;
    for _ in 0..36 {
        let y = drawn::layout(&mut seed);
        show::whole(&rt, y, &mut seed)?;
    }
    bounds::show_all(&rt)
}

// Where standard output takes no more, the rest is not shown; the status is 0 all the same.
fn main(rt: HostRuntime) {
    let _ = say_everything(rt);
}
