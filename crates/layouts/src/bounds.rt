// Layouts just inside and outside every bound, and with the largest numbers of 64 bits.
use crate::show;
use numbers::Layout;
use std::io;

// A layout that is inside.
const INSIDE: Layout = Layout {
    n: 4,
    k: 2,
    p: 20,
    u: 16,
    t: 3,
    cookie: 7,
    edition: 1,
};

const HALF: u64 = 1 << 63;

fn lines(rt: &impl Print, y: Layout) -> io::Result<()> {
    show::head(rt, "bound", y)?;
    show::numbers(rt, y)?;
    show::tile(rt, y, 0)?;
    show::place(rt, y, 0, 0)?;
    show::back(rt, y, 0, 0)?;
    show::offset(rt, y, 0)?;
    show::byte(rt, y, 0)?;
    show::step(rt, y, 0, 0)?;
    show::step(rt, y, 3, u64::MAX)
}

fn data(rt: &impl Print) -> io::Result<()> {
    for (n, k, p) in [
        (0, 2, 20),
        (1, 2, 20),
        (16, 2, 20),
        (16, 2, 64),
        (17, 2, 64),
        (17, 0, 64),
        (u64::MAX, 2, 20),
        (u64::MAX - 1, 1, 20),
    ] {
        lines(rt, Layout { n, k, p, ..INSIDE })?;
    }
    Ok(())
}

fn parity(rt: &impl Print) -> io::Result<()> {
    for k in [0, 3, 4, u64::MAX, HALF - 1, HALF] {
        lines(rt, Layout { k, ..INSIDE })?;
    }
    Ok(())
}

fn targets(rt: &impl Print) -> io::Result<()> {
    for (n, k, p) in [
        (4, 2, 0),
        (4, 2, 7),
        (4, 2, 8),
        (4, 2, 9),
        (16, 3, 21),
        (16, 3, 22),
        (4, 2, 64),
        (4, 2, 65),
        (4, 2, u64::MAX),
    ] {
        lines(rt, Layout { n, k, p, ..INSIDE })?;
    }
    Ok(())
}

fn bytes(rt: &impl Print) -> io::Result<()> {
    for u in [0, 1, 4096, 4097, u64::MAX] {
        lines(rt, Layout { u, ..INSIDE })?;
    }
    Ok(())
}

fn tiles(rt: &impl Print) -> io::Result<()> {
    for t in [0, 1, 65536, 65537, u64::MAX] {
        lines(rt, Layout { t, ..INSIDE })?;
    }
    Ok(())
}

fn editions(rt: &impl Print) -> io::Result<()> {
    for edition in [0, 1, 2, 3, u64::MAX] {
        lines(rt, Layout { edition, ..INSIDE })?;
    }
    Ok(())
}

// The same number in every place.
fn all(rt: &impl Print, x: u64) -> io::Result<()> {
    lines(
        rt,
        Layout {
            n: x,
            k: x,
            p: x,
            u: x,
            t: x,
            cookie: x,
            edition: x,
        },
    )
}

pub fn show_all(rt: &impl Print) -> io::Result<()> {
    data(rt)?;
    parity(rt)?;
    targets(rt)?;
    bytes(rt)?;
    tiles(rt)?;
    lines(
        rt,
        Layout {
            cookie: u64::MAX,
            ..INSIDE
        },
    )?;
    editions(rt)?;
    all(rt, 0)?;
    all(rt, u64::MAX)
}
