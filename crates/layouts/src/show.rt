// One layout: its numbers and every call on it, at the ends, at drawn places, and just outside.
use layout::{Cursor, Entries, Held, Mapped, Measured, Placed, Step, Traced};
use lists::Refusal;
use numbers::{Layout, Numbers};
use std::io;
use trial::draw;

// A number below n, or 0 where there is none.
fn below(seed: &mut u64, n: u64) -> u64 {
    if n == 0 { 0 } else { draw(seed, n) }
}

// A number's remainder, or 0 where there is none.
fn within(x: u64, n: u64) -> u64 {
    x.checked_rem(n).unwrap_or(0)
}

// ---- the lines

pub fn head(rt: &impl Print, label: &str, y: Layout) -> io::Result<()> {
    println!(rt;
        "{label} {} {} {} {} {} {} {}",
        y.n, y.k, y.p, y.u, y.t, y.cookie, y.edition
    )
}

pub fn numbers(rt: &impl Print, y: Layout) -> io::Result<Numbers> {
    let answer = Measured::from(layout::measure(y));
    let refusal = answer.refusal;
    let m = answer.numbers;
    print!(rt; "numbers {refusal} {} {} {} {} ", m.w, m.b, m.l, m.c)?;
    println!(rt; "{} {} {} {}", m.frames, m.groups, m.capacity, m.image)?;
    Ok(m)
}

fn entries(
    rt: &impl Print,
    label: &str,
    tile: u64,
    answer: Result<[u8; 64], Refusal>,
) -> io::Result<()> {
    let list = Entries::from(answer);
    print!(rt; "{label} {tile} {}", list.refusal)?;
    for entry in list.entries {
        print!(rt; " {entry}")?;
    }
    println!(rt; "")
}

pub fn tile(rt: &impl Print, y: Layout, tile: u64) -> io::Result<()> {
    entries(rt, "permutation", tile, layout::tile_permutation(y, tile))?;
    entries(rt, "inverse", tile, layout::tile_inverse(y, tile))
}

pub fn place(rt: &impl Print, y: Layout, group: u64, unit: u64) -> io::Result<()> {
    let at = Placed::from(layout::find_place(y, group, unit));
    print!(rt;
        "place {group} {unit} {} {} {} {} ",
        at.refusal, at.frame, at.target, at.begins
    )?;
    let held = Held::from(layout::find_unit(y, at.frame, at.target));
    println!(rt; "{} {} {}", held.refusal, held.group, held.unit)
}

pub fn back(rt: &impl Print, y: Layout, frame: u64, target: u64) -> io::Result<()> {
    let held = Held::from(layout::find_unit(y, frame, target));
    println!(rt;
        "back {frame} {target} {} {} {}",
        held.refusal, held.group, held.unit
    )
}

pub fn offset(rt: &impl Print, y: Layout, x: u64) -> io::Result<()> {
    let at = Mapped::from(layout::map_offset(y, x));
    println!(rt;
        "offset {x} {} {} {} {} {}",
        at.refusal, at.group, at.unit, at.byte, at.image
    )
}

pub fn byte(rt: &impl Print, y: Layout, x: u64) -> io::Result<()> {
    let at = Traced::from(layout::map_byte(y, x));
    let is_data = u64::from(at.is_data);
    println!(rt;
        "byte {x} {} {} {} {} {is_data} {}",
        at.refusal, at.group, at.unit, at.byte, at.offset
    )
}

pub fn step(rt: &impl Print, y: Layout, target: u64, frame: u64) -> io::Result<()> {
    print!(rt; "walk {target} {frame} ")?;
    match (Cursor { target, frame }).step(y) {
        Step::At(held, next) => println!(rt;
            "at {} {} {} {}",
            held.group, held.unit, next.target, next.frame
        ),
        Step::Done(same) => println!(rt; "done {} {}", same.target, same.frame),
        Step::Refused(refusal, same) => println!(rt;
            "refused {refusal} {} {}",
            same.target, same.frame
        ),
    }
}

// ---- a whole layout

fn tiles(rt: &impl Print, y: Layout) -> io::Result<()> {
    for at in [0, y.t / 2, y.t.saturating_sub(1), y.t, u64::MAX] {
        tile(rt, y, at)?;
    }
    Ok(())
}

// Each unit of a group, and the first that is none.
fn group(rt: &impl Print, y: Layout, g: u64, width: u64) -> io::Result<()> {
    for unit in 0..=width {
        place(rt, y, g, unit)?;
    }
    Ok(())
}

fn places(rt: &impl Print, y: Layout, m: Numbers, seed: &mut u64) -> io::Result<()> {
    let first = within(trial::wide(seed), m.groups);
    let second = within(trial::wide(seed), m.groups);
    for g in [0, first, second, m.groups.saturating_sub(1), m.groups] {
        group(rt, y, g, m.w)?;
    }
    place(rt, y, u64::MAX, 0)?;
    place(rt, y, 0, u64::MAX)
}

fn backs(rt: &impl Print, y: Layout, m: Numbers, seed: &mut u64) -> io::Result<()> {
    for _ in 0..4 {
        let frame = within(trial::wide(seed), m.frames);
        let target = below(seed, y.p);
        back(rt, y, frame, target)?;
    }
    back(rt, y, m.frames.saturating_sub(1), y.p.saturating_sub(1))?;
    back(rt, y, m.frames, 0)?;
    back(rt, y, 0, y.p)?;
    back(rt, y, u64::MAX, 0)?;
    back(rt, y, 0, u64::MAX)
}

fn offsets(rt: &impl Print, y: Layout, m: Numbers, seed: &mut u64) -> io::Result<()> {
    let first = within(trial::wider(seed), m.capacity);
    let second = within(trial::wider(seed), m.capacity);
    for x in [
        0,
        1,
        first,
        second,
        m.capacity.saturating_sub(1),
        m.capacity,
        u64::MAX,
    ] {
        offset(rt, y, x)?;
    }
    Ok(())
}

fn bytes(rt: &impl Print, y: Layout, m: Numbers, seed: &mut u64) -> io::Result<()> {
    let first = within(trial::wider(seed), m.image);
    let second = within(trial::wider(seed), m.image);
    for x in [
        0,
        1,
        first,
        second,
        m.image.saturating_sub(1),
        m.image,
        u64::MAX,
    ] {
        byte(rt, y, x)?;
    }
    Ok(())
}

fn walk(rt: &impl Print, y: Layout, m: Numbers, target: u64) -> io::Result<()> {
    for frame in [
        0,
        1,
        m.frames.saturating_sub(1),
        m.frames,
        m.frames.wrapping_add(1),
        u64::MAX,
    ] {
        step(rt, y, target, frame)?;
    }
    Ok(())
}

fn walks(rt: &impl Print, y: Layout, m: Numbers, seed: &mut u64) -> io::Result<()> {
    let target = below(seed, y.p);
    for at in [0, target, y.p, u64::MAX] {
        walk(rt, y, m, at)?;
    }
    Ok(())
}

pub fn whole(rt: &impl Print, y: Layout, seed: &mut u64) -> io::Result<()> {
    head(rt, "layout", y)?;
    let m = numbers(rt, y)?;
    tiles(rt, y)?;
    places(rt, y, m, seed)?;
    backs(rt, y, m, seed)?;
    offsets(rt, y, m, seed)?;
    bytes(rt, y, m, seed)?;
    walks(rt, y, m, seed)
}
