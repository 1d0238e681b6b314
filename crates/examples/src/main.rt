// Document 01's checked examples of layouts, permutations, places, walks and offsets, in words; then the permutations of
// edition 2.
#![tactic(auto)]

use layout::{Cursor, Entries, Measured, Step};
use numbers::Layout;
use std::io;
use tile::Generator;

fn layout_of(n: u64, k: u64, p: u64, u: u64, edition: u64) -> Layout {
    Layout {
        n,
        k,
        p,
        u,
        t: 1,
        cookie: 0,
        edition,
    }
}

fn show_numbers(rt: &impl Print, y: Layout) -> io::Result<()> {
    let answer = Measured::from(layout::measure(y));
    let m = answer.numbers;
    print!(rt;
        "N={} K={} P={} U={} T={}: refusal {}, ",
        y.n, y.k, y.p, y.u, y.t, answer.refusal
    )?;
    print!(rt; "W={} B={} L={} C={} ", m.w, m.b, m.l, m.c)?;
    println!(rt;
        "frames={} groups={} capacity={} image={}",
        m.frames, m.groups, m.capacity, m.image
    )
}

// The state from which the exchanges begin, and those of three exchanges, each under its name.
fn show_states(rt: &impl Print, edition: u64, names: [&str; 4]) -> io::Result<()> {
    println!(rt; "Generator states of cookie 0, tile 0, edition {edition}")?;
    let mut g = Generator::begin(edition, 0, 0);
    for name in names {
        println!(rt; "{name}: {}", g.state)?;
        g = g.advance();
    }
    Ok(())
}

fn show_entries(rt: &impl Print, entries: &[u8]) -> io::Result<()> {
    for entry in entries {
        print!(rt; " {entry}")?;
    }
    Ok(())
}

fn show_permutation(rt: &impl Print, y: Layout) -> io::Result<()> {
    let count = y.p.min(64) as usize;
    let forth = Entries::from(layout::tile_permutation(y, 0));
    print!(rt; "P={}: permutation", y.p)?;
    show_entries(rt, &forth.entries[..count])?;
    let back = Entries::from(layout::tile_inverse(y, 0));
    print!(rt; ", inverse")?;
    show_entries(rt, &back.entries[..count])?;
    println!(rt; "")
}

fn show_permutations(rt: &impl Print, edition: u64) -> io::Result<()> {
    println!(rt; "Permutations of cookie 0, tile 0, edition {edition}")?;
    show_permutation(rt, layout_of(1, 1, 3, 1, edition))?;
    show_permutation(rt, layout_of(1, 1, 4, 4, edition))
}

fn show_place(rt: &impl Print, y: Layout, group: u64, unit: u64) -> io::Result<()> {
    print!(rt; "group {group} unit {unit}: ")?;
    match layout::find_place(y, group, unit) {
        Ok(found) => {
            let at = found.place;
            print!(rt;
                "frame {} target {}, begins at {}, and back: ",
                at.frame, at.target, found.begins
            )?;
            match layout::find_unit(y, at.frame, at.target) {
                Ok(held) => println!(rt; "group {} unit {}", held.group, held.unit),
                Err(refusal) => println!(rt; "refusal {refusal}"),
            }
        }
        Err(refusal) => println!(rt; "refusal {refusal}"),
    }
}

fn show_no_unit(rt: &impl Print, y: Layout, frame: u64, target: u64) -> io::Result<()> {
    let refusal = lists::answer_number(layout::find_unit(y, frame, target));
    println!(rt; "frame {frame} target {target}: refusal {refusal}")
}

fn show_places(rt: &impl Print, y: Layout) -> io::Result<()> {
    println!(rt; "Places of N=1 K=1 P=4 U=4 T=1 cookie 0")?;
    show_numbers(rt, y)?;
    for group in 0..4 {
        for unit in 0..3 {
            show_place(rt, y, group, unit)?;
        }
    }
    show_place(rt, y, 4, 0)?;
    show_place(rt, y, 0, 3)?;
    show_no_unit(rt, y, 3, 0)?;
    show_no_unit(rt, y, 0, 4)
}

fn show_step(rt: &impl Print, y: Layout, target: u64, frame: u64) -> io::Result<()> {
    print!(rt; "target {target} frame {frame}: ")?;
    match (Cursor { target, frame }).step(y) {
        Step::At(held, next) => println!(rt;
            "group {} unit {}, next frame {}",
            held.group, held.unit, next.frame
        ),
        Step::Done(_) => println!(rt; "done"),
        Step::Refused(refusal, _) => println!(rt; "refusal {refusal}"),
    }
}

fn show_walks(rt: &impl Print, y: Layout) -> io::Result<()> {
    println!(rt; "Walks over its targets")?;
    for target in 0..5 {
        for frame in 0..5 {
            show_step(rt, y, target, frame)?;
        }
    }
    Ok(())
}

fn show_offset(rt: &impl Print, y: Layout, offset: u64) -> io::Result<()> {
    print!(rt; "offset {offset}: ")?;
    match layout::map_offset(y, offset) {
        Ok(found) => {
            let held = found.held;
            println!(rt;
                "group {} unit {} byte {}, image byte {}",
                held.group, held.unit, found.byte, found.image
            )
        }
        Err(refusal) => println!(rt; "refusal {refusal}"),
    }
}

fn show_byte(rt: &impl Print, y: Layout, image: u64) -> io::Result<()> {
    print!(rt; "image byte {image}: ")?;
    match layout::map_byte(y, image) {
        Ok(found) => {
            let held = found.held;
            print!(rt;
                "group {} unit {} byte {}, ",
                held.group, held.unit, found.byte
            )?;
            match found.offset {
                Some(offset) => println!(rt; "offset {offset}"),
                None => println!(rt; "not of the file"),
            }
        }
        Err(refusal) => println!(rt; "refusal {refusal}"),
    }
}

// The bytes of offsets 0, 9 and 15, one of a parity unit, one of a spare, one past the image.
fn show_bytes(rt: &impl Print, y: Layout) -> io::Result<()> {
    println!(rt; "And back from bytes of the image")?;
    for image in [24, 41, 23, 14, 36, 48] {
        show_byte(rt, y, image)?;
    }
    Ok(())
}

// Dividing offset 9 by the spares too, beside what is right.
fn show_slip(rt: &impl Print, y: Layout) -> io::Result<()> {
    println!(rt; "The slip of dividing by the spares too")?;
    println!(rt;
        "offset 9 divided by U*(N+2K)=12: group {} unit {}, a spare",
        9 / 12,
        9 % 12 / 4
    )?;
    match layout::map_offset(y, 9) {
        Ok(found) => println!(rt;
            "offset 9 divided by N*U=4: group {} unit {}",
            found.held.group, found.held.unit
        ),
        Err(refusal) => println!(rt; "refusal {refusal}"),
    }
}

fn say_everything(rt: HostRuntime) -> io::Result<()> {
    println!(rt; "Layout numbers")?;
    show_numbers(&rt, layout_of(4, 2, 20, 1, 1))?;
    show_numbers(&rt, layout_of(1, 0, 1, 1, 1))?;
    show_numbers(&rt, layout_of(16, 3, 22, 1, 1))?;
    show_numbers(&rt, layout_of(16, 3, 21, 1, 1))?;
    show_states(&rt, 1, ["start", "state 1", "state 2", "state 3"])?;
    show_permutations(&rt, 1)?;
    let y = layout_of(1, 1, 4, 4, 1);
    show_places(&rt, y)?;
    show_walks(&rt, y)?;
    println!(rt; "File offsets")?;
    for offset in [0, 9, 15, 16] {
        show_offset(&rt, y, offset)?;
    }
    show_bytes(&rt, y)?;
    show_slip(&rt, y)?;
    show_states(&rt, 2, ["state 4", "state 5", "state 6", "state 7"])?;
    show_permutations(&rt, 2)
}

// Where standard output takes no more, the rest is not shown; the status is 0 all the same.
fn main(rt: HostRuntime) {
    let _ = say_everything(rt);
}
