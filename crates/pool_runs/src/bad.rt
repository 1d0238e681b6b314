// Calls that are refused for their layout, their image or their record: all nine calls with each. A kind is drawn and printed, so it is a number.
use crate::calls;
use crate::calls::{Counted, Run};
use homes::Record;
use lists::answer_number;
use numbers::Layout;
use std::io;
use trial::checksum;

// The layout of a bad call.
fn layout_for(y: Layout, kind: u64) -> Layout {
    match kind {
        0 | 9 => Layout { u: 0, ..y },
        1 => Layout { n: u64::MAX, ..y },
        13 => Layout { edition: 0, ..y },
        14 => Layout { edition: 3, ..y },
        _ => y,
    }
}

fn record_of(failed: [u64; 3], k: u64) -> Record {
    Record {
        failed,
        k,
        q: 0,
        waiting: 0,
    }
}

fn record_for(run: Run, kind: u64) -> Record {
    let rec = run.rec;
    match kind {
        4 => record_of([0, 1, 2], run.y.k.wrapping_add(1)),
        5 => Record {
            q: rec.k.wrapping_add(1),
            ..rec
        },
        6 => record_of([run.y.p, 0, 0], 1),
        7 => record_of([0, 0, 0], 2),
        8..=10 => Record {
            failed: [u64::MAX; 3],
            k: u64::MAX,
            q: u64::MAX,
            waiting: u64::MAX,
        },
        11 => Record {
            waiting: run.contents().wrapping_add(1),
            ..rec
        },
        12 => Record {
            waiting: u64::MAX,
            ..rec
        },
        _ => rec,
    }
}

// The part of the image that a bad call is lent.
fn part_for(image: &mut [u8], kind: u64) -> &mut [u8] {
    let end = match kind {
        3 | 9 => 0,
        2 | 10 => image.len().saturating_sub(1),
        _ => image.len(),
    };
    &mut image[..end]
}

fn read_and_write(rt: &impl Print, y: Layout, rec: Record, image: &mut [u8]) -> io::Result<()> {
    let mut five = [0xaa; 5];
    let read = answer_number(pool_read::read(y, rec, image, 0, &mut five));
    println!(rt; "read {read} {}", checksum(&five))?;
    let written = answer_number(pool_write::write(y, rec, image, 0, &[0xaa; 5]));
    println!(rt; "write {written}")
}

fn fail_repair_and_swap(
    rt: &impl Print,
    y: Layout,
    rec: Record,
    image: &mut [u8],
) -> io::Result<()> {
    let failed = pool_fail::fail(y, rec, image, 0);
    println!(rt;
        "fail {} {}",
        answer_number(failed),
        Counted(failed.unwrap_or(rec))
    )?;
    let repaired = pool_repair::repair(y, rec, image);
    let mended = repaired.unwrap_or(calls::unmended(rec));
    println!(rt;
        "repair {} {} {}",
        answer_number(repaired),
        Counted(mended.rec),
        mended.count
    )?;
    let swapped = pool_swap::swap(y, rec, image, 0);
    println!(rt;
        "swap {} {}",
        answer_number(swapped),
        Counted(swapped.unwrap_or(rec))
    )
}

// A look, and its shown part: the refusal and its length.
fn look(
    rt: &impl Print,
    y: Layout,
    rec: Record,
    image: &[u8],
    scratch: &mut [u8],
) -> io::Result<()> {
    scratch.fill(0xaa);
    let prepared = answer_number(pool_look::prepare(y, rec, image, 0, 0, scratch));
    print!(rt; "look {prepared} {}", checksum(scratch))?;
    let mut answer = 0;
    let shown = pool_look::show(y, rec, image, scratch, 0, 0, &mut answer);
    println!(rt; " {answer} {}", shown.len())
}

pub fn event(
    rt: &impl Print,
    run: Run,
    image: &mut [u8],
    buffer: &mut [u8],
    kind: u64,
) -> io::Result<()> {
    println!(rt; "bad {kind}")?;
    let y = layout_for(run.y, kind);
    let rec = record_for(run, kind);
    let part = part_for(image, kind);
    read_and_write(rt, y, rec, part)?;
    fail_repair_and_swap(rt, y, rec, part)?;
    look(rt, y, rec, part, calls::front(buffer, run.y.u))?;
    calls::say_panel(rt, y, rec, part)
}
