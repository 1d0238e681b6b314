// Seeded runs of events on pools: writes, failures, repairs, swapped drives, reads, looks, panels, scribbles, other counts
// and refused calls, each answer printed with a checksum of the whole image and the record after it; and rows over the years.
#![tactic(auto)]

mod bad;
mod calls;
mod drawn;
mod fixed;

use calls::Run;
use std::io;
use trial::draw;

// ---- events

fn write_event(
    rt: &impl Print,
    run: Run,
    image: &mut [u8],
    buffer: &mut [u8],
    seed: &mut u64,
) -> io::Result<()> {
    let range = drawn::range(run, seed);
    let bytes = calls::front(buffer, range.length);
    trial::fill(seed, bytes);
    run.write(rt, image, range.offset, bytes)
}

fn read_event(
    rt: &impl Print,
    run: Run,
    image: &[u8],
    buffer: &mut [u8],
    seed: &mut u64,
) -> io::Result<()> {
    let range = drawn::range(run, seed);
    run.read(rt, image, range.offset, calls::front(buffer, range.length))
}

fn look_event(
    rt: &impl Print,
    run: Run,
    image: &[u8],
    buffer: &mut [u8],
    seed: &mut u64,
) -> io::Result<()> {
    let look = drawn::look(run, seed);
    let scratch = calls::front(buffer, look.length);
    run.look(rt, image, look.group, look.content, scratch)
}

// Others put any bytes on the whole of one failed target.
fn scribble_event(rt: &impl Print, run: Run, image: &mut [u8], seed: &mut u64) -> io::Result<()> {
    match run.rec.k {
        0 => println!(rt; "idle")?,
        k => {
            let target = run.entry(draw(seed, k));
            println!(rt; "scribble {target}")?;
            run.scribble(image, target, seed);
        }
    }
    run.pool(rt, image)
}

fn bad_event(
    rt: &impl Print,
    run: Run,
    image: &mut [u8],
    buffer: &mut [u8],
    kind: u64,
) -> io::Result<()> {
    bad::event(rt, run, image, buffer, kind)?;
    run.pool(rt, image)
}

fn event(
    rt: &impl Print,
    run: Run,
    image: &mut [u8],
    buffer: &mut [u8],
    seed: &mut u64,
) -> io::Result<Run> {
    match draw(seed, 20) {
        0..=4 => write_event(rt, run, image, buffer, seed)?,
        5..=7 => read_event(rt, run, image, buffer, seed)?,
        8..=10 => return run.fail(rt, image, drawn::target(run, seed)),
        11 => return run.repair(rt, image),
        12 | 13 => look_event(rt, run, image, buffer, seed)?,
        14 => scribble_event(rt, run, image, seed)?,
        15 => bad_event(rt, run, image, buffer, draw(seed, 15))?,
        16 => run.panel(rt, image)?,
        17 => return run.count(rt, image, drawn::count(run, seed)),
        _ => return run.swap(rt, image, drawn::swapped(run, seed)),
    }
    Ok(run)
}

// ---- runs

fn read_all(rt: &impl Print, run: Run, image: &[u8], buffer: &mut [u8]) -> io::Result<()> {
    run.read(rt, image, 0, calls::front(buffer, run.numbers.capacity))
}

fn drawn_run(
    rt: &impl Print,
    i: u64,
    space: &mut [u8],
    buffer: &mut [u8],
    seed: &mut u64,
) -> io::Result<()> {
    let fresh = Run::new(drawn::layout(seed));
    let image = calls::front(space, fresh.numbers.image);
    image.fill(0);
    let mut run = drawn::start(fresh, image, seed);
    run.head(rt, i, image)?;
    for _ in 0..14 {
        run = event(rt, run, image, buffer, seed)?;
    }
    read_all(rt, run, image, buffer)
}

// ---- years

fn lose(rt: &impl Print, run: Run, image: &[u8], seed: &mut u64) -> io::Result<Run> {
    run.fail(rt, image, drawn::target(run, seed))
}

fn swap(rt: &impl Print, run: Run, image: &mut [u8], seed: &mut u64) -> io::Result<Run> {
    run.swap(rt, image, drawn::swapped(run, seed))
}

// Kiosks write, drives die, and one is taken for swapped too early. Then the row is repaired, a dead drive gets other bytes, and drives are swapped.
fn year(
    rt: &impl Print,
    run: Run,
    image: &mut [u8],
    buffer: &mut [u8],
    seed: &mut u64,
) -> io::Result<Run> {
    write_event(rt, run, image, buffer, seed)?;
    let one = lose(rt, run, image, seed)?;
    let two = lose(rt, one, image, seed)?;
    let early = swap(rt, two, image, seed)?;
    let mended = early.repair(rt, image)?;
    scribble_event(rt, mended, image, seed)?;
    let back = swap(rt, mended, image, seed)?;
    back.panel(rt, image)?;
    swap(rt, back, image, seed)
}

fn years_run(
    rt: &impl Print,
    i: u64,
    space: &mut [u8],
    buffer: &mut [u8],
    seed: &mut u64,
) -> io::Result<()> {
    let mut run = Run::new(drawn::layout(seed));
    let image = calls::front(space, run.numbers.image);
    image.fill(0);
    run.head(rt, i, image)?;
    let bytes = calls::front(buffer, run.numbers.capacity);
    trial::fill(seed, bytes);
    run.write(rt, image, 0, bytes)?;
    for _ in 0..4 {
        run = year(rt, run, image, buffer, seed)?;
    }
    read_all(rt, run, image, buffer)
}

fn say_everything(rt: HostRuntime) -> io::Result<()> {
    let mut seed = 40260404;
    let mut space = [0; 65536];
    let mut buffer = [0; 65536];
    fixed::runs(&rt, &mut space, &mut buffer)?;
    for i in 4..404 {
        drawn_run(&rt, i, &mut space, &mut buffer, &mut seed)?;
    }
    fixed::counts(&rt, 404, &mut space)?;
    fixed::swaps(&rt, &mut space, &mut buffer)?;
    for i in 408..448 {
        years_run(&rt, i, &mut space, &mut buffer, &mut seed)?;
    }
    Ok(())
}

// Where standard output takes no more, the rest is not shown; the status is 0 all the same.
fn main(rt: HostRuntime) {
    let _ = say_everything(rt);
}
