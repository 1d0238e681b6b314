// The runs that document 01's examples ask for, one with counts of missing units about the bounds, and those of order 10's
// swapped drives.
use crate::calls;
use crate::calls::Run;
use layout::Placed;
use numbers::Layout;
use std::io;

// Writes the bytes 1, 2, ..
fn write_counted(
    rt: &impl Print,
    run: Run,
    image: &mut [u8],
    buffer: &mut [u8],
    length: u64,
) -> io::Result<()> {
    let bytes = calls::front(buffer, length);
    for (i, byte) in bytes.iter_mut().enumerate() {
        *byte = (i % 255) as u8 + 1;
    }
    run.write(rt, image, 0, bytes)
}

fn read(
    rt: &impl Print,
    run: Run,
    image: &[u8],
    buffer: &mut [u8],
    offset: u64,
    length: u64,
) -> io::Result<()> {
    run.read(rt, image, offset, calls::front(buffer, length))
}

fn look(
    rt: &impl Print,
    run: Run,
    image: &[u8],
    buffer: &mut [u8],
    group: u64,
    content: u64,
) -> io::Result<()> {
    run.look(rt, image, group, content, calls::front(buffer, run.y.u))
}

// "Offset 16 with length 0 is accepted, with length 1 refused 4."
fn at_the_end(rt: &impl Print, run: Run, image: &mut [u8], buffer: &mut [u8]) -> io::Result<()> {
    read(rt, run, image, buffer, 16, 0)?;
    read(rt, run, image, buffer, 16, 1)?;
    run.write(rt, image, 16, &[])?;
    run.write(rt, image, 16, &[0xaa])
}

// The looks at the two contents of target 3.
fn looks(rt: &impl Print, run: Run, image: &[u8], buffer: &mut [u8]) -> io::Result<()> {
    look(rt, run, image, buffer, 2, 0)?;
    look(rt, run, image, buffer, 3, 1)
}

// Failing target 3 again, then a second target and one that is outside.
fn failing_more(rt: &impl Print, run: Run, image: &[u8], buffer: &mut [u8]) -> io::Result<()> {
    let again = run.fail(rt, image, 3)?;
    let dud = again.fail(rt, image, 0)?;
    let outside = dud.fail(rt, image, 4)?;
    read(rt, outside, image, buffer, 0, 16)
}

// "Failing target 3 makes two contents missing": looks before and after the repair.
fn failing(rt: &impl Print, run: Run, image: &mut [u8], buffer: &mut [u8]) -> io::Result<()> {
    let failed = run.fail(rt, image, 3)?;
    failed.panel(rt, image)?;
    looks(rt, failed, image, buffer)?;
    look(rt, failed, image, buffer, 0, 0)?;
    read(rt, failed, image, buffer, 0, 16)?;
    let mended = failed.repair(rt, image)?;
    mended.panel(rt, image)?;
    looks(rt, mended, image, buffer)?;
    failing_more(rt, mended, image, buffer)
}

// One data unit a group, and a cookie of 0.
fn run_over(p: u64, k: u64, u: u64) -> Run {
    Run::new(Layout {
        n: 1,
        k,
        p,
        u,
        t: 1,
        cookie: 0,
        edition: 1,
    })
}

fn four_targets() -> Run {
    run_over(4, 1, 4)
}

fn five_targets() -> Run {
    run_over(5, 2, 3)
}

// The target of a unit of group 0.
fn target_of(run: Run, unit: u64) -> u64 {
    Placed::from(layout::find_place(run.y, 0, unit)).target
}

// The run's image in the space, of zeros.
fn begin<'a>(rt: &impl Print, i: u64, run: Run, space: &'a mut [u8]) -> io::Result<&'a mut [u8]> {
    let image = calls::front(space, run.numbers.image);
    image.fill(0);
    run.head(rt, i, image)?;
    Ok(image)
}

fn small(rt: &impl Print, space: &mut [u8], buffer: &mut [u8]) -> io::Result<()> {
    let run = four_targets();
    let image = begin(rt, 0, run, space)?;
    write_counted(rt, run, image, buffer, 16)?;
    at_the_end(rt, run, image, buffer)?;
    failing(rt, run, image, buffer)
}

// Lists of two failures: the targets of units v and w of group 0 fail, with looks before and after the repair.
fn two_failures(
    rt: &impl Print,
    i: u64,
    [v, w]: [u64; 2],
    space: &mut [u8],
    buffer: &mut [u8],
) -> io::Result<()> {
    let run = five_targets();
    let image = begin(rt, i, run, space)?;
    write_counted(rt, run, image, buffer, 3)?;
    let first = target_of(run, v);
    let second = target_of(run, w);
    let one = run.fail(rt, image, first)?;
    let two = one.fail(rt, image, second)?;
    look(rt, two, image, buffer, 0, 0)?;
    let mended = two.repair(rt, image)?;
    look(rt, mended, image, buffer, 0, 0)
}

// ---- counts

// A count that failing target 3 would raise above the bound, which is 8: a target outside is told first.
fn raised_above(rt: &impl Print, run: Run, image: &[u8], waiting: u64) -> io::Result<()> {
    let full = run.count(rt, image, waiting)?;
    full.panel(rt, image)?;
    full.fail(rt, image, 4)?;
    full.fail(rt, image, 3)?;
    Ok(())
}

// A count at the bound: that a target has failed, or that none may any more, is told first, and a repair mends it.
fn mending(rt: &impl Print, run: Run, image: &mut [u8]) -> io::Result<()> {
    let full = run.count(rt, image, 8)?;
    full.fail(rt, image, 3)?;
    full.fail(rt, image, 0)?;
    let mended = full.repair(rt, image)?;
    mended.panel(rt, image)
}

// Then target 3 has failed: false counts, and the true one.
pub fn counts(rt: &impl Print, i: u64, space: &mut [u8]) -> io::Result<()> {
    let run = four_targets();
    let image = begin(rt, i, run, space)?;
    raised_above(rt, run, image, 8)?;
    raised_above(rt, run, image, 7)?;
    let failed = run.count(rt, image, 6)?.fail(rt, image, 3)?;
    for waiting in [8, 0, 1, 3, 2] {
        failed.count(rt, image, waiting)?.panel(rt, image)?;
    }
    mending(rt, failed, image)
}

// ---- swapped drives

// Two drives die: too early to take one back; and after the repair a drive that is alive, and one that there is not.
fn not_yet(
    rt: &impl Print,
    run: Run,
    image: &mut [u8],
    first: u64,
    second: u64,
) -> io::Result<Run> {
    let one = run.fail(rt, image, first)?;
    let two = one.fail(rt, image, second)?;
    let early = two.swap(rt, image, first)?;
    let mended = early.repair(rt, image)?;
    let alive = target_of(run, 2);
    let dud = mended.swap(rt, image, alive)?;
    dud.swap(rt, image, 5)
}

// The one that died first comes back, and then the other.
fn coming_back(
    rt: &impl Print,
    run: Run,
    image: &mut [u8],
    buffer: &mut [u8],
    first: u64,
    second: u64,
) -> io::Result<()> {
    let one = run.swap(rt, image, first)?;
    for content in 0..3 {
        look(rt, one, image, buffer, 0, content)?;
    }
    let again = one.swap(rt, image, first)?;
    let whole = again.swap(rt, image, second)?;
    whole.panel(rt, image)?;
    read(rt, whole, image, buffer, 0, 3)
}

fn two_swaps(
    rt: &impl Print,
    i: u64,
    [v, w]: [u64; 2],
    space: &mut [u8],
    buffer: &mut [u8],
) -> io::Result<()> {
    let run = five_targets();
    let image = begin(rt, i, run, space)?;
    write_counted(rt, run, image, buffer, 3)?;
    let first = target_of(run, v);
    let second = target_of(run, w);
    let mended = not_yet(rt, run, image, first, second)?;
    coming_back(rt, mended, image, buffer, first, second)
}

pub fn swaps(rt: &impl Print, space: &mut [u8], buffer: &mut [u8]) -> io::Result<()> {
    two_swaps(rt, 405, [3, 0], space, buffer)?;
    two_swaps(rt, 406, [0, 1], space, buffer)?;
    two_swaps(rt, 407, [1, 0], space, buffer)
}

pub fn runs(rt: &impl Print, space: &mut [u8], buffer: &mut [u8]) -> io::Result<()> {
    small(rt, space, buffer)?;
    two_failures(rt, 1, [0, 3], space, buffer)?;
    two_failures(rt, 2, [3, 0], space, buffer)?;
    two_failures(rt, 3, [4, 0], space, buffer)
}
