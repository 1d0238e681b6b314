// A row upgraded to edition 2, and back: with all drives alive, with one dead and with it repaired, with bytes changed where
// no read looks, and after going on in edition 2; a larger row likewise; then moves that are refused.
#![tactic(auto)]

ghost use Rattle.std.specs.Prelude.{◌<◌, ◌^◌};

use homes::Record;
use numbers::Layout;
use pool_repair::Mended;
use row_trial::{no_failures, record_of, row, row_of};
use std::io;
use trial::{Ascii, Outcome, checksum, sameness};

// ---- rows of either edition

fn in_edition(y: Layout, edition: u64) -> Layout {
    Layout { edition, ..y }
}

// The row of `morning` in edition 2.
fn upgraded_row() -> Layout {
    in_edition(row(), 2)
}

// Two data units, two parity units and two spares a group, over eight drives, and two tiles: a file of 128 bytes, an image
// of 384, of which each drive has 48.
fn large_row(edition: u64) -> Layout {
    Layout {
        n: 2,
        k: 2,
        p: 8,
        u: 8,
        t: 2,
        cookie: 16,
        edition,
    }
}

// ---- calls on them

fn store(
    rt: &impl Print,
    y: Layout,
    r: Record,
    image: &mut [u8],
    offset: u64,
    bytes: &[u8],
) -> io::Result<()> {
    let answer = Outcome::from(pool_write::write(y, r, image, offset, bytes));
    println!(rt; "A kiosk stores {} at {offset}: {answer}", Ascii(bytes))
}

// A drive dies, and what stood on it is gone: the bytes from `from` up to `to`.
fn lose(
    rt: &impl Print,
    y: Layout,
    r: Record,
    image: &mut [u8],
    drive: u64,
    from: usize,
    to: usize,
) -> io::Result<Record> {
    let failed = pool_fail::fail(y, r, image, drive);
    if from <= to && to <= image.len() {
        image[from..to].fill(255);
    }
    println!(rt; "Drive {drive} dies: {}", Outcome::from(failed))?;
    Ok(failed.unwrap_or(r))
}

fn mend(rt: &impl Print, y: Layout, r: Record, image: &mut [u8]) -> io::Result<Record> {
    let repaired = pool_repair::repair(y, r, image);
    let Mended { count, rec } = repaired.unwrap_or(Mended { count: 0, rec: r });
    println!(rt;
        "The row is repaired: {count} units were missing, {}",
        Outcome::from(repaired)
    )?;
    Ok(rec)
}

// The file is as long as the buffer.
fn show(rt: &impl Print, y: Layout, r: Record, image: &[u8], file: &mut [u8]) -> io::Result<()> {
    let answer = Outcome::from(pool_read::read(y, r, image, 0, file));
    println!(rt;
        "The file is read in edition {}: {answer}, {}",
        y.edition,
        Ascii(file)
    )
}

// Every frame of every drive.
fn drives(rt: &impl Print, y: Layout, image: &[u8]) -> io::Result<()> {
    let mut lines = [0; 540];
    let _ = pool_text::write_text(y, image, &mut lines);
    print!(rt; "The drives in edition {}:\n{}", y.edition, Ascii(&lines))
}

// ---- moves

// Moves a row into an image that held aa.
fn upgrade(rt: &impl Print, y: Layout, r: Record, old: &[u8], new: &mut [u8]) -> io::Result<()> {
    new.fill(0xaa);
    let answer = Outcome::from(pool_move::move_edition(y, r, old, new));
    let other = if y.edition == 1 { 2 } else { 1 };
    print!(rt; "The row is moved to edition {other}: {answer}")?;
    println!(rt; ", checksum of the new image {}", checksum(new))
}

fn beside(rt: &impl Print, what: &str, image: &[u8], before: &[u8]) -> io::Result<()> {
    println!(rt; "Beside {what}: {}", sameness(image, before))
}

// ---- the row of `morning`

// Its three photographs, in a file of dots.
fn photographed(rt: &impl Print) -> io::Result<[u8; 160]> {
    let y = row();
    let r = no_failures();
    let mut image = [0; 160];
    let _ = pool_write::write(y, r, &mut image, 0, &[b'.'; 80]);
    store(rt, y, r, &mut image, 0, b"abcdefghijklmnopqrstuvwx")?;
    store(rt, y, r, &mut image, 24, b"hijklmnopqrstuvwxyza")?;
    store(rt, y, r, &mut image, 40, b"nopqrstuvwxyzabcdefghijklmnopq")?;
    Ok(image)
}

// The file, and the drives that it stands on.
fn show_row(rt: &impl Print, y: Layout, image: &[u8; 160]) -> io::Result<()> {
    show(rt, y, no_failures(), image, &mut [0; 80])?;
    drives(rt, y, image)
}

// A move, beside an image that is named.
fn moved(
    rt: &impl Print,
    y: Layout,
    r: Record,
    image: &[u8; 160],
    what: &str,
    other: &[u8; 160],
) -> io::Result<[u8; 160]> {
    let mut new = [0; 160];
    upgrade(rt, y, r, image, &mut new)?;
    beside(rt, what, &new, other)?;
    Ok(new)
}

fn moved_back(rt: &impl Print, image: &[u8; 160], what: &str, first: &[u8; 160]) -> io::Result<()> {
    moved(rt, upgraded_row(), no_failures(), image, what, first)?;
    Ok(())
}

// Answers the row in edition 2.
fn there_and_back(rt: &impl Print, first: &[u8; 160]) -> io::Result<[u8; 160]> {
    show_row(rt, row(), first)?;
    let mut second = [0; 160];
    upgrade(rt, row(), no_failures(), first, &mut second)?;
    show_row(rt, upgraded_row(), &second)?;
    moved_back(rt, &second, "the row before", first)?;
    Ok(second)
}

fn with_a_drive_dead(rt: &impl Print, first: &[u8; 160], second: &[u8; 160]) -> io::Result<()> {
    println!(rt; "Drive 2 is dead, then repaired")?;
    let mut image = *first;
    let failed = lose(rt, row(), no_failures(), &mut image, 2, 64, 96)?;
    moved(rt, row(), failed, &image, "the first move", second)?;
    let mended = mend(rt, row(), failed, &mut image)?;
    let new = moved(rt, row(), mended, &image, "the first move", second)?;
    moved_back(rt, &new, "the row before it died", first)
}

// Group 0 has its parity at the beginning of drive 4 and its spare at that of drive 3.
fn with_other_bytes(rt: &impl Print, first: &[u8; 160], second: &[u8; 160]) -> io::Result<()> {
    println!(rt; "A byte of parity and a byte of a spare are changed")?;
    let mut image = *first;
    image[128] = 0xaa;
    image[96] = 0xaa;
    println!(rt; "Checksum of the image {}", checksum(&image))?;
    let new = moved(rt, row(), no_failures(), &image, "the first move", second)?;
    moved_back(rt, &new, "the row before", first)
}

// The file as it is in edition 2, and after a move back.
fn show_both(rt: &impl Print, r: Record, image: &[u8]) -> io::Result<()> {
    let mut file = [0; 80];
    show(rt, upgraded_row(), r, image, &mut file)?;
    let mut back = [0; 160];
    upgrade(rt, upgraded_row(), r, image, &mut back)?;
    show(rt, row(), no_failures(), &back, &mut file)
}

fn on_in_edition_2(rt: &impl Print, second: &[u8; 160]) -> io::Result<()> {
    println!(rt; "The row goes on in edition 2")?;
    let y = upgraded_row();
    let r = no_failures();
    let mut image = *second;
    store(rt, y, r, &mut image, 50, b"a brown bag with one strap")?;
    let failed = lose(rt, y, r, &mut image, 1, 32, 64)?;
    store(rt, y, failed, &mut image, 9, b"23.4 kg")?;
    show_both(rt, failed, &image)?;
    let mended = mend(rt, y, failed, &mut image)?;
    show_both(rt, mended, &image)
}

// ---- a larger row

fn stored_large() -> [u8; 384] {
    let r = no_failures();
    let mut image = [0; 384];
    let bag = b"a brown bag with one strap, 23.4 kg, tag 0042, row eight, desk 3";
    let case = b"a red case, its label torn, 17.9 kg, tag 0043, row eight, desk 1";
    let _ = pool_write::write(large_row(1), r, &mut image, 0, bag);
    let _ = pool_write::write(large_row(1), r, &mut image, 64, case);
    image
}

// There, and back beside the row before.
fn large_moved(rt: &impl Print, r: Record, image: &[u8; 384], first: &[u8; 384]) -> io::Result<()> {
    let mut new = [0; 384];
    upgrade(rt, large_row(1), r, image, &mut new)?;
    show(rt, large_row(2), no_failures(), &new, &mut [0; 128])?;
    let mut back = [0; 384];
    upgrade(rt, large_row(2), no_failures(), &new, &mut back)?;
    beside(rt, "the row before they died", &back, first)
}

// Drive 2 is repaired before drive 5 dies.
fn on_eight_drives(rt: &impl Print) -> io::Result<()> {
    println!(rt; "A row of eight drives and two tiles")?;
    let first = stored_large();
    let mut image = first;
    let failed = lose(rt, large_row(1), no_failures(), &mut image, 2, 96, 144)?;
    let mended = mend(rt, large_row(1), failed, &mut image)?;
    let both = lose(rt, large_row(1), mended, &mut image, 5, 240, 288)?;
    large_moved(rt, both, &image, &first)
}

// ---- moves that are refused

// Images of OLD and NEW bytes, of which all are aa before.
fn refused<const OLD: usize, const NEW: usize>(
    rt: &impl Print,
    what: &str,
    y: Layout,
    r: Record,
) -> io::Result<()>
    requires old { OLD < 2 ^ 63 }
    requires new { NEW < 2 ^ 63 }
{
    let old = [0xaa; OLD];
    let mut new = [0xaa; NEW];
    let answer = Outcome::from(pool_move::move_edition(y, r, &old, &mut new));
    let zeros = if new == [0; NEW] {
        "zeros"
    } else {
        "NOT zeros"
    };
    print!(rt; "{what}: {answer}, the new image is {zeros}, ")?;
    println!(rt; "the old one is {}", sameness(&old, &[0xaa; OLD]))
}

fn wrong_layouts(rt: &impl Print) -> io::Result<()> {
    let r = no_failures();
    refused::<160, 160>(rt, "Units of 0 bytes", row_of(0, 1), r)?;
    refused::<160, 160>(rt, "Edition 0", in_edition(row(), 0), r)?;
    refused::<160, 160>(rt, "Edition 3", in_edition(row(), 3), r)
}

fn wrong_lengths(rt: &impl Print) -> io::Result<()> {
    let y = row();
    let r = no_failures();
    refused::<159, 160>(rt, "An old image too short", y, r)?;
    refused::<161, 160>(rt, "An old image too long", y, r)?;
    refused::<160, 159>(rt, "A new image too short", y, r)?;
    refused::<160, 161>(rt, "A new image too long", y, r)?;
    refused::<160, 0>(rt, "A new image of no bytes", y, r)?;
    refused::<160, 80>(rt, "A new image as long as the file", y, r)?;
    refused::<161, 161>(rt, "Both too long", y, r)
}

fn wrong_records(rt: &impl Print) -> io::Result<()> {
    let y = row();
    refused::<160, 160>(rt, "Two drives dead", y, record_of(2, 2, 0))?;
    refused::<160, 160>(rt, "Drive 5 dead", y, record_of(5, 1, 0))?;
    let counted = Record {
        waiting: 16,
        ..record_of(2, 1, 0)
    };
    refused::<160, 160>(rt, "16 units missing", y, counted)
}

fn several_wrong(rt: &impl Print) -> io::Result<()> {
    let y = row();
    let two = record_of(2, 2, 0);
    let all = "Units of 0 bytes, both lengths wrong, two dead";
    refused::<159, 161>(rt, all, row_of(0, 1), two)?;
    refused::<161, 160>(rt, "An old image too long, two dead", y, two)?;
    refused::<160, 159>(rt, "A new image too short, two dead", y, two)
}

fn say_everything(rt: HostRuntime) -> io::Result<()> {
    println!(&rt; "A row of edition 1 is upgraded, and goes back")?;
    let first = photographed(&rt)?;
    let second = there_and_back(&rt, &first)?;
    with_a_drive_dead(&rt, &first, &second)?;
    with_other_bytes(&rt, &first, &second)?;
    on_in_edition_2(&rt, &second)?;
    on_eight_drives(&rt)?;
    println!(&rt; "Moves that are refused")?;
    wrong_layouts(&rt)?;
    wrong_lengths(&rt)?;
    wrong_records(&rt)?;
    several_wrong(&rt)
}

// Where standard output takes no more, the rest is not shown; the status is 0 all the same.
fn main(rt: HostRuntime) {
    let _ = say_everything(rt);
}
