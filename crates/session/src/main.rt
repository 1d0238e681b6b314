// The end of a kiosk's session: photograph, weight and tag stored by one list of writes, beside the same three writes
// one after the other, also with a drive dead; then lists at the bounds, and lists that are refused.
#![tactic(auto)]

ghost use Rattle.std.specs.Prelude.{◌<◌, ◌^◌};

use homes::Record;
use numbers::Layout;
use pool_list::ListWritten;
use row_trial::{get, lose, mend, no_failures, put, record_of, row, row_of, wipe_drive_2};
use std::{fmt, io};
use trial::{Ascii, Outcome, checksum, sameness};

// ---- one list and its answer

// How many there are; of a short list also the offset and length of each.
#[derive(Clone, Copy)]
struct Ranges<'a>(&'a [[u64; 2]]);

impl fmt::Display for Ranges<'_> {
    fn fmt<W: fmt::Write>(&self, f: &mut fmt::Formatter<W>) -> fmt::Result {
        write!(f, "{} ranges", self.0.len())?;
        if self.0.len() <= 3 {
            for [offset, length] in self.0 {
                write!(f, " {offset}+{length}")?;
            }
        }
        Ok(())
    }
}

// Writes a list in one image, which must then be the same as the other.
fn list(
    rt: &impl Print,
    y: Layout,
    r: Record,
    image: &mut [u8],
    other: &[u8],
    ranges: &[[u64; 2]],
    bytes: &[u8],
) -> io::Result<()> {
    let written = ListWritten::from(pool_list::write_list(y, r, image, ranges, bytes));
    print!(rt;
        "{} bytes to {}: {}, range {}",
        bytes.len(),
        Ranges(ranges),
        Outcome(written.refusal),
        written.range
    )?;
    println!(rt; ", {}", sameness(image, other))
}

// ---- the end of a session

fn of_dots() -> [u8; 160] {
    let mut image = [0; 160];
    put(no_failures(), &mut image, 0, &[b'.'; 80]);
    image
}

// The whole file in words, the whole image by its checksum.
fn show(rt: &impl Print, r: Record, image: &[u8]) -> io::Result<()> {
    let mut file = [0; 80];
    let answer = Outcome::from(get(r, image, 0, &mut file));
    print!(rt; "The file is read: {answer}, {}", Ascii(&file))?;
    println!(rt; ", checksum of the image {}", checksum(image))
}

// Where photograph, weight and tag are stored.
#[derive(Clone, Copy)]
struct Offsets {
    photograph: u64,
    weight: u64,
    tag: u64,
}

fn write_in_turn(r: Record, image: &mut [u8], at: Offsets) {
    put(r, image, at.photograph, b"a brown bag with one strap");
    put(r, image, at.weight, b"23.4 kg");
    put(r, image, at.tag, b"tag 0042");
}

// Photograph, weight and tag by one list, and on a copy of the image by three writes.
fn store(rt: &impl Print, r: Record, before: [u8; 160], at: Offsets) -> io::Result<[u8; 160]> {
    let mut other = before;
    write_in_turn(r, &mut other, at);
    let mut image = before;
    let ranges = [[at.photograph, 26], [at.weight, 7], [at.tag, 8]];
    let bytes = b"a brown bag with one strap23.4 kgtag 0042";
    list(rt, row(), r, &mut image, &other, &ranges, bytes)?;
    show(rt, r, &image)?;
    Ok(image)
}

fn on_a_sound_row(rt: &impl Print) -> io::Result<[u8; 160]> {
    println!(rt; "Photograph, weight and tag by a list, beside three writes")?;
    let apart = Offsets {
        photograph: 0,
        weight: 40,
        tag: 60,
    };
    let image = store(rt, no_failures(), of_dots(), apart)?;
    println!(rt; "One over the other")?;
    let over = Offsets {
        photograph: 20,
        weight: 30,
        tag: 33,
    };
    store(rt, no_failures(), image, over)
}

fn with_a_drive_dead(rt: &impl Print, before: [u8; 160]) -> io::Result<()> {
    let mut image = before;
    let failed = lose(rt, no_failures(), &image, 2);
    wipe_drive_2(&mut image);
    let at = Offsets {
        photograph: 50,
        weight: 8,
        tag: 30,
    };
    let mut stored = store(rt, failed, image, at)?;
    let mended = mend(rt, failed, &mut stored);
    show(rt, mended, &stored)
}

// ---- lists that leave an image as it was

// An image of SIZE bytes, and a buffer of LENGTH.
fn unchanged<const SIZE: usize, const LENGTH: usize>(
    rt: &impl Print,
    y: Layout,
    r: Record,
    ranges: &[[u64; 2]],
) -> io::Result<()>
    requires image { SIZE < 2 ^ 63 }
    requires buffer { LENGTH < 2 ^ 63 }
{
    let before = [0xaa; SIZE];
    let mut image = before;
    list(rt, y, r, &mut image, &before, ranges, &[b'*'; LENGTH])
}

fn on_the_row<const LENGTH: usize>(rt: &impl Print, ranges: &[[u64; 2]]) -> io::Result<()>
    requires { LENGTH < 2 ^ 63 }
{
    unchanged::<160, LENGTH>(rt, row(), no_failures(), ranges)
}

fn nothing_to_write(rt: &impl Print) -> io::Result<()> {
    println!(rt; "Nothing to write")?;
    on_the_row::<0>(rt, &[[0, 0]; 0])?;
    on_the_row::<0>(rt, &[[0, 0], [8, 0], [80, 0]])
}

// All ranges name the same byte, so that a write of the last one alone leaves the same image.
fn most_ranges(rt: &impl Print) -> io::Result<()> {
    println!(rt; "As many ranges as may be, and one more")?;
    let r = no_failures();
    let mut image = [0xaa; 160];
    let mut other = image;
    let mut bytes = [b'.'; 64];
    bytes[63] = b'*';
    put(r, &mut other, 79, b"*");
    list(rt, row(), r, &mut image, &other, &[[79, 1]; 64], &bytes)?;
    on_the_row::<65>(rt, &[[79, 1]; 65])?;
    on_the_row::<0>(rt, &[[81, 1]; 65])
}

fn ranges_outside(rt: &impl Print) -> io::Result<()> {
    println!(rt; "Ranges outside")?;
    on_the_row::<5>(rt, &[[0, 4], [80, 1], [81, 0]])?;
    on_the_row::<0>(rt, &[[80, 0], [0, 0], [81, 0]])?;
    on_the_row::<16>(rt, &[[73, 8], [0, 4], [0, 4]])?;
    on_the_row::<6>(rt, &[[0, 4], [81, 0], [8, 3]])?;
    let mut ranges = [[79, 1]; 64];
    ranges[63] = [80, 1];
    on_the_row::<64>(rt, &ranges)
}

fn near_2_to_the_64(rt: &impl Print) -> io::Result<()> {
    println!(rt; "Numbers near 2 to the 64")?;
    on_the_row::<0>(rt, &[[0, 0], [1, u64::MAX], [0, 0]])?;
    on_the_row::<8>(rt, &[[0, 4], [0, u64::MAX], [0, 5]])?;
    on_the_row::<2>(rt, &[[u64::MAX, 2], [0, 0], [0, 0]])?;
    on_the_row::<0>(rt, &[[0, 0], [0, 0], [u64::MAX, u64::MAX]])
}

fn wrong_buffers(rt: &impl Print) -> io::Result<()> {
    println!(rt; "Buffers of another length")?;
    let ranges = [[0, 4], [8, 3], [80, 0]];
    on_the_row::<6>(rt, &ranges)?;
    on_the_row::<8>(rt, &ranges)?;
    on_the_row::<0>(rt, &ranges)?;
    on_the_row::<2>(rt, &[[0, 0]; 0])
}

// That the ranges are outside, and the buffer is too long, makes no difference.
fn wrong_pools(rt: &impl Print) -> io::Result<()> {
    print!(rt; "Units of 0 bytes, an image too short and too long, ")?;
    println!(rt; "two drives dead, drive 5 dead, 16 units missing")?;
    let ranges = [[81, 2]; 3];
    let y = row();
    let r = no_failures();
    unchanged::<160, 7>(rt, row_of(0, 1), r, &ranges)?;
    unchanged::<159, 7>(rt, y, r, &ranges)?;
    unchanged::<161, 7>(rt, y, r, &ranges)?;
    unchanged::<160, 7>(rt, y, record_of(2, 2, 0), &ranges)?;
    unchanged::<160, 7>(rt, y, record_of(5, 1, 0), &ranges)?;
    unchanged::<160, 7>(rt, y, Record { waiting: 16, ..r }, &ranges)
}

fn say_everything(rt: HostRuntime) -> io::Result<()> {
    with_a_drive_dead(&rt, on_a_sound_row(&rt)?)?;
    nothing_to_write(&rt)?;
    most_ranges(&rt)?;
    ranges_outside(&rt)?;
    near_2_to_the_64(&rt)?;
    wrong_buffers(&rt)?;
    wrong_pools(&rt)
}

// Where standard output takes no more, the rest is not shown; the status is 0 all the same.
fn main(rt: HostRuntime) {
    let _ = say_everything(rt);
}
