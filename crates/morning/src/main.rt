// A kiosk's morning, in words and hex lines: photographs are stored on a row of drives, a drive
// dies in the rush, kiosks go on writing, the claims desk goes on reading, and the row is repaired.
// The service panel shows how many units wait for that, and the count is audited. In the afternoon
// the dead drive is swapped for a new one, and the row is whole again: another one may die.
#![tactic(auto)]

use homes::Record;
use row_trial::{get, inspect, lose, mend, no_failures, put, row, wipe_drive_2};
use std::io;
use trial::{Ascii, Outcome};

// A photograph: letters of the alphabet from the given one on.
fn photograph<const SIZE: usize>(first: usize) -> [u8; SIZE] {
    std::array::from_fn(|i| b'a' + ((first % 26 + i % 26) % 26) as u8)
}

fn store(
    rt: &impl Print,
    r: Record,
    image: &mut [u8],
    offset: u64,
    bytes: &[u8],
) -> io::Result<()> {
    let answer = put(r, image, offset, bytes);
    println!(rt;
        "A kiosk stores the photograph {} at {offset}: {answer}",
        Ascii(bytes)
    )
}

fn show(rt: &impl Print, r: Record, image: &[u8], offset: u64, out: &mut [u8]) -> io::Result<()> {
    let answer = get(r, image, offset, out);
    print!(rt; "The claims desk reads {} bytes at {offset}: ", out.len())?;
    if answer.is_ok() {
        print!(rt; "{}, ", Ascii(out))?;
    }
    println!(rt; "{}", Outcome::from(answer))
}

// Every frame of every drive.
fn drives(rt: &impl Print, when: &str, image: &[u8]) -> io::Result<()> {
    println!(rt; "The drives {when}:")?;
    for target in 0..5 {
        for frame in 0..4 {
            let mut line = [0u8; 27];
            let _ = hexline::hex_line(row(), image, target, frame, &mut line);
            print!(rt; "{}", Ascii(&line))?;
        }
    }
    Ok(())
}

fn before_the_rush(rt: &impl Print, r: Record, image: &mut [u8]) -> io::Result<()> {
    store(rt, r, image, 0, &photograph::<24>(0))?;
    store(rt, r, image, 24, &photograph::<20>(7))?;
    drives(rt, "before the rush", image)?;
    inspect(rt, r, image);
    Ok(())
}

fn take_back(rt: &impl Print, r: Record, image: &mut [u8], target: u64) -> io::Result<Record> {
    let swapped = pool_swap::swap(row(), r, image, target);
    println!(rt; "Drive {target} is swapped: {}", Outcome::from(swapped))?;
    Ok(swapped.unwrap_or(r))
}

// The same drive again, and one more than the row can lose; and too early to take one back, or one that is alive.
fn lose_more(rt: &impl Print, r: Record, image: &mut [u8]) -> io::Result<Record> {
    let again = lose(rt, r, image, 2);
    let dud = lose(rt, again, image, 4);
    let early = take_back(rt, dud, image, 2)?;
    let alive = take_back(rt, early, image, 4)?;
    inspect(rt, alive, image);
    Ok(alive)
}

fn in_the_rush(rt: &impl Print, r: Record, image: &mut [u8; 160]) -> io::Result<Record> {
    let failed = lose(rt, r, image, 2);
    wipe_drive_2(image);
    inspect(rt, failed, image);
    show(rt, failed, image, 0, &mut [0; 24])?;
    store(rt, failed, image, 40, &photograph::<30>(13))?;
    lose_more(rt, failed, image)
}

// The record comes back from its keeper with another count.
fn misread(rt: &impl Print, r: Record, image: &[u8], waiting: u64) -> io::Result<()> {
    println!(rt; "The record is read as one with {waiting} missing:")?;
    inspect(rt, Record { waiting, ..r }, image);
    Ok(())
}

fn after_the_rush(rt: &impl Print, r: Record, image: &mut [u8]) -> io::Result<Record> {
    let mended = mend(rt, r, image);
    inspect(rt, mended, image);
    drives(rt, "after the repair", image)?;
    show(rt, mended, image, 0, &mut [0; 70])?;
    show(rt, mended, image, 70, &mut [42; 12])?;
    let again = mend(rt, mended, image);
    for waiting in [1, 15, 16] {
        misread(rt, again, image, waiting)?;
    }
    Ok(again)
}

// A new drive in the place of a dead one, whose bytes these are.
fn put_in(rt: &impl Print, target: u64, drive: &mut [u8]) -> io::Result<()> {
    drive.fill(0x55);
    println!(rt; "A new drive {target} is put in, every byte of it 55")
}

// Before the dead drive comes back, one that there is not, and one that is alive.
fn make_whole(rt: &impl Print, r: Record, image: &mut [u8; 160]) -> io::Result<Record> {
    put_in(rt, 2, &mut image[64..96])?;
    let none = take_back(rt, r, image, 5)?;
    let same = take_back(rt, none, image, 4)?;
    take_back(rt, same, image, 2)
}

fn in_the_afternoon(rt: &impl Print, r: Record, image: &mut [u8; 160]) -> io::Result<Record> {
    let whole = make_whole(rt, r, image)?;
    inspect(rt, whole, image);
    drives(rt, "after the swap", image)?;
    show(rt, whole, image, 0, &mut [0; 70])?;
    take_back(rt, whole, image, 2)
}

// Another drive dies.
fn lose_another(rt: &impl Print, r: Record, image: &mut [u8; 160]) -> io::Result<Record> {
    let failed = lose(rt, r, image, 4);
    image[128..160].fill(255);
    inspect(rt, failed, image);
    show(rt, failed, image, 0, &mut [0; 70])?;
    store(rt, failed, image, 70, &photograph::<10>(3))?;
    Ok(failed)
}

// It is swapped in its turn.
fn in_the_evening(rt: &impl Print, r: Record, image: &mut [u8; 160]) -> io::Result<()> {
    let mended = mend(rt, r, image);
    put_in(rt, 4, &mut image[128..160])?;
    let whole = take_back(rt, mended, image, 4)?;
    inspect(rt, whole, image);
    drives(rt, "in the evening", image)?;
    show(rt, whole, image, 0, &mut [0; 80])
}

fn say_everything(rt: HostRuntime) -> io::Result<()> {
    let mut image = [0u8; 160];
    before_the_rush(&rt, no_failures(), &mut image)?;
    let failed = in_the_rush(&rt, no_failures(), &mut image)?;
    let mended = after_the_rush(&rt, failed, &mut image)?;
    let whole = in_the_afternoon(&rt, mended, &mut image)?;
    let another = lose_another(&rt, whole, &mut image)?;
    in_the_evening(&rt, another, &mut image)
}

// Where standard output takes no more, the rest is not shown; the status is 0 all the same.
fn main(rt: HostRuntime) {
    let _ = say_everything(rt);
}
