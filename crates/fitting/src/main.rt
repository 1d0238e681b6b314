// A row's settings through the years: its fitter adds lines to a text, in both versions and both editions, and after each line
// the row is read by the reader of today and by the old one, which knows version 1 alone. Then damaged texts, and lines that
// are not added.
#![tactic(auto)]

ghost use Rattle.std.specs.Prelude.{◌<◌, ◌^◌};

use layout::Measured;
use numbers::Layout;
use row_trial::{row, row_of};
use settings::{Added, Settings};
use std::{fmt, io};
use trial::{Ascii, Outcome};

// ---- layouts

// The row of `morning`, with other units in a group or over other drives.
fn grouped(n: u64, k: u64, p: u64) -> Layout {
    Layout { n, k, p, ..row() }
}

fn in_edition(edition: u64) -> Layout {
    Layout { edition, ..row() }
}

// Every number as large as it may be.
fn largest() -> Layout {
    Layout {
        n: 16,
        k: 3,
        p: 64,
        u: 4096,
        t: 65536,
        cookie: u64::MAX,
        edition: 2,
    }
}

// ---- what the readers say

#[derive(Clone, Copy)]
struct Shown(Layout);

impl fmt::Display for Shown {
    fn fmt<W: fmt::Write>(&self, f: &mut fmt::Formatter<W>) -> fmt::Result {
        let y = self.0;
        write!(
            f,
            "N {} K {} P {} U {} T {} cookie {} edition {}",
            y.n, y.k, y.p, y.u, y.t, y.cookie, y.edition
        )
    }
}

// What a reader answers, as C has it; of a layout that was read also how long the file is in its row. Refused, the layout is to be zeros.
#[derive(Clone, Copy)]
struct Read(Settings);

impl fmt::Display for Read {
    fn fmt<W: fmt::Write>(&self, f: &mut fmt::Formatter<W>) -> fmt::Result {
        let read = self.0;
        let y = read.layout;
        write!(f, "{}, ", Outcome(read.refusal))?;
        if read.refusal == 0 {
            let capacity = Measured::from(layout::measure(y)).numbers.capacity;
            return write!(f, "{}, a file of {capacity} bytes", Shown(y));
        }
        write!(f, "line {}", read.line)?;
        if y != Layout::default() {
            write!(f, ", NOT zeros, {}", Shown(y))?;
        }
        Ok(())
    }
}

fn is_same_answer(a: Settings, b: Settings) -> bool {
    a.refusal == b.refusal && a.line == b.line && a.layout == b.layout
}

// The first bytes of the buffer, as many as are used, by both readers.
fn read_by_both(rt: &impl Print, what: &str, buffer: &[u8], used: usize) -> io::Result<()> {
    let new = Settings::from(settings::newest(buffer, used));
    let old = Settings::from(settings::newest_old(buffer, used));
    print!(rt; "{what}: {}", Read(new))?;
    if is_same_answer(new, old) {
        return println!(rt; "; the old reader says the same");
    }
    println!(rt; "; the old reader: {}", Read(old))
}

// ---- through the years

// A line is added, and the row read; answers how much is used then.
fn fitted(
    rt: &impl Print,
    what: &str,
    version: u64,
    y: Layout,
    buffer: &mut [u8],
    used: usize,
) -> io::Result<usize> {
    let added = Added::new(used, settings::add(version, y, buffer, used));
    let after = added.used;
    println!(rt; "{what}: {}, used {after}", Outcome(added.refusal))?;
    read_by_both(rt, "The row is read", buffer, after)?;
    Ok(after)
}

fn before_the_upgrade(rt: &impl Print, buffer: &mut [u8]) -> io::Result<usize> {
    let first = fitted(rt, "The fitter's line in version 1", 1, row(), buffer, 0)?;
    fitted(rt, "The same in version 2", 2, row(), buffer, first)
}

fn from_the_upgrade_on(rt: &impl Print, buffer: &mut [u8], used: usize) -> io::Result<usize> {
    let moved = fitted(rt, "Moved to edition 2", 2, in_edition(2), buffer, used)?;
    fitted(rt, "Moved back to edition 1", 2, row(), buffer, moved)
}

fn show(rt: &impl Print, buffer: &[u8]) -> io::Result<()> {
    println!(rt; "The text, and what lies behind it:\n{}", Ascii(buffer))
}

fn through_the_years(rt: &impl Print) -> io::Result<()> {
    let mut buffer = [b'.'; 200];
    read_by_both(rt, "Nothing is added yet", &buffer, 0)?;
    let before = before_the_upgrade(rt, &mut buffer)?;
    from_the_upgrade_on(rt, &mut buffer, before)?;
    show(rt, &buffer)
}

fn at_the_bounds(rt: &impl Print) -> io::Result<()> {
    println!(rt; "Rows of the least numbers and of the largest")?;
    let mut buffer = [b'.'; 90];
    let first = fitted(rt, "The least group", 1, grouped(1, 0, 1), &mut buffer, 0)?;
    fitted(rt, "The largest numbers", 2, largest(), &mut buffer, first)?;
    show(rt, &buffer)
}

// ---- damaged texts

fn read_whole(rt: &impl Print, what: &str, lines: &[u8]) -> io::Result<()> {
    read_by_both(rt, what, lines, lines.len())
}

fn damaged_characters(rt: &impl Print) -> io::Result<()> {
    println!(rt; "Texts of two lines, one of them damaged")?;
    read_whole(
        rt,
        "A digit in upper case",
        b"01 02 01 05 0008 000001 0000000000000007\n02 02 01 05 000A 000001 0000000000000007 01\n",
    )?;
    read_whole(
        rt,
        "A letter past f",
        b"01 02 01 05 0008 000001 000000000000000g\n02 02 01 05 0008 000001 0000000000000007 01\n",
    )?;
    read_whole(
        rt,
        "Two spaces",
        b"01 02 01 05 0008 000001 0000000000000007\n02 02 01 05  0008 000001 0000000000000007 01\n",
    )?;
    read_whole(
        rt,
        "A tab for a space",
        b"01\t02 01 05 0008 000001 0000000000000007\n02 02 01 05 0008 000001 0000000000000007 01\n",
    )?;
    read_whole(
        rt,
        "A digit missing",
        b"01 02 01 05 0008 000001 0000000000000007\n02 02 01 05 0008 00001 0000000000000007 01\n",
    )?;
    read_whole(
        rt,
        "A byte 0",
        b"01 02 01 05 0008 000001 000000000000000\x00\n02 02 01 05 0008 000001 0000000000000007 01\n",
    )
}

fn damaged_ends(rt: &impl Print) -> io::Result<()> {
    read_whole(
        rt,
        "A carriage return",
        b"01 02 01 05 0008 000001 0000000000000007\r\n02 02 01 05 0008 000001 0000000000000007 01\n",
    )?;
    read_whole(
        rt,
        "A space before a newline",
        b"01 02 01 05 0008 000001 0000000000000007\n02 02 01 05 0008 000001 0000000000000007 01 \n",
    )?;
    read_whole(
        rt,
        "A newline missing between",
        b"01 02 01 05 0008 000001 000000000000000702 02 01 05 0008 000001 0000000000000007 01\n",
    )?;
    read_whole(
        rt,
        "The last newline missing",
        b"01 02 01 05 0008 000001 0000000000000007\n02 02 01 05 0008 000001 0000000000000007 01",
    )
}

fn lines_before_and_after(rt: &impl Print) -> io::Result<()> {
    read_whole(
        rt,
        "A title before",
        b"row 5\n01 02 01 05 0008 000001 0000000000000007\n",
    )?;
    read_whole(
        rt,
        "An empty line between",
        b"01 02 01 05 0008 000001 0000000000000007\n\n02 02 01 05 0008 000001 0000000000000007 01\n",
    )?;
    read_whole(
        rt,
        "An empty line after",
        b"01 02 01 05 0008 000001 0000000000000007\n\n",
    )?;
    read_whole(
        rt,
        "A word after",
        b"01 02 01 05 0008 000001 0000000000000007\nend",
    )?;
    read_whole(rt, "A newline alone", b"\n")?;
    read_whole(
        rt,
        "Two empty lines",
        b"01 02 01 05 0008 000001 0000000000000007\n\n\n",
    )?;
    read_whole(
        rt,
        "An empty line before edition 2",
        b"\n02 02 01 05 0008 000001 0000000000000007 02\n",
    )
}

fn lines_of_other_forms(rt: &impl Print) -> io::Result<()> {
    println!(rt; "Lines of other forms")?;
    read_whole(
        rt,
        "44 bytes in version 1",
        b"01 02 01 05 0008 000001 0000000000000007 01\n",
    )?;
    read_whole(
        rt,
        "41 bytes in version 2",
        b"02 02 01 05 0008 000001 0000000000000007\n",
    )?;
    read_whole(
        rt,
        "Version 0",
        b"00 02 01 05 0008 000001 0000000000000007\n",
    )?;
    read_whole(
        rt,
        "Version 3",
        b"03 02 01 05 0008 000001 0000000000000007 01\n",
    )?;
    read_whole(
        rt,
        "The numbers alone",
        b"02 01 05 0008 000001 0000000000000007\n",
    )
}

fn numbers_out_of_bounds(rt: &impl Print) -> io::Result<()> {
    println!(rt; "Lines of bad numbers")?;
    read_whole(
        rt,
        "17 data units",
        b"01 11 01 20 0008 000001 0000000000000007\n",
    )?;
    read_whole(
        rt,
        "4 parity units",
        b"01 02 04 20 0008 000001 0000000000000007\n",
    )?;
    read_whole(
        rt,
        "3 drives",
        b"01 02 01 03 0008 000001 0000000000000007\n",
    )?;
    read_whole(
        rt,
        "65 drives",
        b"01 02 01 41 0008 000001 0000000000000007\n",
    )?;
    read_whole(
        rt,
        "Units of 4097 bytes",
        b"01 02 01 05 1001 000001 0000000000000007\n",
    )?;
    read_whole(
        rt,
        "65537 tiles",
        b"01 02 01 05 0008 010001 0000000000000007\n",
    )?;
    read_whole(
        rt,
        "Edition 3",
        b"02 02 01 05 0008 000001 0000000000000007 03\n",
    )
}

// Other lines that are right tell other rows: nothing in a text says that it was changed.
fn other_right_lines(rt: &impl Print) -> io::Result<()> {
    println!(rt; "Right lines that tell another row")?;
    read_whole(
        rt,
        "Units of 9 bytes",
        b"01 02 01 05 0009 000001 0000000000000007\n",
    )?;
    read_whole(
        rt,
        "Another cookie",
        b"01 02 01 05 0008 000001 f000000000000007\n",
    )?;
    read_whole(
        rt,
        "Edition 2 for 1",
        b"02 02 01 05 0008 000001 0000000000000007 02\n",
    )?;
    read_whole(
        rt,
        "Two lines exchanged",
        b"02 02 01 05 0008 000001 0000000000000007 02\n01 02 01 05 0008 000001 0000000000000007\n",
    )
}

// ---- used lengths

// The text has two lines, 85 bytes, and four bytes lie behind it.
fn used_lengths(rt: &impl Print) -> io::Result<()> {
    println!(rt; "Used lengths of a buffer of 89 bytes with two lines")?;
    let buffer =
        b"01 02 01 05 0008 000001 0000000000000007\n02 02 01 05 0008 000001 0000000000000007 02\n....";
    read_by_both(rt, "Used 0", buffer, 0)?;
    read_by_both(rt, "Used 1", buffer, 1)?;
    read_by_both(rt, "Used 40", buffer, 40)?;
    read_by_both(rt, "Used 41", buffer, 41)?;
    read_by_both(rt, "Used 42", buffer, 42)?;
    read_by_both(rt, "Used 84", buffer, 84)?;
    read_by_both(rt, "Used 85", buffer, 85)?;
    read_by_both(rt, "Used 86", buffer, 86)?;
    read_by_both(rt, "Used 89", buffer, 89)?;
    read_by_both(rt, "Used 90", buffer, 90)?;
    read_by_both(rt, "Used 2 to the 64 - 1", buffer, usize::MAX)
}

// ---- lines that are not added

// A buffer of SIZE bytes, all of them dots before.
fn tried<const SIZE: usize>(
    rt: &impl Print,
    what: &str,
    version: u64,
    y: Layout,
    used: usize,
) -> io::Result<()>
    requires { SIZE < 2 ^ 63 }
{
    let before = [b'.'; SIZE];
    let mut buffer = before;
    let added = Added::new(used, settings::add(version, y, &mut buffer, used));
    let after = if buffer == before {
        "is as before"
    } else {
        "has changed"
    };
    print!(rt; "{what}: {}, used {}", Outcome(added.refusal), added.used)?;
    println!(rt; ", the buffer {after}")
}

fn wrong_versions(rt: &impl Print) -> io::Result<()> {
    println!(rt; "Lines that are added, or not, to a buffer of dots")?;
    tried::<100>(rt, "Version 0", 0, row(), 5)?;
    tried::<100>(rt, "Version 3", 3, row(), 5)?;
    tried::<100>(rt, "Version 257", 257, row(), 5)?;
    tried::<100>(rt, "Version 2 to the 64 - 1", u64::MAX, row(), 5)?;
    tried::<100>(rt, "Edition 2 in version 1", 1, in_edition(2), 5)?;
    tried::<100>(rt, "Edition 0", 2, in_edition(0), 5)?;
    tried::<100>(rt, "Edition 3", 2, in_edition(3), 5)?;
    tried::<100>(rt, "Edition 258", 2, in_edition(258), 5)
}

fn wrong_numbers(rt: &impl Print) -> io::Result<()> {
    tried::<100>(rt, "No data unit", 1, grouped(0, 1, 5), 5)?;
    tried::<100>(rt, "17 data units", 1, grouped(17, 1, 32), 5)?;
    tried::<100>(rt, "4 parity units", 1, grouped(2, 4, 32), 5)?;
    tried::<100>(rt, "3 drives", 1, grouped(2, 1, 3), 5)?;
    tried::<100>(rt, "65 drives", 1, grouped(2, 1, 65), 5)?;
    tried::<100>(rt, "Units of 0 bytes", 1, row_of(0, 1), 5)?;
    tried::<100>(rt, "Units of 4097 bytes", 1, row_of(4097, 1), 5)?;
    tried::<100>(rt, "No tile", 1, row_of(8, 0), 5)?;
    tried::<100>(rt, "65537 tiles", 1, row_of(8, 65537), 5)
}

fn rooms(rt: &impl Print) -> io::Result<()> {
    tried::<100>(rt, "Used 101 of 100", 1, row(), 101)?;
    tried::<100>(rt, "Used 2 to the 64 - 1", 1, row(), usize::MAX)?;
    tried::<100>(rt, "40 bytes left for 41", 1, row(), 60)?;
    tried::<100>(rt, "43 bytes left for 44", 2, row(), 57)?;
    tried::<100>(rt, "All used", 1, row(), 100)?;
    tried::<0>(rt, "No buffer", 2, row(), 0)?;
    tried::<100>(rt, "41 bytes left for 41", 1, row(), 59)?;
    tried::<100>(rt, "44 bytes left for 44", 2, row(), 56)?;
    tried::<41>(rt, "41 bytes left for 44", 2, row(), 0)
}

fn several_wrong(rt: &impl Print) -> io::Result<()> {
    tried::<100>(rt, "Version 3, used 101 of 100", 3, row(), 101)?;
    tried::<100>(rt, "Units of 0 bytes, all used", 2, row_of(0, 1), 100)?;
    tried::<0>(rt, "Used 1 of none", 1, row(), 1)
}

fn say_everything(rt: HostRuntime) -> io::Result<()> {
    println!(&rt; "A row's settings through the years")?;
    through_the_years(&rt)?;
    at_the_bounds(&rt)?;
    damaged_characters(&rt)?;
    damaged_ends(&rt)?;
    lines_before_and_after(&rt)?;
    lines_of_other_forms(&rt)?;
    numbers_out_of_bounds(&rt)?;
    other_right_lines(&rt)?;
    used_lengths(&rt)?;
    wrong_versions(&rt)?;
    wrong_numbers(&rt)?;
    rooms(&rt)?;
    several_wrong(&rt)
}

// Where standard output takes no more, the rest is not shown; the status is 0 all the same.
fn main(rt: HostRuntime) {
    let _ = say_everything(rt);
}
