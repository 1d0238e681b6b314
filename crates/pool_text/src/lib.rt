// A pool as text: the hex lines of all its frames in one text, written and read back. Both calls take any input, test everything themselves
// and answer why they are refused; what a refused call was lent to fill is zeros over its whole length.
#![tactic(auto)]

ghost use Rattle.std.specs.Prelude.{◌≡◌, ◌<◌, ◌+◌, ◌*◌, length, MatchResult};
ghost use Rattle.lists.specs.Numbered.{answer_number};
ghost use Rattle.numbers.specs.Layouts.{Valid, frames as framesOf, image_length};
ghost use Rattle.pool_text.specs.Text.{line_count, text_length, pool_text};
ghost use Rattle.pool_text.specs.TextCalls.{image_refusal, ReadsText, WritesText};
ghost use Rattle.pool_text.specs.Unread.{unread_number, unread_line, wrong_number};
ghost use Rattle.pool_text.specs.Here.{Here};
ghost use Rattle.pool_text.specs.ReadLoop.{LinesRead};

use lists::Refusal;
use numbers::Layout;

// Why a text is not read.
#[derive(Clone, Copy, Debug, PartialEq, Eq)]
pub enum Unread {
    // the layout, or the image's length
    Refused(Refusal),
    // the first wrong line, counted from 1
    WrongLine(u64),
}

// The answer of the reader, as C has it: with refusal 12, `line` is the first wrong line, counted from 1; else 0.
#[repr(C)]
#[derive(Clone, Copy, Debug, Default, PartialEq, Eq)]
pub struct TextRead {
    pub refusal: u64,
    pub line: u64,
}

impl From<Result<(), Unread>> for TextRead {
    ghost from_gives = { λ answer read. (read.refusal ≡ unread_number answer) × (read.line ≡ unread_line answer) };

    fn from(answer: Result<(), Unread>) -> TextRead {
        match answer {
            Ok(_) => TextRead::default(),
            Err(Unread::Refused(refusal)) => TextRead {
                refusal: refusal.into(),
                line: 0,
            },
            Err(Unread::WrongLine(line)) => TextRead {
                refusal: Refusal::WrongLine.into(),
                line,
            },
        }
    }
}

// Line i: where it begins in the text, where its unit begins in the image, its target and its frame.
#[derive(Clone, Copy, Debug, Default, PartialEq, Eq)]
pub struct Line {
    pub i: u64,
    pub at: usize,
    pub begins: usize,
    pub target: u64,
    pub frame: u64,
}

fn first_line(y: Layout) -> Line
    ensures { Here y result × (result.i ≡ 0) }
{
    Line::default()
}

// Counted on, with no division.
fn next_line(y: Layout, frames: u64, here: Line) -> Line
    requires { Valid y × (frames ≡ framesOf y) × Here y here × (here.i < line_count y) }
    ensures { Here y result × (result.i ≡ here.i + 1) }
{
    let next = Line {
        i: here.i + 1,
        at: here.at + 11 + 2 * y.u as usize,
        begins: here.begins + y.u as usize,
        ..here
    };
    if here.frame + 1 == frames {
        return Line {
            target: here.target + 1,
            frame: 0,
            ..next
        };
    }
    Line {
        frame: here.frame + 1,
        ..next
    }
}

// What both calls test first.
fn check_image(y: Layout, image: usize) -> Result<(), Refusal>
    ensures { answer_number result ≡ image_refusal y image }
{
    numbers::check(y)?;
    let m = numbers::numbers_of(y);
    if image as u64 != m.image {
        return Err(Refusal::ImageLength);
    }
    Ok(())
}

// ---- the writer

fn write_lines(y: Layout, frames: u64, image: &[u8], text: &mut [u8])
    requires { Valid y × (frames ≡ framesOf y) × (length image.now ≡ image_length y) × (length text.old ≡ text_length y) }
    ensures { text.new ≡ pool_text y image.now }
{
    let lines = y.p * frames;
    let mut here = first_line(y);
    for i in 0..lines {
        hex_text::write_line(
            image,
            here.begins,
            y.u as usize,
            here.target,
            here.frame,
            text,
            here.at,
        );
        here = next_line(y, frames, here);
    }
}

// Writes the hex lines of the whole pool: targets rising, frames rising within each.
pub fn write_text(y: Layout, image: &[u8], text: &mut [u8]) -> Result<(), Refusal>
    ensures { WritesText y image.now text.old (answer_number result) text.new }
{
    let checked = check_image(y, image.len());
    if let Err(refusal) = checked {
        lists::clear(text);
        return Err(refusal);
    }
    let m = numbers::numbers_of(y);
    if text.len() as u64 != (11 + 2 * y.u) * (y.p * m.frames) {
        lists::clear(text);
        return Err(Refusal::BufferLength);
    }
    write_lines(y, m.frames, image, text);
    Ok(())
}

// ---- the reader

// Reads the lines into the image, or answers the number of the first wrong one, counted from 1.
fn read_lines(y: Layout, frames: u64, text: &[u8], image: &mut [u8]) -> Result<(), u64>
    requires { Valid y × (frames ≡ framesOf y) × (length image.old ≡ image_length y) }
    ensures lines { LinesRead y text.now image.old image.new (wrong_number result) }
    ensures from_1 { MatchResult result (λ read. Unit {0}) (λ number. 0 < number) }
{
    let u = y.u as usize;
    let lines = y.p * frames;
    let mut here = first_line(y);
    for i in 0..lines {
        let number = i + 1;
        if text.len() - here.at < 11 + 2 * u {
            return Err(number);
        }
        if !hex_text::read_line(
            text,
            here.at,
            here.target,
            here.frame,
            image,
            here.begins,
            u,
        ) {
            return Err(number);
        }
        here = next_line(y, frames, here);
    }
    if here.at != text.len() {
        return Err(lines + 1);
    }
    Ok(())
}

// Fills the image with what the hex lines of a whole pool tell.
pub fn read_text(y: Layout, text: &[u8], image: &mut [u8]) -> Result<(), Unread>
    ensures { ReadsText y image.old text.now (unread_number result) (unread_line result) image.new }
{
    let checked = check_image(y, image.len());
    if let Err(refusal) = checked {
        lists::clear(image);
        return Err(Unread::Refused(refusal));
    }
    let m = numbers::numbers_of(y);
    let read = read_lines(y, m.frames, text, image);
    if let Err(line) = read {
        lists::clear(image);
        return Err(Unread::WrongLine(line));
    }
    Ok(())
}
