// A row's pool by mail: written as text, read back, and damaged on its way in the ways listed below.
// The row is that of `morning`; its pool is 20 lines of 27 characters, so that all of it can be shown.
#![tactic(auto)]

use lists::answer_number;
use numbers::Layout;
use pool_text::TextRead;
use row_trial::{no_failures, put, row, row_of};
use trial::{answer, decimal, say_same, set_all, text};

// ---- bytes

// What is lent to be filled, before a call: to see that all of it is written.
fn blur(bytes: &mut [u8]) {
    set_all(bytes, 170);
}

fn is_zeros(bytes: &[u8]) -> bool {
    bytes.iter().all(|byte| *byte == 0)
}

// Copies a piece to the place `from` of a copy, as far as there is room, and answers where the next one goes.
fn append(piece: &[u8], copy: &mut [u8], from: usize) -> usize {
    if copy.len() <= from {
        return from;
    }
    let count = piece.len().min(copy.len() - from);
    copy[from..from + count].copy_from_slice(&piece[..count]);
    from + count
}

// ---- what is said of an answer

fn say_zeros(rt: &impl Print, what: &[u8], bytes: &[u8]) {
    text(rt, what);
    if is_zeros(bytes) {
        text(rt, b" is zeros\n");
        return;
    }
    text(rt, b" is NOT zeros\n");
}

// ---- one call and its answer

// Opens a letter that must be refused.
fn refused(rt: &impl Print, what: &[u8], y: Layout, letter: &[u8], image: &mut [u8]) {
    blur(image);
    let opened = TextRead::from(pool_text::read_text(y, letter, image));
    text(rt, what);
    text(rt, b": ");
    answer(rt, opened.refusal);
    text(rt, b", line ");
    decimal(rt, opened.line);
    text(rt, b"; ");
    say_zeros(rt, b"the image", image);
}

// Writes a letter that must be refused.
fn unwritten(rt: &impl Print, what: &[u8], y: Layout, image: &[u8], letter: &mut [u8]) {
    blur(letter);
    let written = pool_text::write_text(y, image, letter);
    text(rt, what);
    text(rt, b": ");
    answer(rt, answer_number(written));
    text(rt, b"; ");
    say_zeros(rt, b"the text", letter);
}

// ---- letters damaged on their way

// Opens the letter with its characters from `from` up to `to` replaced by `put`.
fn damaged(rt: &impl Print, what: &[u8], letter: &[u8], from: usize, to: usize, put: &[u8]) {
    if letter.len() < to {
        return;
    }
    if to < from {
        return;
    }
    let mut copy = [0u8; 600];
    let head = append(&letter[0..from], &mut copy, 0);
    let middle = append(put, &mut copy, head);
    let len = append(&letter[to..], &mut copy, middle);
    if 600 < len {
        return;
    }
    let mut image = [0u8; 160];
    refused(rt, what, row(), &copy[0..len], &mut image);
}

// Line i of the letter begins at 27 * (i - 1); its first digit of a byte is ten characters further on.
fn damaged_characters(rt: &impl Print, letter: &[u8]) {
    damaged(rt, b"A digit of line 2 in upper case", letter, 40, 41, b"F");
    damaged(
        rt,
        b"A carriage return at the end of line 3",
        letter,
        80,
        80,
        b"\r",
    );
    damaged(rt, b"Two spaces in line 4", letter, 83, 84, b"  ");
    damaged(rt, b"A digit missing in line 9", letter, 232, 233, b"");
    damaged(rt, b"A digit too many in line 10", letter, 260, 260, b"0");
    damaged(rt, b"A byte 0 in line 11", letter, 285, 286, b"\x00");
    damaged(rt, b"A byte 200 in line 12", letter, 310, 311, b"\xc8");
    damaged(
        rt,
        b"Another frame's number in line 13",
        letter,
        332,
        333,
        b"4",
    );
    damaged(rt, b"A letter past f in line 14", letter, 362, 363, b"g");
    damaged(
        rt,
        b"A space for the newline of line 15",
        letter,
        404,
        405,
        b" ",
    );
}

fn damaged_lines(rt: &impl Print, letter: &[u8]) {
    if letter.len() < 540 {
        return;
    }
    damaged(rt, b"Line 6 repeated", letter, 162, 162, &letter[135..162]);
    damaged(rt, b"Line 7 left out", letter, 162, 189, b"");
    damaged(rt, b"An empty line after line 8", letter, 216, 216, b"\n");
    damaged(rt, b"A greeting before line 1", letter, 0, 0, b"Hello\n");
}

fn damaged_ends(rt: &impl Print, letter: &[u8]) {
    if letter.len() < 540 {
        return;
    }
    damaged(rt, b"The last newline missing", letter, 539, 540, b"");
    damaged(rt, b"The last line missing", letter, 513, 540, b"");
    damaged(rt, b"A newline after the end", letter, 540, 540, b"\n");
    damaged(
        rt,
        b"A line after the end",
        letter,
        540,
        540,
        &letter[513..540],
    );
    damaged(rt, b"An empty text", letter, 0, 540, b"");
}

fn exchanged_lines(rt: &impl Print, letter: &[u8]) {
    if letter.len() < 540 {
        return;
    }
    let mut copy = [0u8; 540];
    let a = append(&letter[0..108], &mut copy, 0);
    let b = append(&letter[135..162], &mut copy, a);
    let c = append(&letter[108..135], &mut copy, b);
    append(&letter[162..], &mut copy, c);
    let mut image = [0u8; 160];
    refused(rt, b"Lines 5 and 6 exchanged", row(), &copy, &mut image);
}

// ---- letters of other rows, and other refusals

// With units of 4 bytes every line is shorter; with two tiles drive 0 has four more frames, where this row goes on with drive 1.
fn letters_of_others(rt: &impl Print) {
    let y = row();
    let image = [17u8; 320];
    let mut here = [0u8; 160];
    let mut small = [0u8; 380];
    if pool_text::write_text(row_of(4, 1), &image[..80], &mut small).is_err() {
        return;
    }
    refused(
        rt,
        b"The text of a row with units of 4 bytes",
        y,
        &small,
        &mut here,
    );
    let mut large = [0u8; 1080];
    if pool_text::write_text(row_of(8, 2), &image, &mut large).is_err() {
        return;
    }
    refused(
        rt,
        b"The text of a row with two tiles",
        y,
        &large,
        &mut here,
    );
}

fn images_that_do_not_fit(rt: &impl Print, letter: &[u8]) {
    let y = row();
    let mut short = [0u8; 159];
    let mut right = [0u8; 160];
    let mut long = [0u8; 161];
    refused(rt, b"An image one byte too short", y, letter, &mut short);
    refused(rt, b"An image one byte too long", y, letter, &mut long);
    refused(
        rt,
        b"An image of no bytes and an empty text",
        y,
        b"",
        &mut short[..0],
    );
    refused(
        rt,
        b"A row with units of 0 bytes",
        row_of(0, 1),
        letter,
        &mut right,
    );
}

fn texts_that_do_not_fit(rt: &impl Print, image: &[u8]) {
    let y = row();
    let mut short = [0u8; 539];
    let mut right = [0u8; 540];
    let mut long = [0u8; 541];
    unwritten(
        rt,
        b"Written in a text one character too short",
        y,
        image,
        &mut short,
    );
    unwritten(
        rt,
        b"Written in a text one character too long",
        y,
        image,
        &mut long,
    );
    unwritten(
        rt,
        b"Written from an image of 3 bytes",
        y,
        b"abc",
        &mut right,
    );
    unwritten(
        rt,
        b"Written for a row with units of 0 bytes",
        row_of(0, 1),
        image,
        &mut right,
    );
}

// ---- the row and its letter

// A photograph, a weight and another photograph.
fn stored(image: &mut [u8]) {
    let empty = no_failures();
    put(empty, image, 0, b"a brown bag with one strap");
    put(empty, image, 26, b"23.4 kg");
    put(empty, image, 33, b"a red case, its label torn");
}

fn there_and_back(rt: &impl Print, image: &[u8], letter: &mut [u8]) {
    let written = pool_text::write_text(row(), image, letter);
    text(rt, b"The row is written as text: ");
    answer(rt, answer_number(written));
    text(rt, b"\n");
    text(rt, letter);
    let mut back = [170u8; 160];
    let opened = TextRead::from(pool_text::read_text(row(), letter, &mut back));
    text(rt, b"It is read back: ");
    answer(rt, opened.refusal);
    text(rt, b", ");
    say_same(rt, &back, image);
}

fn main(rt: HostRuntime) {
    let mut image = [0u8; 160];
    let mut letter = [0u8; 540];
    stored(&mut image);
    there_and_back(&rt, &image, &mut letter);
    damaged_characters(&rt, &letter);
    exchanged_lines(&rt, &letter);
    damaged_lines(&rt, &letter);
    damaged_ends(&rt, &letter);
    letters_of_others(&rt);
    images_that_do_not_fit(&rt, &letter);
    texts_that_do_not_fit(&rt, &image);
}
