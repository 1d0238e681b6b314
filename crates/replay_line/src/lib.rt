// A recorded trace replayed line by line: the first line's layout, and one event after another. Both calls take any input and test everything
// themselves. A line is lent with its newline; the answer is text, as it is printed, with its newline.
#![tactic(auto)]

ghost use Rattle.std.specs.Prelude.{◌≡◌, ◌≤◌, ◌+◌, ◌*◌, [], ◌∷◌, length};
ghost use Rattle.hex_text.specs.Digit.{number_at};
ghost use Rattle.hex_text.specs.Hex.{hex_of};
ghost use Rattle.pool.specs.Refusals.{range_refusal, fail_refusal, repair_refusal};
ghost use Rattle.pool.specs.Reading.{read_out};
ghost use Rattle.pool.specs.Writing.{write_image};
ghost use Rattle.pool.specs.Failing.{fail_record};
ghost use Rattle.pool.specs.Repairing.{repair_image, repair_record, repair_count};
ghost use Rattle.trace.specs.Forms.{kind_of, bytes_of};
ghost use Rattle.answers.specs.Decimal.{decimal, printed};
ghost use Rattle.replay_line.specs.First.{first_of};
ghost use Rattle.replay_line.specs.Answers.{first_by, played_by};
ghost use Rattle.replay_line.specs.Play.{roomy, Plays};
ghost use Rattle.replay_line.specs.Said.{Said};

use homes::Record;
use lists::Refusal;
use numbers::Layout;
use trace::Kind;

// ---- the first line

// What a first line tells: the layout, and how many bytes the image of its pool has.
#[derive(Clone, Copy)]
pub struct Beginning {
    pub layout: Layout,
    pub image: u64,
}

// What C is handed: the refusal's number, 0 where there is none, and what the line tells; zeros where refused.
#[repr(C)]
#[derive(Clone, Copy)]
pub struct FirstLine {
    pub refusal: u64,
    pub layout: Layout,
    pub image: u64,
}

impl From<Result<Beginning, Refusal>> for FirstLine {
    ghost from_gives = { λ answer line. line ≡ first_by answer };

    fn from(answer: Result<Beginning, Refusal>) -> Self {
        match answer {
            Ok(Beginning { layout, image }) => FirstLine {
                refusal: 0,
                layout,
                image,
            },
            Err(refusal) => FirstLine {
                refusal: refusal.into(),
                layout: numbers::no_layout(),
                image: 0,
            },
        }
    }
}

// The layout that a replay starts from. Refused where the line is malformed, where its numbers are, and where its pool is too large for a replay.
pub fn first(line: &[u8]) -> Result<Beginning, Refusal>
    ensures { first_by result ≡ first_of line.now }
{
    if !trace::is_layout(line) {
        return Err(Refusal::BadTrace);
    }
    let layout = trace::layout_at(line, 0);
    numbers::check(layout)?;
    let m = numbers::numbers_of(layout);
    if 32768 < m.image {
        return Err(Refusal::BadTrace);
    }
    Ok(Beginning {
        layout,
        image: m.image,
    })
}

// ---- answers

// A number alone.
fn say(number: u64, answer: &mut [u8]) -> u64
    requires { 24 ≤ length answer.old }
    ensures { Said (printed number []) answer.old result answer.new }
{
    let end = answers::write_decimal(number, answer, 0);
    answer[end] = 10;
    end as u64 + 1
}

// An accepted repair, and how many pairs were missing.
fn say_count(count: u64, answer: &mut [u8]) -> u64
    requires { 24 ≤ length answer.old }
    ensures { Said (printed 0 (32 ∷ decimal count)) answer.old result answer.new }
{
    answer[0] = 48;
    answer[1] = 32;
    let end = answers::write_decimal(count, answer, 2);
    answer[end] = 10;
    end as u64 + 1
}

// An accepted read, and its bytes: they are read to where the second half of their digits will stand.
fn say_bytes(y: Layout, r: Record, image: &[u8], offset: u64, size: usize, answer: &mut [u8]) -> u64
    requires { (range_refusal y r (length image.now) offset size ≡ 0) × (24 + 2 * size ≤ length answer.old) }
    ensures { Said (printed 0 (32 ∷ hex_of (read_out y r image.now offset size))) answer.old result answer.new }
{
    let begins = 2 + size;
    let end = begins + size;
    answer[0] = 48;
    answer[1] = 32;
    let _ = pool_read::read(y, r, image, offset, &mut answer[begins..end]);
    answers::spread_hex(answer, 2, size);
    answer[end] = 10;
    end as u64 + 1
}

// ---- one event

// What a played line leaves beside image and answer: how long the answer is, and the record.
#[derive(Clone, Copy)]
pub struct Event {
    pub length: u64,
    pub rec: Record,
}

// What C is handed: the refusal's number, 0 where there is none. Refused, `length` is 0 and `rec` is the record that was given.
#[repr(C)]
#[derive(Clone, Copy)]
pub struct Played {
    pub refusal: u64,
    pub length: u64,
    pub rec: Record,
}

impl Played {
    // The answer of a call that this record was given.
    pub fn new(r: Record, answer: Result<Event, Refusal>) -> Self
        ensures { result ≡ played_by r answer }
    {
        match answer {
            Ok(Event { length, rec }) => Played {
                refusal: 0,
                length,
                rec,
            },
            Err(refusal) => Played {
                refusal: refusal.into(),
                length: 0,
                rec: r,
            },
        }
    }
}

// Where the write is refused, its number is said, and the image is as it was. A line has at most 4,140 bytes to write.
fn play_write(y: Layout, r: Record, image: &mut [u8], line: &[u8], answer: &mut [u8]) -> u64
    requires { (kind_of line.now ≡ 1) × (24 ≤ length answer.old) }
    ensures { (image.new ≡ write_image y r image.old (number_at line.now 3 16) (bytes_of line.now))
        × Said (printed (range_refusal y r (length image.old) (number_at line.now 3 16) (length (bytes_of line.now))) [])
        answer.old result answer.new }
{
    let mut bytes = [0u8; 4140];
    let count = trace::byte_count(line);
    hex_text::tell_bytes(line, 20, &mut bytes, 0, count);
    let offset = hex_text::number_at(line, 3, 16);
    let number = lists::answer_number(pool_write::write(y, r, image, offset, &bytes[..count]));
    say(number, answer)
}

fn play_fail(y: Layout, r: Record, image: &[u8], line: &[u8], answer: &mut [u8]) -> Event
    requires { (kind_of line.now ≡ 2) × (24 ≤ length answer.old) }
    ensures { (result.rec ≡ fail_record y r (length image.now) (number_at line.now 3 2))
        × Said (printed (fail_refusal y r (length image.now) (number_at line.now 3 2)) []) answer.old result.length answer.new }
{
    let target = hex_text::number_at(line, 3, 2);
    let failed = pool_fail::fail(y, r, image, target);
    Event {
        length: say(lists::answer_number(failed), answer),
        rec: failed.unwrap_or(r),
    }
}

fn play_repair(y: Layout, r: Record, image: &mut [u8], answer: &mut [u8]) -> Event
    requires { 24 ≤ length answer.old }
    ensures { (result.rec ≡ repair_record y r (length image.old)) × (image.new ≡ repair_image y r image.old)
        × Said (printed (repair_refusal y r (length image.old)) (32 ∷ decimal (repair_count y r (length image.old))))
        answer.old result.length answer.new }
{
    match pool_repair::repair(y, r, image) {
        Ok(mended) => Event {
            length: say_count(mended.count, answer),
            rec: mended.rec,
        },
        Err(refusal) => Event {
            length: say(refusal.into(), answer),
            rec: r,
        },
    }
}

// The range is tested before its bytes are read: an accepted one is no longer than the image, and its answer has room.
fn play_read(y: Layout, r: Record, image: &[u8], line: &[u8], answer: &mut [u8]) -> u64
    requires { (kind_of line.now ≡ 4) × (24 + 2 * length image.now ≤ length answer.old) }
    ensures { Said (printed (range_refusal y r (length image.now) (number_at line.now 3 16) (number_at line.now 20 16))
        (32 ∷ hex_of (read_out y r image.now (number_at line.now 3 16) (number_at line.now 20 16)))) answer.old result answer.new }
{
    let offset = hex_text::number_at(line, 3, 16);
    let size = hex_text::number_at(line, 20, 16) as usize;
    match checks::check_range(y, r, image.len(), offset, size) {
        Ok(()) => say_bytes(y, r, image, offset, size, answer),
        Err(refusal) => say(refusal.into(), answer),
    }
}

// Whether every answer that a pool with this image can give fits.
fn has_room(image: usize, answer: usize) -> bool
    ensures { result ≡ roomy image answer }
{
    24 <= answer && image <= (answer - 24) / 2
}

// Plays one line: makes the call that it tells, and says in `answer` what the call answers; a malformed line is answered with 13.
pub fn play(
    y: Layout,
    r: Record,
    image: &mut [u8],
    line: &[u8],
    answer: &mut [u8],
) -> Result<Event, Refusal>
    ensures { Plays y r image.old line.now answer.old (played_by r result) image.new answer.new }
{
    if !has_room(image.len(), answer.len()) {
        lists::clear(answer);
        return Err(Refusal::BufferLength);
    }
    match trace::find_kind(line) {
        Some(Kind::Write) => {
            let length = play_write(y, r, image, line, answer);
            Ok(Event { length, rec: r })
        }
        Some(Kind::Fail) => Ok(play_fail(y, r, image, line, answer)),
        Some(Kind::Repair) => Ok(play_repair(y, r, image, answer)),
        Some(Kind::Read) => {
            let length = play_read(y, r, image, line, answer);
            Ok(Event { length, rec: r })
        }
        None => {
            let length = say(13, answer);
            Ok(Event { length, rec: r })
        }
    }
}
