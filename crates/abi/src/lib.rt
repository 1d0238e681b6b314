// The public calls for C and Rust: each exported function is one public call, with that call's own
// promise. docs/ABI.md says what a caller outside Rattle owes; include/splicebell.h declares them.
#![tactic(auto)]

ghost use Rattle.std.specs.Prelude.{◌≡◌, length};
ghost use Rattle.lists.specs.Numbered.{answer_number};
ghost use Rattle.layout.specs.Measure.{measured_of};
ghost use Rattle.layout.specs.Tiles.{permuted_of, inverted_of};
ghost use Rattle.layout.specs.Places.{placed_of, held_of};
ghost use Rattle.layout.specs.Offsets.{mapped_of, traced_of};
ghost use Rattle.layout.specs.Walk.{step_of};
ghost use Rattle.group.specs.Encode.{Encodes};
ghost use Rattle.group.specs.Rebuild.{Rebuilding};
ghost use Rattle.pool.specs.Calls.{Fails, Reads, Writes, Repairs, Prepares, Panels, Audits};
ghost use Rattle.pool_list.specs.Ranges.{WritesList};
ghost use Rattle.pool_repair.specs.Stored.{count_of, rec_of};
ghost use Rattle.proposal.specs.Calls.{RepairsBy, ChecksPlan, Draws};
ghost use Rattle.swapping.specs.Swapping.{Swaps};
ghost use Rattle.moving.specs.Moving.{Moves};
ghost use Rattle.entries.specs.Promise.{Lookup, Insert, Delete, Listing};
ghost use Rattle.hexline.specs.HexLine.{HexLine};
ghost use Rattle.pool_text.specs.TextCalls.{WritesText, ReadsText};
ghost use Rattle.replay_line.specs.First.{first_of};
ghost use Rattle.replay_line.specs.Play.{Plays};
ghost use Rattle.settings.specs.Calls.{Adds, settings_of};
ghost use Rattle.abi.specs.Walked.{walked_of};
ghost use Rattle.abi.specs.ShowsAt.{ShowsAt};

use entries::{Changed, Entry, Found, Key, Page, Wide};
use homes::Record;
use layout::{Cursor, Entries, Held, Mapped, Measured, Placed, Step, Traced};
use lists::Refusal;
use numbers::Layout;
use place::Unit;
use pool_list::ListWritten;
use pool_look::Shown;
use pool_repair::Mended;
use pool_text::TextRead;
use replay_line::{FirstLine, Played};
use settings::{Added, Settings};

// ---- layout numbers, permutation, places, offsets, walk

#[unsafe(no_mangle)]
pub extern "C" fn splicebell_measure(y: Layout) -> Measured
    ensures { result ≡ measured_of y }
{
    layout::measure(y).into()
}

#[unsafe(no_mangle)]
pub extern "C" fn splicebell_tile_permutation(y: Layout, tile: u64) -> Entries
    ensures { result ≡ permuted_of y tile }
{
    layout::tile_permutation(y, tile).into()
}

#[unsafe(no_mangle)]
pub extern "C" fn splicebell_tile_inverse(y: Layout, tile: u64) -> Entries
    ensures { result ≡ inverted_of y tile }
{
    layout::tile_inverse(y, tile).into()
}

#[unsafe(no_mangle)]
pub extern "C" fn splicebell_find_place(y: Layout, group: u64, unit: u64) -> Placed
    ensures { result ≡ placed_of y group unit }
{
    layout::find_place(y, group, unit).into()
}

#[unsafe(no_mangle)]
pub extern "C" fn splicebell_find_unit(y: Layout, frame: u64, target: u64) -> Held
    ensures { result ≡ held_of y frame target }
{
    layout::find_unit(y, frame, target).into()
}

#[unsafe(no_mangle)]
pub extern "C" fn splicebell_map_offset(y: Layout, offset: u64) -> Mapped
    ensures { result ≡ mapped_of y offset }
{
    layout::map_offset(y, offset).into()
}

#[unsafe(no_mangle)]
pub extern "C" fn splicebell_map_byte(y: Layout, x: u64) -> Traced
    ensures { result ≡ traced_of y x }
{
    layout::map_byte(y, x).into()
}

// A step of the walk as numbers: C has no enum that holds values.
#[repr(C)]
#[derive(Clone, Copy)]
pub struct Walked {
    pub refusal: u64,
    pub done: bool,
    pub held: Unit,
    pub next: Cursor,
}

impl From<Step> for Walked {
    ghost from_gives = { λ step walked. walked ≡ walked_of step };

    fn from(step: Step) -> Walked {
        match step {
            Step::At(held, next) => Walked {
                refusal: 0,
                done: false,
                held,
                next,
            },
            Step::Done(next) => Walked {
                refusal: 0,
                done: true,
                held: Unit { group: 0, unit: 0 },
                next,
            },
            Step::Refused(refusal, next) => Walked {
                refusal,
                done: false,
                held: Unit { group: 0, unit: 0 },
                next,
            },
        }
    }
}

#[unsafe(no_mangle)]
pub extern "C" fn splicebell_step(y: Layout, at: Cursor) -> Walked
    ensures { result ≡ walked_of (step_of y at) }
{
    at.step(y).into()
}

// ---- encode and rebuild

#[unsafe(no_mangle)]
pub extern "C" fn splicebell_encode(y: Layout, buf: &mut [u8]) -> u64
    ensures { Encodes y buf.old result buf.new }
{
    lists::answer_number(group::encode(y, buf))
}

#[unsafe(no_mangle)]
pub extern "C" fn splicebell_rebuild(y: Layout, missing: &[u64], buf: &mut [u8]) -> u64
    ensures { Rebuilding y missing.now buf.old result buf.new }
{
    lists::answer_number(group::rebuild(y, missing, buf))
}

// ---- the pool

// The record, as it was given where refused.
#[repr(C)]
#[derive(Clone, Copy)]
pub struct Failed {
    pub refusal: u64,
    pub rec: Record,
}

#[unsafe(no_mangle)]
pub extern "C" fn splicebell_fail(y: Layout, r: Record, image: &[u8], target: u64) -> Failed
    ensures { Fails y r image.now target result.refusal result.rec }
{
    let answer = pool_fail::fail(y, r, image, target);
    Failed {
        refusal: lists::answer_number(answer),
        rec: answer.unwrap_or(r),
    }
}

#[unsafe(no_mangle)]
pub extern "C" fn splicebell_read(
    y: Layout,
    r: Record,
    image: &[u8],
    offset: u64,
    out: &mut [u8],
) -> u64
    ensures { Reads y r image.now offset (length out.old) result out.new }
{
    lists::answer_number(pool_read::read(y, r, image, offset, out))
}

#[unsafe(no_mangle)]
pub extern "C" fn splicebell_write(
    y: Layout,
    r: Record,
    image: &mut [u8],
    offset: u64,
    bytes: &[u8],
) -> u64
    ensures { Writes y r image.old offset bytes.now result image.new }
{
    lists::answer_number(pool_write::write(y, r, image, offset, bytes))
}

#[unsafe(no_mangle)]
pub extern "C" fn splicebell_write_list(
    y: Layout,
    r: Record,
    image: &mut [u8],
    ranges: &[[u64; 2]],
    bytes: &[u8],
) -> ListWritten
    ensures { WritesList y r image.old ranges.now bytes.now result.refusal result.range image.new }
{
    pool_list::write_list(y, r, image, ranges, bytes).into()
}

// How many contents were missing, and the record; refused, 0 and as it was given.
#[repr(C)]
#[derive(Clone, Copy)]
pub struct Repaired {
    pub refusal: u64,
    pub count: u64,
    pub rec: Record,
}

impl Repaired {
    // Of a repair that was given the record r.
    fn of(answer: Result<Mended, Refusal>, r: Record) -> Self
        ensures { (result.refusal ≡ answer_number answer) × (result.count ≡ count_of answer) × (result.rec ≡ rec_of answer r) }
    {
        match answer {
            Ok(mended) => Repaired {
                refusal: 0,
                count: mended.count,
                rec: mended.rec,
            },
            Err(refusal) => Repaired {
                refusal: refusal.into(),
                count: 0,
                rec: r,
            },
        }
    }
}

#[unsafe(no_mangle)]
pub extern "C" fn splicebell_repair(y: Layout, r: Record, image: &mut [u8]) -> Repaired
    ensures { Repairs y r image.old result.refusal result.count result.rec image.new }
{
    Repaired::of(pool_repair::repair(y, r, image), r)
}

#[unsafe(no_mangle)]
pub extern "C" fn splicebell_check_plan(y: Layout, r: Record, image: &[u8], plan: &[u64]) -> u64
    ensures { ChecksPlan y r image.now plan.now result }
{
    lists::answer_number(pool_plan::check_plan(y, r, image, plan))
}

#[unsafe(no_mangle)]
pub extern "C" fn splicebell_repair_by(
    y: Layout,
    r: Record,
    image: &mut [u8],
    plan: &[u64],
) -> Repaired
    ensures { RepairsBy y r image.old plan.now result.refusal result.count result.rec image.new }
{
    Repaired::of(pool_plan::repair_by(y, r, image, plan), r)
}

// How many numbers of the buffer the plan takes, from the first on; 0 where refused.
#[repr(C)]
#[derive(Clone, Copy)]
pub struct Drawn {
    pub refusal: u64,
    pub length: u64,
}

#[unsafe(no_mangle)]
pub extern "C" fn splicebell_draw_plan(
    y: Layout,
    r: Record,
    image: &[u8],
    plan: &mut [u64],
) -> Drawn
    ensures { Draws y r image.now plan.old result.refusal result.length plan.new }
{
    let answer = pool_plan::draw_plan(y, r, image, plan);
    Drawn {
        refusal: lists::answer_number(answer),
        length: answer.unwrap_or(0),
    }
}

// The record, as it was given where refused.
#[repr(C)]
#[derive(Clone, Copy)]
pub struct Swapped {
    pub refusal: u64,
    pub rec: Record,
}

#[unsafe(no_mangle)]
pub extern "C" fn splicebell_swap(y: Layout, r: Record, image: &mut [u8], target: u64) -> Swapped
    ensures { Swaps y r image.old target result.refusal result.rec image.new }
{
    let answer = pool_swap::swap(y, r, image, target);
    Swapped {
        refusal: lists::answer_number(answer),
        rec: answer.unwrap_or(r),
    }
}

#[unsafe(no_mangle)]
pub extern "C" fn splicebell_move_edition(
    y: Layout,
    r: Record,
    old_image: &[u8],
    new_image: &mut [u8],
) -> u64
    ensures { Moves y r old_image.now (length new_image.old) result new_image.new }
{
    lists::answer_number(pool_move::move_edition(y, r, old_image, new_image))
}

// The units that wait for repair, the targets that have failed, and how many of these are repaired; zeros where refused.
#[repr(C)]
#[derive(Clone, Copy)]
pub struct Counts {
    pub refusal: u64,
    pub waiting: u64,
    pub failed: u64,
    pub repaired: u64,
}

#[unsafe(no_mangle)]
pub extern "C" fn splicebell_panel(y: Layout, r: Record, image: &[u8]) -> Counts
    ensures { Panels y r image.now result.refusal result.waiting result.failed result.repaired }
{
    match pool_count::panel(y, r, image) {
        Ok(shown) => Counts {
            refusal: 0,
            waiting: shown.waiting,
            failed: shown.failed,
            repaired: shown.repaired,
        },
        Err(refusal) => Counts {
            refusal: refusal.into(),
            waiting: 0,
            failed: 0,
            repaired: 0,
        },
    }
}

#[unsafe(no_mangle)]
pub extern "C" fn splicebell_audit(y: Layout, r: Record, image: &[u8]) -> u64
    ensures { Audits y r image.now result }
{
    lists::answer_number(pool_count::audit(y, r, image))
}

#[unsafe(no_mangle)]
pub extern "C" fn splicebell_prepare(
    y: Layout,
    r: Record,
    image: &[u8],
    group: u64,
    content: u64,
    scratch: &mut [u8],
) -> u64
    ensures { Prepares y r image.now (length scratch.old) group content result scratch.new }
{
    lists::answer_number(pool_look::prepare(y, r, image, group, content, scratch))
}

// An exported function cannot return a reference, so it answers where the part lies.
#[unsafe(no_mangle)]
pub extern "C" fn splicebell_show(
    y: Layout,
    r: Record,
    image: &[u8],
    scratch: &[u8],
    group: u64,
    content: u64,
) -> Shown
    ensures { ShowsAt y r image.now scratch.now group content result }
{
    pool_look::locate(y, r, image.len(), scratch.len(), group, content).into()
}

// ---- the catalogue

#[unsafe(no_mangle)]
pub extern "C" fn splicebell_lookup(s: &[Entry], n: usize, key: Key) -> Found
    ensures { Lookup key n s.now result }
{
    catalogue::lookup(s, n, key).into()
}

#[unsafe(no_mangle)]
pub extern "C" fn splicebell_insert(s: &mut [Entry], n: usize, r: Entry) -> Changed
    ensures { Insert r n s.old result s.new }
{
    Changed::of(catalogue::insert(s, n, r), n)
}

#[unsafe(no_mangle)]
pub extern "C" fn splicebell_delete(s: &mut [Entry], n: usize, r: Entry) -> Changed
    ensures { Delete r n s.old result s.new }
{
    Changed::of(catalogue::delete(s, n, r), n)
}

#[unsafe(no_mangle)]
pub extern "C" fn splicebell_listing(s: &[Entry], n: usize, key: Key, out: &mut [Wide]) -> Page
    ensures { Listing key n s.now out.old result out.new }
{
    catalogue::listing(s, n, key, out).into()
}

// ---- the hex line

#[unsafe(no_mangle)]
pub extern "C" fn splicebell_hex_line(
    y: Layout,
    image: &[u8],
    target: u64,
    frame: u64,
    line: &mut [u8],
) -> u64
    ensures { HexLine y image.now target frame line.old result line.new }
{
    lists::answer_number(hexline::hex_line(y, image, target, frame, line))
}

#[unsafe(no_mangle)]
pub extern "C" fn splicebell_write_text(y: Layout, image: &[u8], text: &mut [u8]) -> u64
    ensures { WritesText y image.now text.old result text.new }
{
    lists::answer_number(pool_text::write_text(y, image, text))
}

#[unsafe(no_mangle)]
pub extern "C" fn splicebell_read_text(y: Layout, text: &[u8], image: &mut [u8]) -> TextRead
    ensures { ReadsText y image.old text.now result.refusal result.line image.new }
{
    pool_text::read_text(y, text, image).into()
}

// ---- a recorded trace

#[unsafe(no_mangle)]
pub extern "C" fn splicebell_replay_first(line: &[u8]) -> FirstLine
    ensures { result ≡ first_of line.now }
{
    replay_line::first(line).into()
}

#[unsafe(no_mangle)]
pub extern "C" fn splicebell_replay_line(
    y: Layout,
    r: Record,
    image: &mut [u8],
    line: &[u8],
    answer: &mut [u8],
) -> Played
    ensures { Plays y r image.old line.now answer.old result image.new answer.new }
{
    Played::new(r, replay_line::play(y, r, image, line, answer))
}

// ---- a row's settings

#[unsafe(no_mangle)]
pub extern "C" fn splicebell_add_settings(
    version: u64,
    y: Layout,
    buffer: &mut [u8],
    used: usize,
) -> Added
    ensures { Adds version y buffer.old used result buffer.new }
{
    Added::new(used, settings::add(version, y, buffer, used))
}

#[unsafe(no_mangle)]
pub extern "C" fn splicebell_newest_settings(buffer: &[u8], used: usize) -> Settings
    ensures { result ≡ settings_of 2 buffer.now used }
{
    settings::newest(buffer, used).into()
}

#[unsafe(no_mangle)]
pub extern "C" fn splicebell_newest_settings_old(buffer: &[u8], used: usize) -> Settings
    ensures { result ≡ settings_of 1 buffer.now used }
{
    settings::newest_old(buffer, used).into()
}
