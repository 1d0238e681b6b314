// The row controller's repair: plans that our planner draws and plans that the controller sends, each beside plain repair,
// also where the units of a group disagree; then plans that are refused, wrong pools, and buffers for a plan.
#![tactic(auto)]

ghost use Rattle.std.specs.Prelude.{◌<◌, ◌^◌};

use homes::Record;
use numbers::Layout;
use pool_repair::Mended;
use row_trial::{no_failures, record_of};
use std::io;
use trial::{Ascii, Outcome, sameness};

// ---- the row

// Two data units, two parity units and two spares a group, over eight drives: with one of them dead, what a group misses
// can be rebuilt from any two of three contents.
fn row_of(u: u64) -> Layout {
    Layout {
        n: 2,
        k: 2,
        p: 8,
        u,
        t: 1,
        cookie: 16,
        edition: 1,
    }
}

// Units of eight bytes: four groups, a file of 64 bytes, an image of 192, of which each drive has 24.
fn row() -> Layout {
    row_of(8)
}

fn stored() -> [u8; 192] {
    let mut image = [0; 192];
    let file = b"a brown bag with one strap, 23.4 kg, tag 0042, row eight, desk 3";
    let _ = pool_write::write(row(), no_failures(), &mut image, 0, file);
    image
}

// A drive dies, and what stood on it is gone.
fn lose(rt: &impl Print, r: Record, image: &mut [u8], drive: usize) -> io::Result<Record> {
    let failed = pool_fail::fail(row(), r, image, drive as u64);
    if let Some(bytes) = image.chunks_exact_mut(24).nth(drive) {
        bytes.fill(255);
    }
    println!(rt; "Drive {drive} dies: {}", Outcome::from(failed))?;
    Ok(failed.unwrap_or(r))
}

fn show(rt: &impl Print, r: Record, image: &[u8]) -> io::Result<()> {
    let mut file = [0; 64];
    let answer = Outcome::from(pool_read::read(row(), r, image, 0, &mut file));
    println!(rt; "The file is read: {answer}, {}", Ascii(&file))
}

// ---- a plan and its answers

// The entries of a plan.
fn list(rt: &impl Print, plan: &[u64]) -> io::Result<()> {
    for entry in plan.chunks_exact(4) {
        if let [group, content, first, second] = entry {
            println!(rt; "group {group} content {content} from {first} {second}")?;
        }
    }
    Ok(())
}

fn is_same_record(a: Record, b: Record) -> bool {
    a.failed == b.failed && a.k == b.k && a.q == b.q && a.waiting == b.waiting
}

// The checker's answer, then that of the repair, whose record and image must be the same as the others.
fn tell(
    rt: &impl Print,
    y: Layout,
    r: Record,
    image: &mut [u8],
    plan: &[u64],
    rec: Record,
    other: &[u8],
) -> io::Result<Record> {
    let checked = Outcome::from(pool_plan::check_plan(y, r, image, plan));
    let repaired = pool_plan::repair_by(y, r, image, plan);
    let after = repaired.unwrap_or(Mended { count: 0, rec: r });
    let record = if is_same_record(after.rec, rec) {
        "the same record"
    } else {
        "ANOTHER record"
    };
    print!(rt;
        ", checked: {checked}; run: {}, {} units, ",
        Outcome::from(repaired),
        after.count
    )?;
    println!(rt; "{record}, {}", sameness(image, other))?;
    Ok(after.rec)
}

// A plan on one copy of the image, plain repair on another.
fn run(rt: &impl Print, r: Record, before: [u8; 192], plan: &[u64]) -> io::Result<()> {
    list(rt, plan)?;
    let mut other = before;
    let plain = pool_repair::repair(row(), r, &mut other);
    let rec = plain.map_or(r, |mended| mended.rec);
    let mut image = before;
    print!(rt; "The plan")?;
    let after = tell(rt, row(), r, &mut image, plan, rec, &other)?;
    show(rt, after, &image)
}

// ---- our planner's plans and the controller's

// Draws a plan in the buffer, and answers how many numbers it takes.
fn draw(
    rt: &impl Print,
    y: Layout,
    r: Record,
    image: &[u8],
    plan: &mut [u64],
) -> io::Result<usize> {
    let drawn = pool_plan::draw_plan(y, r, image, plan);
    let length = drawn.unwrap_or(0);
    print!(rt; "Our planner is lent {} numbers: ", plan.len())?;
    println!(rt; "{}, it takes {length}", Outcome::from(drawn))?;
    Ok(length as usize)
}

fn run_both(rt: &impl Print, r: Record, before: [u8; 192], theirs: &[u64]) -> io::Result<()> {
    let mut ours = [0; 16];
    let length = draw(rt, row(), r, &before, &mut ours)?;
    run(rt, r, before, &ours[..length.min(16)])?;
    println!(rt; "The controller sends a plan")?;
    run(rt, r, before, theirs)
}

// For drive 2. The controller goes from the last missing content to the first, and takes the two highest sources.
const CONTROLLERS_PLAN: [u64; 8] = [1, 3, 2, 1, 0, 1, 3, 2];

// Group 0 misses two contents, and all that is left of it is read.
fn two_drives_dead(rt: &impl Print, r: Record, before: [u8; 192]) -> io::Result<()> {
    let mut image = before;
    let both = lose(rt, r, &mut image, 5)?;
    let plan = [3, 0, 3, 2, 1, 3, 2, 1, 0, 2, 3, 0, 0, 1, 3, 0];
    run_both(rt, both, image, &plan)
}

// Content 3 of group 1, rebuilt on drive 5, is missing once more.
fn one_after_the_other(rt: &impl Print, r: Record, before: [u8; 192]) -> io::Result<()> {
    let mut image = before;
    let repaired = pool_plan::repair_by(row(), r, &mut image, &CONTROLLERS_PLAN);
    let answer = Outcome::from(repaired);
    println!(rt; "The row is repaired by the controller's first plan: {answer}")?;
    let rec = repaired.map_or(r, |mended| mended.rec);
    let both = lose(rt, rec, &mut image, 5)?;
    run_both(rt, both, image, &[3, 0, 3, 2, 1, 3, 2, 1, 0, 2, 3, 1])
}

// The file's first byte becomes a capital letter where it stands, at the beginning of drive 6. Plain repair reads it, and
// so does our planner's plan; the controller's does not.
fn units_that_disagree(rt: &impl Print, r: Record, before: [u8; 192]) -> io::Result<()> {
    println!(rt; "A byte of group 0, content 0 is changed")?;
    let mut image = before;
    image[144] = b'A';
    run_both(rt, r, image, &CONTROLLERS_PLAN)
}

// ---- plans that leave an image as it was

// An image of SIZE bytes.
fn unchanged<const SIZE: usize>(
    rt: &impl Print,
    what: &str,
    y: Layout,
    r: Record,
    plan: &[u64],
) -> io::Result<()>
    requires { SIZE < 2 ^ 63 }
{
    let before = [0xaa; SIZE];
    let mut image = before;
    print!(rt; "{what}")?;
    tell(rt, y, r, &mut image, plan, r, &before)?;
    Ok(())
}

fn drive_2_dead() -> Record {
    Record {
        waiting: 2,
        ..record_of(2, 1, 0)
    }
}

fn on_the_row(rt: &impl Print, what: &str, plan: &[u64]) -> io::Result<()> {
    unchanged::<192>(rt, what, row(), drive_2_dead(), plan)
}

// Each is the controller's plan with another number at one place. Of group 7, which a row of two tiles has, content 3
// would be missing.
fn other_numbers(rt: &impl Print) -> io::Result<()> {
    let twice = [1, 3, 2, 1, 1, 3, 2, 1];
    on_the_row(rt, "A content named twice, another not", &twice)?;
    on_the_row(rt, "A present content named", &[1, 0, 2, 1, 0, 1, 3, 2])?;
    on_the_row(rt, "Content 4 named", &[1, 4, 2, 1, 0, 1, 3, 2])?;
    on_the_row(rt, "Group 7 named", &[7, 3, 2, 1, 0, 1, 3, 2])?;
    on_the_row(rt, "A missing source", &[1, 3, 3, 1, 0, 1, 3, 2])?;
    on_the_row(rt, "A source twice", &[1, 3, 2, 2, 0, 1, 3, 2])?;
    on_the_row(rt, "Source 4", &[1, 3, 2, 4, 0, 1, 3, 2])?;
    on_the_row(
        rt,
        "Source 2 to the 64 - 1",
        &[1, 3, 2, u64::MAX, 0, 1, 3, 2],
    )
}

fn other_lengths(rt: &impl Print) -> io::Result<()> {
    let longer = [1, 3, 2, 1, 0, 1, 3, 2, 1, 3, 2, 1];
    on_the_row(rt, "An entry too many", &longer)?;
    on_the_row(rt, "A number too many", &longer[..9])?;
    on_the_row(rt, "A number left out", &CONTROLLERS_PLAN[..7])?;
    on_the_row(rt, "An entry left out", &CONTROLLERS_PLAN[..4])?;
    on_the_row(rt, "No plan", &[])
}

fn nothing_missing(rt: &impl Print) -> io::Result<()> {
    let entry = [1, 3, 2, 1];
    let alive = no_failures();
    let mended = record_of(2, 1, 1);
    unchanged::<192>(rt, "No plan, all alive", row(), alive, &[])?;
    unchanged::<192>(rt, "An entry, all alive", row(), alive, &entry)?;
    unchanged::<192>(rt, "No plan, all repaired", row(), mended, &[])?;
    unchanged::<192>(rt, "An entry, all repaired", row(), mended, &entry)
}

// ---- wrong pools, and buffers

// That the plan is none, and the buffer too short for one, makes no difference.
fn wrong_pool<const SIZE: usize>(
    rt: &impl Print,
    what: &str,
    y: Layout,
    r: Record,
) -> io::Result<()>
    requires { SIZE < 2 ^ 63 }
{
    let mut plan = [9; 3];
    unchanged::<SIZE>(rt, what, y, r, &plan)?;
    draw(rt, y, r, &[0xaa; SIZE], &mut plan)?;
    Ok(())
}

fn wrong_pools(rt: &impl Print) -> io::Result<()> {
    let r = drive_2_dead();
    wrong_pool::<192>(rt, "Units of 0 bytes", row_of(0), r)?;
    wrong_pool::<191>(rt, "An image too short", row(), r)?;
    wrong_pool::<193>(rt, "An image too long", row(), r)?;
    wrong_pool::<192>(rt, "Three drives dead", row(), record_of(2, 3, 0))?;
    wrong_pool::<192>(rt, "Drive 8 dead", row(), record_of(8, 1, 0))?;
    wrong_pool::<192>(rt, "17 units missing", row(), Record { waiting: 17, ..r })
}

// Our planner is lent the first numbers of a buffer, all of which is shown.
fn lend(rt: &impl Print, buffer: &mut [u64], size: usize) -> io::Result<()> {
    let lent = size.min(buffer.len());
    draw(rt, row(), drive_2_dead(), &[0xaa; 192], &mut buffer[..lent])?;
    list(rt, buffer)
}

fn buffers(rt: &impl Print) -> io::Result<()> {
    let mut exact = [9; 12];
    lend(rt, &mut exact, 7)?;
    lend(rt, &mut exact, 8)?;
    lend(rt, &mut [9; 12], 12)
}

fn say_everything(rt: HostRuntime) -> io::Result<()> {
    println!(&rt; "Plans beside plain repair")?;
    let mut image = stored();
    let failed = lose(&rt, no_failures(), &mut image, 2)?;
    run_both(&rt, failed, image, &CONTROLLERS_PLAN)?;
    two_drives_dead(&rt, failed, image)?;
    one_after_the_other(&rt, failed, image)?;
    units_that_disagree(&rt, failed, image)?;
    println!(&rt; "Plans that leave a row as it was")?;
    other_numbers(&rt)?;
    other_lengths(&rt)?;
    nothing_missing(&rt)?;
    wrong_pools(&rt)?;
    println!(&rt; "Buffers for a plan")?;
    buffers(&rt)
}

// Where standard output takes no more, the rest is not shown; the status is 0 all the same.
fn main(rt: HostRuntime) {
    let _ = say_everything(rt);
}
