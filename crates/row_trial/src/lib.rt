// The row of drives that the programs in words speak of, and the pool's calls on it. They are held to nothing here but to
// be safe: what the programs write is compared with `oracle/`, and without promises their check is short.
#![tactic(auto)]

use homes::Record;
use lists::Refusal;
use numbers::Layout;
use pool_repair::Mended;
use settings::Settings;
use std::{fmt, io};
use trial::Outcome;

// Two data units, one parity unit and one spare a group, over five drives.
pub fn row_of(u: u64, t: u64) -> Layout {
    Layout {
        n: 2,
        k: 1,
        p: 5,
        u,
        t,
        cookie: 7,
        edition: 1,
    }
}

// The row's settings as its fitter wrote them, read: units of eight bytes, one tile, so a file of 80 bytes and an image of 160.
pub fn row() -> Layout {
    let line = b"01 02 01 05 0008 000001 0000000000000007\n";
    Settings::from(settings::newest(line, line.len())).layout
}

pub fn record_of(first: u64, k: u64, q: u64) -> Record {
    Record {
        failed: [first, 0, 0],
        k,
        q,
        waiting: 0,
    }
}

pub fn no_failures() -> Record {
    record_of(0, 0, 0)
}

// ---- calls on the row: as in `trial`, a write that fails is passed over

pub fn put(r: Record, image: &mut [u8], offset: u64, bytes: &[u8]) -> Outcome {
    Outcome::from(pool_write::write(row(), r, image, offset, bytes))
}

pub fn get(r: Record, image: &[u8], offset: u64, out: &mut [u8]) -> Result<(), Refusal> {
    pool_read::read(row(), r, image, offset, out)
}

pub fn lose(rt: &impl Print, r: Record, image: &[u8], target: u64) -> Record {
    let failed = pool_fail::fail(row(), r, image, target);
    let _ = println!(rt; "Drive {target} dies: {}", Outcome::from(failed));
    failed.unwrap_or(r)
}

// What stood on drive 2 is gone: each drive has 32 bytes. An image that does not hold it stays as it is.
pub fn wipe_drive_2(image: &mut [u8]) {
    if 96 <= image.len() {
        image[64..96].fill(255);
    }
}

pub fn mend(rt: &impl Print, r: Record, image: &mut [u8]) -> Record {
    let repaired = pool_repair::repair(row(), r, image);
    let Mended { count, rec } = repaired.unwrap_or(Mended { count: 0, rec: r });
    let _ = println!(rt;
        "The row is repaired: {count} units were missing, {}",
        Outcome::from(repaired)
    );
    rec
}

// ---- the service panel

// How many units the panel says to wait.
#[derive(Clone, Copy)]
struct Waiting(u64);

impl fmt::Display for Waiting {
    fn fmt<W: fmt::Write>(&self, f: &mut fmt::Formatter<W>) -> fmt::Result {
        match self.0 {
            0 => f.write_str("no unit waits"),
            1 => f.write_str("1 unit waits"),
            units => write!(f, "{units} units wait"),
        }
    }
}

fn say_inspection(rt: &impl Print, r: Record, image: &[u8]) -> io::Result<()> {
    let shown = pool_count::panel(row(), r, image);
    print!(rt; "The service panel: ")?;
    if let Ok(counts) = shown {
        let waiting = Waiting(counts.waiting);
        print!(rt;
            "{waiting} for repair, {} of {} dead drives repaired, ",
            counts.repaired, counts.failed
        )?;
    }
    println!(rt; "{}", Outcome::from(shown))?;
    let audited = pool_count::audit(row(), r, image);
    println!(rt; "The count is audited: {}", Outcome::from(audited))
}

// What the panel shows, and what an audit of the count answers.
pub fn inspect(rt: &impl Print, r: Record, image: &[u8]) {
    let _ = say_inspection(rt, r, image);
}
