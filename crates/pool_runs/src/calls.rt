// The calls on a pool, each printed with its answer, and then the pool.
use homes::Record;
use layout::Measured;
use lists::answer_number;
use numbers::{Layout, Numbers};
use pool_count::PanelCounts;
use pool_repair::Mended;
use row_trial::no_failures;
use std::{fmt, io};
use trial::checksum;

// A record as it is printed: its entries, and its three counts.
#[derive(Clone, Copy)]
pub struct Counted(pub Record);

impl fmt::Display for Counted {
    fn fmt<W: fmt::Write>(&self, f: &mut fmt::Formatter<W>) -> fmt::Result {
        let r = self.0;
        let [first, second, third] = r.failed;
        write!(f, "{first} {second} {third} {} {} {}", r.k, r.q, r.waiting)
    }
}

// The first bytes of a buffer, all of it where there are fewer.
pub fn front(buffer: &mut [u8], length: u64) -> &mut [u8] {
    let size = buffer.len().min(length as usize);
    &mut buffer[..size]
}

const NO_COUNTS: PanelCounts = PanelCounts {
    waiting: 0,
    failed: 0,
    repaired: 0,
};

// What the panel shows, and the audit's answer.
pub fn say_panel(rt: &impl Print, y: Layout, rec: Record, image: &[u8]) -> io::Result<()> {
    let shown = pool_count::panel(y, rec, image);
    let refusal = answer_number(shown);
    let counts = shown.unwrap_or(NO_COUNTS);
    println!(rt;
        "panel {refusal} {} {} {}",
        counts.waiting, counts.failed, counts.repaired
    )?;
    println!(rt; "audit {}", answer_number(pool_count::audit(y, rec, image)))
}

// What a refused repair leaves.
pub fn unmended(rec: Record) -> Mended {
    Mended { count: 0, rec }
}

// A pool's layout with its numbers, and the record that the last call returned.
#[derive(Clone, Copy)]
pub struct Run {
    pub y: Layout,
    pub numbers: Numbers,
    pub rec: Record,
}

impl Run {
    // With an empty failure list.
    pub fn new(y: Layout) -> Self {
        Run {
            y,
            numbers: Measured::from(layout::measure(y)).numbers,
            rec: no_failures(),
        }
    }

    pub fn with(self, rec: Record) -> Self {
        Run { rec, ..self }
    }

    // T·C·(N+K), the contents of the whole pool.
    pub fn contents(self) -> u64 {
        let a_group = self.y.n.wrapping_add(self.y.k);
        self.numbers.groups.wrapping_mul(a_group)
    }

    // Entry i of the record.
    pub fn entry(self, i: u64) -> u64 {
        self.rec.failed.get(i as usize).copied().unwrap_or(0)
    }

    // ---- the lines between the events

    pub fn head(self, rt: &impl Print, i: u64, image: &[u8]) -> io::Result<()> {
        let y = self.y;
        print!(rt; "run {i} {} {} {} {} {}", y.n, y.k, y.p, y.u, y.t)?;
        println!(rt; " {} {}", y.cookie, y.edition)?;
        self.pool(rt, image)
    }

    pub fn pool(self, rt: &impl Print, image: &[u8]) -> io::Result<()> {
        println!(rt; "pool {} {}", checksum(image), Counted(self.rec))
    }

    // ---- the calls

    pub fn write(
        self,
        rt: &impl Print,
        image: &mut [u8],
        offset: u64,
        bytes: &[u8],
    ) -> io::Result<()> {
        let written = pool_write::write(self.y, self.rec, image, offset, bytes);
        println!(rt; "write {offset} {} {}", bytes.len(), answer_number(written))?;
        self.pool(rt, image)
    }

    pub fn read(
        self,
        rt: &impl Print,
        image: &[u8],
        offset: u64,
        out: &mut [u8],
    ) -> io::Result<()> {
        out.fill(0xaa);
        let refusal = answer_number(pool_read::read(self.y, self.rec, image, offset, out));
        println!(rt; "read {offset} {} {refusal} {}", out.len(), checksum(out))?;
        self.pool(rt, image)
    }

    pub fn fail(self, rt: &impl Print, image: &[u8], target: u64) -> io::Result<Self> {
        let failed = pool_fail::fail(self.y, self.rec, image, target);
        println!(rt; "fail {target} {}", answer_number(failed))?;
        let after = self.with(failed.unwrap_or(self.rec));
        after.pool(rt, image)?;
        Ok(after)
    }

    pub fn repair(self, rt: &impl Print, image: &mut [u8]) -> io::Result<Self> {
        let repaired = pool_repair::repair(self.y, self.rec, image);
        let Mended { count, rec } = repaired.unwrap_or(unmended(self.rec));
        println!(rt; "repair {} {count}", answer_number(repaired))?;
        let after = self.with(rec);
        after.pool(rt, image)?;
        Ok(after)
    }

    pub fn swap(self, rt: &impl Print, image: &mut [u8], target: u64) -> io::Result<Self> {
        let swapped = pool_swap::swap(self.y, self.rec, image, target);
        println!(rt; "swap {target} {}", answer_number(swapped))?;
        let after = self.with(swapped.unwrap_or(self.rec));
        after.pool(rt, image)?;
        Ok(after)
    }

    // A look, and its shown part: the refusal, its length and its checksum.
    pub fn look(
        self,
        rt: &impl Print,
        image: &[u8],
        group: u64,
        content: u64,
        scratch: &mut [u8],
    ) -> io::Result<()> {
        scratch.fill(0xaa);
        let prepared = pool_look::prepare(self.y, self.rec, image, group, content, scratch);
        print!(rt;
            "look {group} {content} {} {}",
            scratch.len(),
            answer_number(prepared)
        )?;
        print!(rt; " {}", checksum(scratch))?;
        let mut answer = 0;
        let shown = pool_look::show(
            self.y,
            self.rec,
            image,
            scratch,
            group,
            content,
            &mut answer,
        );
        println!(rt; " {answer} {} {}", shown.len(), checksum(shown))?;
        self.pool(rt, image)
    }

    pub fn panel(self, rt: &impl Print, image: &[u8]) -> io::Result<()> {
        say_panel(rt, self.y, self.rec, image)?;
        self.pool(rt, image)
    }

    // ---- others

    // The run goes on with another count.
    pub fn count(self, rt: &impl Print, image: &[u8], waiting: u64) -> io::Result<Self> {
        println!(rt; "count {waiting}")?;
        let after = self.with(Record {
            waiting,
            ..self.rec
        });
        after.pool(rt, image)?;
        Ok(after)
    }

    // Any bytes on the whole of one target.
    pub fn scribble(self, image: &mut [u8], target: u64, seed: &mut u64) {
        let size = self.numbers.frames.wrapping_mul(self.y.u) as usize;
        let from = target.wrapping_mul(size as u64) as usize;
        if from <= image.len() && size <= image.len() - from {
            trial::fill(seed, &mut image[from..from + size]);
        }
    }
}
