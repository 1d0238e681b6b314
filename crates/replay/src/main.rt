// A recorded trace from standard input, replayed: each line's answer goes to standard output. What a line means and does is in `replay_line`, where
// lines end in `line_cursor`; here bytes come and go. Like the other programs it is held to nothing but to be safe; what it prints is compared.
#![tactic(auto)]

ghost use Rattle.std.specs.Prelude.{◌≤◌};

use homes::Record;
use lists::Refusal;
use numbers::Layout;
use replay_line::Event;
use std::io::Read;

// The run is over.
#[derive(Clone, Copy)]
struct Ended;

// A number alone, which ends the run.
fn end_with(rt: &impl Print, number: u64) -> Ended {
    let _ = rt.println(number);
    Ended
}

// ---- lines

// What the first line tells, once it is read; the record, and how many bytes the image has.
#[derive(Clone, Copy)]
struct Pool {
    layout: Layout,
    rec: Record,
    size: usize,
}

impl Pool {
    // The answer is laid after those that wait.
    fn play(
        self,
        image: &mut [u8],
        line: &[u8],
        answers: &mut [u8],
        waiting: usize,
    ) -> Result<Event, Refusal> {
        let size = self.size.min(image.len());
        let from = waiting.min(answers.len());
        let rest = &mut answers[from..];
        replay_line::play(self.layout, self.rec, &mut image[..size], line, rest)
    }
}

// The pool of a replay, its image, and the answers that wait to be written.
#[derive(Drop)]
struct Player {
    pool: Option<Pool>,
    image: [u8; 32768],
    answers: [u8; 131120],
    waiting: usize,
}

impl Player {
    // Writes the answers that wait. Where standard output takes them no more, the run ends.
    fn flush(&mut self, rt: &impl Print) -> Result<(), Ended> {
        let waiting = self.waiting.min(self.answers.len());
        self.waiting = 0;
        rt.write_all(&self.answers[..waiting]).map_err(|_| Ended)
    }

    // The first line: the layout, or the number that ends the run.
    fn begin(&mut self, rt: &impl Print, line: &[u8]) -> Result<(), Ended> {
        let first = match replay_line::first(line) {
            Ok(first) => first,
            Err(refusal) => return Err(end_with(rt, refusal.into())),
        };
        self.pool = Some(Pool {
            layout: first.layout,
            rec: Record {
                failed: [0; 3],
                k: 0,
                q: 0,
                waiting: 0,
            },
            size: first.image as usize,
        });
        Ok(())
    }

    // One event. The answers that wait are written where half of the buffer is full: it has room for the longest answer twice.
    fn event(&mut self, rt: &impl Print, pool: Pool, line: &[u8]) -> Result<(), Ended> {
        if 65560 < self.waiting {
            self.flush(rt)?;
        }
        let played = pool.play(&mut self.image, line, &mut self.answers, self.waiting);
        if let Ok(event) = played {
            self.waiting = self.waiting.saturating_add(event.length as usize);
            self.pool = Some(Pool {
                rec: event.rec,
                ..pool
            });
        }
        Ok(())
    }

    // One whole line, or the last one, that the stream ends in the middle of.
    fn play(&mut self, rt: &impl Print, line: &[u8]) -> Result<(), Ended> {
        match self.pool {
            Some(pool) => self.event(rt, pool, line),
            None => self.begin(rt, line),
        }
    }
}

// ---- the stream

// The beginning of a line that crosses pieces: none where nothing is held.
#[derive(Drop)]
struct Line {
    bytes: [u8; 8301],
    held: usize,
    ghost fits: { held ≤ 8301 },
}

#[derive(Drop)]
struct Replay {
    player: Player,
    line: Line,
}

impl Replay {
    // The line that is held.
    fn play_held(&mut self, rt: &impl Print) -> Result<(), Ended> {
        let line = &mut self.line;
        let played = self.player.play(rt, &line.bytes[..line.held]);
        line.held = 0;
        played
    }

    // A line, or the part of it that came. A whole one is played from where it stands; else it is kept.
    fn take(&mut self, rt: &impl Print, part: &[u8]) -> Result<(), Ended> {
        let whole = line_cursor::is_whole(part, 0, part.len());
        if whole && self.line.held == 0 {
            return self.player.play(rt, part);
        }
        let line = &mut self.line;
        line.held = line_cursor::keep(part, 0, part.len(), &mut line.bytes, line.held);
        if whole {
            self.play_held(rt)?;
        }
        Ok(())
    }

    // All lines that end in this piece, and what is left of it.
    fn take_all(&mut self, rt: &impl Print, piece: &[u8]) -> Result<(), Ended> {
        let mut from = 0;
        while from < piece.len() {
            let end = line_cursor::line_end(piece, from);
            self.take(rt, &piece[from..end])?;
            from = end;
        }
        self.player.flush(rt)
    }

    // The end of the stream: a line that it ends in the middle of is malformed, and without a first line there is nothing to run.
    fn finish(&mut self, rt: &impl Print) -> Result<(), Ended> {
        if self.line.held != 0 {
            self.play_held(rt)?;
        }
        self.player.flush(rt)?;
        match self.player.pool {
            Some(_) => Ok(()),
            None => Err(end_with(rt, 13)),
        }
    }

    // Nothing says that a stream ends: its pieces are counted to a number that no run reaches. One that cannot be read is its end.
    fn run<R: Input + Print>(&mut self, rt: &R) -> Result<(), Ended> {
        let mut input = rt.reader();
        let mut piece = [0; 65536];
        for _ in 0..u64::MAX {
            match input.read(&mut piece) {
                Ok(0) | Err(_) => return self.finish(rt),
                Ok(n) => self.take_all(rt, &piece[..n])?,
            }
        }
        Ok(())
    }
}

fn main(rt: HostRuntime) {
    let mut replay = Replay {
        player: Player {
            pool: None,
            image: [0; 32768],
            answers: [0; 131120],
            waiting: 0,
        },
        line: Line {
            bytes: [0; 8301],
            held: 0,
        },
    };
    let _ = replay.run(&rt);
}
