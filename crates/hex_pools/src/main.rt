// Whole pools in hex lines, and refused lines of every number.
#![tactic(auto)]

ghost use Rattle.std.specs.Prelude.{◌≤◌};

use hexline::hex_line;
use numbers::Layout;
use trial::{draw, newline, number, text};

const ONES: u64 = 18446744073709551615;

// A line buffer before a call, to see that all of it is written.
fn blur(line: &mut [u8]) {
    line.fill(170);
}

fn print_pool(rt: &impl Print, y: Layout) {
    text(rt, b"pool");
    number(rt, y.n);
    number(rt, y.k);
    number(rt, y.p);
    number(rt, y.u);
    number(rt, y.t);
    number(rt, y.cookie);
    number(rt, y.edition);
    newline(rt);
}

// The length of a line, 0 where the unit is too long.
fn line_length(u: u64) -> usize
    ensures { result ≤ 8203 }
{
    if 4096 < u {
        return 0;
    }
    (11 + 2 * u) as usize
}

fn show_line(rt: &impl Print, y: Layout, image: &[u8], target: u64, frame: u64, line: &mut [u8]) {
    blur(line);
    let _ = hex_line(y, image, target, frame, line);
    text(rt, line);
}

fn show_target(
    rt: &impl Print,
    y: Layout,
    image: &[u8],
    target: u64,
    frames: u64,
    line: &mut [u8],
) {
    for frame in 0..frames {
        show_line(rt, y, image, target, frame, line);
    }
}

fn show_targets(rt: &impl Print, y: Layout, image: &[u8], frames: u64, line: &mut [u8]) {
    for target in 0..y.p {
        show_target(rt, y, image, target, frames, line);
    }
}

fn show_pool(rt: &impl Print, y: Layout, image: &[u8], frames: u64) {
    let mut space = [0u8; 8203];
    let len = line_length(y.u);
    print_pool(rt, y);
    show_targets(rt, y, image, frames, &mut space[..len]);
}

fn first_pool(rt: &impl Print) {
    let y = Layout {
        n: 1,
        k: 1,
        p: 3,
        u: 2,
        t: 1,
        cookie: 0,
        edition: 1,
    };
    show_pool(rt, y, b"\x00\x00ABAB", 1);
}

fn drawn_layout(seed: &mut u64) -> Layout {
    let n = 1 + draw(seed, 6);
    let k = draw(seed, 4);
    let p = n + 2 * k + draw(seed, 6);
    let u = 1 + draw(seed, 12);
    let t = 1 + draw(seed, 2);
    let cookie = trial::high(seed);
    let edition = 1 + draw(seed, 2);
    Layout {
        n,
        k,
        p,
        u,
        t,
        cookie,
        edition,
    }
}

fn drawn_pool(rt: &impl Print, seed: &mut u64, space: &mut [u8]) {
    let y = drawn_layout(seed);
    let numbers = layout::measure(y).unwrap_or_default();
    let size = numbers.image as usize;
    if space.len() < size {
        return;
    }
    trial::fill(seed, &mut space[..size]);
    show_pool(rt, y, &space[..size], numbers.frames);
}

fn drawn_pools(rt: &impl Print, seed: &mut u64, space: &mut [u8]) {
    for _ in 0..24 {
        drawn_pool(rt, seed, space);
    }
}

fn show_ten(rt: &impl Print, y: Layout, image: &[u8], line: &mut [u8]) {
    let frames: [u64; 10] = [0, 15, 16, 255, 256, 4095, 4096, 48879, 65534, 65535];
    for frame in frames {
        show_line(rt, y, image, 0, frame, line);
    }
}

// A pool of 65,536 frames of one byte, at ten of them.
fn long_pool(rt: &impl Print, seed: &mut u64, image: &mut [u8]) {
    let y = Layout {
        n: 1,
        k: 0,
        p: 1,
        u: 1,
        t: 65536,
        cookie: 0,
        edition: 1,
    };
    let mut line = [0u8; 13];
    trial::fill(seed, image);
    print_pool(rt, y);
    show_ten(rt, y, image, &mut line);
}

fn sum_line(rt: &impl Print, y: Layout, image: &[u8], target: u64, line: &mut [u8]) {
    blur(line);
    let answer = hex_line(y, image, target, 0, line);
    text(rt, b"sum");
    number(rt, target);
    number(rt, lists::answer_number(answer));
    number(rt, trial::checksum(line));
    newline(rt);
}

fn sum_lines(rt: &impl Print, y: Layout, image: &[u8], line: &mut [u8]) {
    for target in 0..y.p {
        sum_line(rt, y, image, target, line);
    }
}

// A pool of one frame a target, by the checksums of its lines.
fn summed_pool(rt: &impl Print, seed: &mut u64, p: u64, u: u64, image: &mut [u8]) {
    let y = Layout {
        n: 1,
        k: 0,
        p,
        u,
        t: 1,
        cookie: 0,
        edition: 1,
    };
    let mut space = [0u8; 8203];
    let len = line_length(u);
    trial::fill(seed, image);
    print_pool(rt, y);
    sum_lines(rt, y, image, &mut space[..len]);
}

fn print_bytes(rt: &impl Print, bytes: [u8; 20]) {
    text(rt, b" ");
    for byte in bytes {
        let _ = print!(rt; "{byte:02x}");
    }
}

fn tried_line(rt: &impl Print, y: Layout, size: usize, target: u64, frame: u64, len: usize)
    requires fact_1 { size ≤ 8 }
    requires fact_2 { len ≤ 20 }
{
    let image = [0u8, 0, 65, 66, 65, 66, 67, 68];
    let mut buffer = [170u8; 20];
    let answer = hex_line(y, &image[..size], target, frame, &mut buffer[..len]);
    text(rt, b"line");
    number(rt, y.u);
    number(rt, size as u64);
    number(rt, target);
    number(rt, frame);
    number(rt, len as u64);
    number(rt, lists::answer_number(answer));
    print_bytes(rt, buffer);
    newline(rt);
}

fn three(u: u64, edition: u64) -> Layout {
    Layout {
        n: 1,
        k: 1,
        p: 3,
        u,
        t: 1,
        cookie: 0,
        edition,
    }
}

// Each refusal alone, and several at once.
fn tried_lines(rt: &impl Print) {
    let ones = Layout {
        n: ONES,
        k: ONES,
        p: ONES,
        u: ONES,
        t: ONES,
        cookie: ONES,
        edition: ONES,
    };
    tried_line(rt, three(2, 1), 6, 2, 0, 15);
    tried_line(rt, three(0, 1), 6, 2, 0, 15);
    tried_line(rt, ones, 6, 2, 0, 15);
    tried_line(rt, three(2, 0), 6, 2, 0, 15);
    tried_line(rt, three(2, 3), 6, 2, 0, 15);
    tried_line(rt, three(2, 1), 5, 2, 0, 15);
    tried_line(rt, three(2, 1), 7, 2, 0, 15);
    tried_line(rt, three(2, 1), 0, 2, 0, 15);
    tried_line(rt, three(2, 1), 6, 3, 0, 15);
    tried_line(rt, three(2, 1), 6, ONES, 0, 15);
    tried_line(rt, three(2, 1), 6, 2, 1, 15);
    tried_line(rt, three(2, 1), 6, 2, ONES, 15);
    tried_line(rt, three(2, 1), 6, 2, 0, 14);
    tried_line(rt, three(2, 1), 6, 2, 0, 16);
    tried_line(rt, three(2, 1), 6, 2, 0, 0);
    tried_line(rt, three(0, 1), 5, 3, 1, 14);
    tried_line(rt, three(2, 1), 5, 3, 1, 14);
    tried_line(rt, three(2, 1), 6, 3, 1, 14);
}

// The two pools that are shown by checksums, in the first bytes of a space and in the whole of it.
fn summed_pools(rt: &impl Print, seed: &mut u64, space: &mut [u8]) {
    if space.len() < 1024 {
        return;
    }
    summed_pool(rt, seed, 64, 16, &mut space[..1024]);
    summed_pool(rt, seed, 16, 4096, space);
}

fn main(rt: HostRuntime) {
    let mut seed: u64 = 50260606;
    let mut space = [0u8; 65536];
    first_pool(&rt);
    drawn_pools(&rt, &mut seed, &mut space);
    long_pool(&rt, &mut seed, &mut space);
    summed_pools(&rt, &mut seed, &mut space);
    tried_lines(&rt);
}
