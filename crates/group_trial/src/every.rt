// Every list of K units of every small group, rebuilt in a group of bytes that disagree, with one checksum for each N and K.
ghost use Rattle.std.specs.Prelude.{length, ◌*◌, ◌<◌, ◌≤◌};
ghost use Rattle.group_trial.specs.Bounds.{Bounded};

use crate::drawn;
use crate::drawn::Group;
use trial::{newline, number, text};

fn next_sum(sum: u64, byte: u8) -> u64
    requires { sum < 2147483647 }
    ensures { result < 2147483647 }
{
    (sum * 31 + u64::from(byte) + 1) % 2147483647
}

// How many lists of k units there are.
fn lists_of(m: u64, k: u64) -> u64
    requires { m ≤ 19 }
    ensures { result ≤ 6859 }
{
    match k {
        1 => m,
        2 => m * m,
        _ => m * m * m,
    }
}

fn pattern(x: u64, i: u64) -> u8
    requires { (x < 6859) × (i < 19) }
{
    (((x + 1) * (i + 3) * 29 + x) % 251) as u8
}

// Fills the bytes of the group that is number x.
fn lay(bytes: &mut [u8], x: u64)
    requires { (x < 6859) × (length bytes.old ≤ 19) }
{
    for (i, byte) in bytes.iter_mut().enumerate() {
        *byte = pattern(x, i as u64);
    }
}

// One checksum on over the bytes.
fn sum_over(start: u64, bytes: &[u8]) -> u64
    requires { start < 2147483647 }
    ensures { result < 2147483647 }
{
    let mut sum = start;
    for &byte in bytes {
        sum = next_sum(sum, byte);
    }
    sum
}

// Rebuilds group number x, and goes on with the checksum.
fn one(buffer: &mut [u8], g: Group, x: u64, sum: u64) -> u64
    requires { Bounded g × (x < 6859) × (sum < 2147483647) }
    ensures { result < 2147483647 }
{
    let m = g.n + g.k;
    let list = [x % m, x / m % m, x / m / m];
    let count = g.k as usize;
    let len = m as usize;
    if buffer.len() < len {
        return sum;
    }
    lay(&mut buffer[..len], x);
    let y = drawn::layout_of(g);
    let answer = group::rebuild(y, &list[..count], &mut buffer[..len]);
    let next = next_sum(sum, (lists::answer_number(answer) % 256) as u8);
    sum_over(next, &buffer[..len])
}

fn size(rt: &impl Print, buffer: &mut [u8], g: Group)
    requires { Bounded g }
{
    let total = lists_of(g.n + g.k, g.k);
    let mut sum: u64 = 0;
    for x in 0..total {
        sum = one(buffer, g, x, sum);
    }
    text(rt, b"every");
    number(rt, g.n);
    number(rt, g.k);
    number(rt, total);
    number(rt, sum);
    newline(rt);
}

pub fn sizes(rt: &impl Print, buffer: &mut [u8]) {
    for n in 1..17 {
        size(rt, buffer, Group { n, k: 1, u: 1 });
        size(rt, buffer, Group { n, k: 2, u: 1 });
        size(rt, buffer, Group { n, k: 3, u: 1 });
    }
}
