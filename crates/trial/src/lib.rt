// What the programs that are compared with `oracle/` share: the seeded draws, and how they print.
#![tactic(auto)]

ghost use Rattle.std.specs.Prelude.{◌<◌};

use lists::Refusal;
use std::fmt;

// ---- draws

// A number below n, from the seed's next state.
pub fn draw(seed: &mut u64, n: u64) -> u64
    requires { 0 < n }
    ensures { result < n }
{
    *seed = (1103515245 * (*seed % 2147483648) + 12345) % 2147483648;
    *seed / 65536 % n
}

// A number below 2^30, from two draws.
pub fn wide(seed: &mut u64) -> u64
    ensures { result < 1073741824 }
{
    let high = draw(seed, 32768);
    high * 32768 + draw(seed, 32768)
}

// A number below 2^45, from three draws.
pub fn wider(seed: &mut u64) -> u64
    ensures { result < 35184372088832 }
{
    let high = wide(seed);
    high * 32768 + draw(seed, 32768)
}

// A multiple of 2^19, from three draws.
pub fn high(seed: &mut u64) -> u64 {
    wider(seed) * 524288
}

// A byte for each place of out.
pub fn fill(seed: &mut u64, out: &mut [u8]) {
    for byte in out.iter_mut() {
        *byte = draw(seed, 256) as u8;
    }
}

// ---- what is printed

// Bytes of ASCII, as they stand.
#[derive(Clone, Copy)]
pub struct Ascii<'a>(pub &'a [u8]);

impl fmt::Display for Ascii<'_> {
    fn fmt<W: fmt::Write>(&self, f: &mut fmt::Formatter<W>) -> fmt::Result {
        for byte in self.0 {
            f.write_char(char::from(*byte))?;
        }
        Ok(())
    }
}

// A call's answer in words, by its refusal number.
#[derive(Clone, Copy)]
pub struct Outcome(pub u64);

impl<T: Copy> From<Result<T, Refusal>> for Outcome {
    fn from(answer: Result<T, Refusal>) -> Self {
        Outcome(lists::answer_number(answer))
    }
}

impl fmt::Display for Outcome {
    fn fmt<W: fmt::Write>(&self, f: &mut fmt::Formatter<W>) -> fmt::Result {
        match self.0 {
            0 => f.write_str("done"),
            refusal => write!(f, "refused with {refusal}"),
        }
    }
}

// Whether two images are the same, in words.
pub fn sameness(a: &[u8], b: &[u8]) -> &'static str {
    if a == b {
        "the same image"
    } else {
        "ANOTHER image"
    }
}

// ---- printed piece by piece

// A write that fails is passed over, here and in all that prints by this: what a program says is compared, so nothing is lost unseen.
pub fn text(rt: &impl Print, word: &[u8]) {
    let _ = rt.write_all(word);
}

pub fn decimal(rt: &impl Print, n: u64) {
    let _ = rt.print(n);
}

// A space and a number.
pub fn number(rt: &impl Print, n: u64) {
    let _ = print!(rt; " {n}");
}

pub fn newline(rt: &impl Print) {
    text(rt, b"\n");
}

// A call's answer by its refusal number.
pub fn answer(rt: &impl Print, refusal: u64) {
    let _ = rt.print(Outcome(refusal));
}

pub fn answer_line(rt: &impl Print, refusal: u64) {
    let _ = rt.println(Outcome(refusal));
}

pub fn say_same(rt: &impl Print, a: &[u8], b: &[u8]) {
    let _ = rt.println(sameness(a, b));
}

// ---- runs of bytes

pub fn set_all(bytes: &mut [u8], value: u8) {
    bytes.fill(value);
}

pub fn is_same(a: &[u8], b: &[u8]) -> bool {
    a == b
}

pub fn checksum(bytes: &[u8]) -> u64 {
    bytes.iter().fold(0, |sum: u64, byte| {
        sum.wrapping_mul(31).wrapping_add(wide_byte(*byte) + 1) % 2147483647
    })
}

pub fn wide_byte(x: u8) -> u64
    ensures { result < 256 }
{
    u64::from(x)
}
