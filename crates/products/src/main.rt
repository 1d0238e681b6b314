// All products and quotients of two bytes, a row to a line, and the 48 coefficients; compared with what `oracle/` prints.
#![tactic(auto)]

ghost use Rattle.std.specs.Prelude.{◌<◌};

use trial::{decimal, newline, number, text};

fn digit(x: u8) -> u8
    requires { x < 16 }
{
    if x < 10 { 48 + x } else { 87 + x }
}

fn print_byte(rt: &impl Print, x: u8) {
    let both = [digit(x / 16), digit(x % 16)];
    text(rt, &both);
}

// The values at x and each byte.
fn print_row<F: Fn(u8, u8) -> u8>(rt: &impl Print, value: &F, x: u8)
    requires { F.IsAlwaysCallable value.now }
{
    let mut line = [0u8; 512];
    for i in 0..256 {
        let v = value(x, i as u8);
        line[2 * i] = digit(v / 16);
        line[2 * i + 1] = digit(v % 16);
    }
    print_byte(rt, x);
    text(rt, b" ");
    text(rt, &line);
    newline(rt);
}

fn print_rows<F: Fn(u8, u8) -> u8>(rt: &impl Print, label: &[u8], value: F)
    requires { F.IsAlwaysCallable value }
{
    for x in 0..=u8::MAX {
        text(rt, label);
        print_row(rt, &value, x);
    }
}

fn print_coefficients(rt: &impl Print, i: usize)
    requires { i < 3 }
{
    text(rt, b"coefficients ");
    decimal(rt, i as u64);
    for j in 0..16 {
        number(rt, u64::from(systems::coef(i, j)));
    }
    newline(rt);
}

fn main(rt: HostRuntime) {
    print_rows(&rt, b"product ", field::mul);
    print_rows(&rt, b"quotient ", |x, i| field::div(i, x));
    for i in 0..3 {
        print_coefficients(&rt, i);
    }
}
