// The answers of a replay as text, at a place of a lent buffer.
#![tactic(auto)]

ghost use Rattle.std.specs.Prelude.{◌≡◌, ◌≤◌, ◌+◌, ◌*◌, length};
ghost use Rattle.lists.specs.Span.{Span};
ghost use Rattle.lists.specs.Put.{Put};
ghost use Rattle.hex_text.specs.Runs.{unit_from};
ghost use Rattle.answers.specs.Decimal.{places as places_of, decimal};

// How many decimal digits n has.
fn places(n: u64) -> usize
    ensures { result ≡ places_of n }
{
    match n.checked_ilog10() {
        Some(power) => power as usize + 1,
        None => 1,
    }
}

// Writes n in decimal at place `at`, and answers where the text goes on.
pub fn write_decimal(n: u64, text: &mut [u8], at: usize) -> usize
    requires { at + 20 ≤ length text.old }
    ensures { (result ≡ at + length (decimal n)) × Put at (decimal n) text.old text.new }
{
    let digits = places(n);
    let mut rest = n;
    for left in (0..digits).rev() {
        text[at + left] = 48 + (rest % 10) as u8;
        rest /= 10;
    }
    at + digits
}

// ---- bytes spread to hex

// The bytes that stand from at + size on become two digits each, from `at` on, high before low. The digits of a byte do not reach further than the
// byte stood, so no byte is lost before it is read.
fn spread_bytes(text: &mut [u8], at: usize, size: usize)
    requires { at + 2 * size ≤ length text.old }
    ensures { Span (unit_from text.old (at + size) at) at (at + 2 * size) text.old text.new }
{
    let begins = at + size;
    for i in 0..size {
        let b = text[begins + i];
        let to = at + 2 * i;
        text[to] = hex_text::hex_digit(b / 16 % 16);
        text[to + 1] = hex_text::hex_digit(b % 16);
    }
}

// 64 bytes at once, by a copy: digits that are written beside their bytes are no work for vectors.
fn spread_block(text: &mut [u8], begins: usize, to: usize)
    requires { (begins + 64 ≤ length text.old) × (to + 128 ≤ length text.old) }
    ensures { Span (unit_from text.old begins to) to (to + 128) text.old text.new }
{
    let mut block = [0u8; 64];
    block.copy_from_slice(&text[begins..begins + 64]);
    hex_text::write_unit(&block, 0, 64, text, to);
}

// The same as `spread_bytes`, in blocks as far as they go: the digits of a block end where it ended, or before.
pub fn spread_hex(text: &mut [u8], at: usize, size: usize)
    requires { at + 2 * size ≤ length text.old }
    ensures { Span (unit_from text.old (at + size) at) at (at + 2 * size) text.old text.new }
{
    let blocks = size / 64;
    for block in 0..blocks {
        spread_block(text, at + size + 64 * block, at + 128 * block);
    }
    spread_bytes(text, at + 128 * blocks, size - 64 * blocks);
}
