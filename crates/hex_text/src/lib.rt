// Hex digits and hex lines: a line written at a place of a text, and one that stands there tested and read back.
#![tactic(auto)]

ghost use Rattle.std.specs.Prelude.{◌≡◌, true, ◌<◌, ◌≤◌, ◌+◌, ◌*◌, ◌%◌, length};
ghost use Rattle.lists.specs.Tabulate.{tabulate};
ghost use Rattle.lists.specs.Span.{Span};
ghost use Rattle.lists.specs.Put.{Put};
ghost use Rattle.hex_text.specs.Hex.{hex_digit, digits_of};
ghost use Rattle.hex_text.specs.Digit.{digits_at, number_at};
ghost use Rattle.hex_text.specs.Line.{line_right};
ghost use Rattle.hex_text.specs.Runs.{letter_or16, decimal_or, digit_or16, head_of, head_from, head_right, unit_from, digits_right, line_from, bytes_from};
ghost use Rattle.hex_text.specs.Tell.{told_by, pair_at, Pairs};

// The lower-case digit of a number below 16.
pub fn hex_digit(x: u8) -> u8
    requires { x < 16 }
    ensures { result ≡ hex_digit x }
{
    if x < 10 {
        return b'0' + x;
    }
    b'a' - 10 + x
}

// The value of one of the six letters, 16 for anything else, and no Option: so a run of characters is tested on vectors.
// Letters and digits are tested apart: so the compiler makes one test of each run.
fn letter_or_16(c: u8) -> u8
    ensures { result ≡ letter_or16 c }
{
    match c {
        b'a'..=b'f' => c - b'a' + 10,
        _ => 16,
    }
}

// The value of one of the ten digits, `other` for anything else.
fn decimal_or(c: u8, other: u8) -> u8
    ensures { result ≡ decimal_or c other }
{
    match c {
        b'0'..=b'9' => c - b'0',
        _ => other,
    }
}

// The value of a lower-case digit, 16 for anything else.
fn digit_or_16(c: u8) -> u8
    ensures { result ≡ digit_or16 c }
{
    decimal_or(c, letter_or_16(c))
}

// The digit that counts least.
fn last_digit(x: u64) -> u8
    ensures { result ≡ hex_digit (x % 16) }
{
    hex_digit((x % 16) as u8)
}

// The ten characters before a line's bytes: target, space, frame, space. The divisors are literals, so nothing is divided at run time.
fn head(target: u64, frame: u64) -> [u8; 10]
    ensures { result ≡ tabulate 10 (head_of target frame) }
{
    [
        last_digit(target / 0x10),
        last_digit(target),
        b' ',
        last_digit(frame / 0x10_0000),
        last_digit(frame / 0x1_0000),
        last_digit(frame / 0x1000),
        last_digit(frame / 0x100),
        last_digit(frame / 0x10),
        last_digit(frame),
        b' ',
    ]
}

// ---- digits written

// The n digits of x at place `at`, the first counting most. The last is written first.
pub fn write_number(x: u64, n: usize, text: &mut [u8], at: usize)
    requires { at + n ≤ length text.old }
    ensures { Put at (digits_of n x) text.old text.new }
{
    let mut rest = x;
    for j in (0..n).rev() {
        text[at + j] = last_digit(rest);
        rest /= 16;
    }
}

// ---- a line written

// One by one: a short line takes half as long again by a copy of the ten, which waits until they are stored.
fn write_head(target: u64, frame: u64, text: &mut [u8], at: usize)
    requires { at + 10 ≤ length text.old }
    ensures { Span (head_from at target frame) at (at + 10) text.old text.new }
{
    for (i, character) in head(target, frame).iter().enumerate() {
        text[at + i] = *character;
    }
}

// Two digits for each of the u bytes of the image from `begins` on, high before low; `% 16` as in `digit_at`, for bytes it costs nothing.
pub fn write_unit(image: &[u8], begins: usize, u: usize, text: &mut [u8], from: usize)
    requires { (begins + u ≤ length image.now) × (from + 2 * u ≤ length text.old) }
    ensures { Span (unit_from image.now begins from) from (from + 2 * u) text.old text.new }
{
    for o in 0..u {
        let at = from + 2 * o;
        let byte = image[begins + o];
        text[at] = hex_digit(byte / 16 % 16);
        text[at + 1] = hex_digit(byte % 16);
    }
}

// The line of a frame of a target, whose u bytes stand in the image from `begins` on, at place `at` of the text.
pub fn write_line(
    image: &[u8],
    begins: usize,
    u: usize,
    target: u64,
    frame: u64,
    text: &mut [u8],
    at: usize,
)
    requires { (begins + u ≤ length image.now) × (at + (11 + 2 * u) ≤ length text.old) }
    ensures { Span (line_from image.now begins u target frame at) at (at + (11 + 2 * u)) text.old text.new }
{
    write_head(target, frame, text, at);
    write_unit(image, begins, u, text, at + 10);
    text[at + 10 + 2 * u] = b'\n';
}

// ---- digits read

// Whether the n characters from `from` on are digits. The loop has no way out, so that it runs on vectors.
pub fn is_digits(text: &[u8], from: usize, n: usize) -> bool
    requires { from + n ≤ length text.now }
    ensures { result ≡ digits_at text.now from n }
{
    let mut largest: u8 = 0;
    for c in &text[from..from + n] {
        largest = largest.max(digit_or_16(*c));
    }
    largest < 16
}

// The number that the n digits from `from` on tell; what is no digit counts 0.
pub fn number_at(text: &[u8], from: usize, n: usize) -> u64
    requires { (from + n ≤ length text.now) × (n ≤ 16) }
    ensures { result ≡ number_at text.now from n }
{
    let mut number: u64 = 0;
    for c in &text[from..from + n] {
        number = 16 * number + u64::from(digit_or_16(*c) % 16);
    }
    number
}

// ---- bytes that digits tell, where they are known to be digits

// The two characters at place `at` as one number, the first counting least: so the compiler loads them at once.
fn pair_of(text: &[u8], at: usize) -> u16
    requires { at + 1 < length text.now }
    ensures { result ≡ pair_at text.now at }
{
    u16::from_le_bytes([text[at], text[at + 1]])
}

// The byte that a pair of digits tells, without a test: a digit counts its low half, a letter (64 and more) 9 more than that.
fn told_by(pair: u16) -> u8
    ensures { result ≡ told_by pair }
{
    let a = pair % 256;
    let b = pair / 256;
    (((a % 16 + a / 64 * 9) * 16 + (b % 16 + b / 64 * 9)) % 256) as u8
}

fn pairs_at(text: &[u8], from: usize) -> [u16; 32]
    requires { from + 64 ≤ length text.now }
    ensures { Pairs text.now from result }
{
    let mut pairs = [0u16; 32];
    for (o, pair) in pairs.iter_mut().enumerate() {
        *pair = pair_of(text, from + 2 * o);
    }
    pairs
}

// 32 bytes, by a copy in pairs: characters taken one by one from every second place are no work for the vectors of the oldest processors.
fn tell_block(text: &[u8], from: usize, image: &mut [u8], begins: usize)
    requires { (from + 64 ≤ length text.now) × (begins + 32 ≤ length image.old) × (digits_at text.now from 64 ≡ true) }
    ensures { Span (bytes_from text.now from begins) begins (begins + 32) image.old image.new }
{
    for (o, pair) in pairs_at(text, from).iter().enumerate() {
        image[begins + o] = told_by(*pair);
    }
}

fn tell_rest(text: &[u8], from: usize, image: &mut [u8], begins: usize, u: usize)
    requires { (from + 2 * u ≤ length text.now) × (begins + u ≤ length image.old) × (digits_at text.now from (2 * u) ≡ true) }
    ensures { Span (bytes_from text.now from begins) begins (begins + u) image.old image.new }
{
    for o in 0..u {
        image[begins + o] = told_by(pair_of(text, from + 2 * o));
    }
}

// The bytes that the 2u digits from `from` on tell go to the image from `begins` on.
pub fn tell_bytes(text: &[u8], from: usize, image: &mut [u8], begins: usize, u: usize)
    requires { (from + 2 * u ≤ length text.now) × (begins + u ≤ length image.old) × (digits_at text.now from (2 * u) ≡ true) }
    ensures { Span (bytes_from text.now from begins) begins (begins + u) image.old image.new }
{
    for block in 0..u / 32 {
        let told = 32 * block;
        tell_block(text, from + 2 * told, image, begins + told);
    }
    let told = 32 * (u / 32);
    tell_rest(text, from + 2 * told, image, begins + told, u - told);
}

// ---- a line read

fn head_right(text: &[u8], at: usize, target: u64, frame: u64) -> bool
    requires { at + 10 ≤ length text.now }
    ensures { result ≡ head_right text.now at target frame }
{
    text[at..at + 10] == head(target, frame)[..]
}

// Whether the 2u characters from `from` on are digits; what they tell goes to the u bytes of the image from `begins` on. The loop has no way
// out, so that it runs on vectors: the largest of all values says in the end whether all were digits. What is no digit is stored as 0.
fn read_unit(text: &[u8], from: usize, image: &mut [u8], begins: usize, u: usize) -> bool
    requires { (from + 2 * u ≤ length text.now) × (begins + u ≤ length image.old) }
    ensures { (result ≡ digits_right text.now from u) × Span (bytes_from text.now from begins) begins (begins + u) image.old image.new }
{
    let mut worst: u8 = 0;
    for o in 0..u {
        let at = from + 2 * o;
        let high = digit_or_16(text[at]);
        let low = digit_or_16(text[at + 1]);
        worst = worst.max(high).max(low);
        image[begins + o] = high % 16 * 16 + low % 16;
    }
    worst < 16
}

// Whether the line of a frame of a target stands at place `at` of the text; the bytes that its digits tell go to the image from `begins` on.
pub fn read_line(
    text: &[u8],
    at: usize,
    target: u64,
    frame: u64,
    image: &mut [u8],
    begins: usize,
    u: usize,
) -> bool
    requires { (at + (11 + 2 * u) ≤ length text.now) × (begins + u ≤ length image.old) }
    ensures { (result ≡ line_right text.now at target frame u) × Span (bytes_from text.now (at + 10) begins) begins (begins + u) image.old image.new }
{
    let digits = read_unit(text, at + 10, image, begins, u);
    let ended = text[at + 10 + 2 * u] == b'\n';
    ended && head_right(text, at, target, frame) && digits
}
