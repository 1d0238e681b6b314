// The public calls on one group: encode and rebuild. Each takes any numbers, tests everything itself, and answers why it is refused; a refused
// call changes no byte.
#![tactic(auto)]

ghost use Rattle.std.specs.Prelude.{◌≡◌, ◌↔◌, IsTrue, All, ℕ, ◌<◌, ◌≤◌, length, get_or};
ghost use Rattle.lists.specs.Count.{count};
ghost use Rattle.lists.specs.Numbered.{answer_number};
ghost use Rattle.parity.specs.Matrix.{flag};
ghost use Rattle.group.specs.Encode.{encode_refusal, Encodes};
ghost use Rattle.group.specs.Rebuild.{named, rebuild_refusal, Rebuilding};

use lists::Refusal;
use numbers::Layout;

fn check_encode(y: Layout, len: usize) -> Result<(), Refusal>
    ensures { answer_number result ≡ encode_refusal y len }
{
    numbers::check(y)?;
    if len as u64 != (y.n + y.k) * y.u {
        return Err(Refusal::BufferLength);
    }
    Ok(())
}

// Sets the K parity units of a buffer of (N+K)·U bytes from its N data units.
pub fn encode(y: Layout, buf: &mut [u8]) -> Result<(), Refusal>
    ensures { Encodes y buf.old (answer_number result) buf.new }
{
    check_encode(y, buf.len())?;
    coding::encode(buf, y.n as usize, y.k as usize, y.u as usize);
    Ok(())
}

fn are_below(missing: &[u64], m: u64) -> bool
    ensures { IsTrue result ↔ All (λ unit. unit < m) missing.now }
{
    missing.iter().all(|&unit| unit < m)
}

// The units named in a list, as flags. One that is named twice counts once.
fn flags(missing: &[u64]) -> [bool; 19]
    requires { (i : ℕ) → i < length missing.now → get_or missing.now i 0 < 19 }
    ensures { flag result ≡ named missing.now }
{
    let mut named = [false; 19];
    for &unit in missing {
        named[unit as usize] = true;
    }
    named
}

// How many of the first m flags are set.
fn flagged(flags: [bool; 19], m: u64) -> u64
    requires { m ≤ 19 }
    ensures { result ≡ count (flag flags) m }
{
    let mut c: u64 = 0;
    for &set in &flags[..m as usize] {
        c += u64::from(set);
    }
    c
}

fn check_rebuild(y: Layout, missing: &[u64], len: usize) -> Result<(), Refusal>
    ensures { answer_number result ≡ rebuild_refusal y missing.now len }
{
    numbers::check(y)?;
    let m = y.n + y.k;
    if !are_below(missing, m) {
        return Err(Refusal::Outside);
    }
    if len as u64 != m * y.u {
        return Err(Refusal::BufferLength);
    }
    if y.k < flagged(flags(missing), m) {
        return Err(Refusal::TooManyMissing);
    }
    Ok(())
}

// Fills the units named in `missing` of a buffer of (N+K)·U bytes from its N lowest units that are not named.
pub fn rebuild(y: Layout, missing: &[u64], buf: &mut [u8]) -> Result<(), Refusal>
    ensures { Rebuilding y missing.now buf.old (answer_number result) buf.new }
{
    check_rebuild(y, missing, buf.len())?;
    coding::rebuild(
        buf,
        y.n as usize,
        y.k as usize,
        y.u as usize,
        flags(missing),
    );
    Ok(())
}
