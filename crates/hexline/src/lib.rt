// The hex line of a frame.
#![tactic(auto)]

ghost use Rattle.std.specs.Prelude.{◌≡◌};
ghost use Rattle.lists.specs.Numbered.{answer_number};
ghost use Rattle.hexline.specs.HexLine.{hex_refusal, HexLine};

use lists::Refusal;
use numbers::Layout;
use place::Place;

fn check_line(y: Layout, image: usize, target: u64, frame: u64, line: usize) -> Result<(), Refusal>
    ensures { answer_number result ≡ hex_refusal y image target frame line }
{
    numbers::check(y)?;
    let m = numbers::numbers_of(y);
    if image as u64 != m.image {
        return Err(Refusal::ImageLength);
    }
    if y.p <= target {
        return Err(Refusal::Outside);
    }
    if m.frames <= frame {
        return Err(Refusal::Outside);
    }
    if line as u64 != 11 + 2 * y.u {
        return Err(Refusal::BufferLength);
    }
    Ok(())
}

// Writes the line of a frame of a target, or zeros over the whole of the line where it is refused. The image is only read.
pub fn hex_line(
    y: Layout,
    image: &[u8],
    target: u64,
    frame: u64,
    line: &mut [u8],
) -> Result<(), Refusal>
    ensures { HexLine y image.now target frame line.old (answer_number result) line.new }
{
    let checked = check_line(y, image.len(), target, frame, line.len());
    if let Err(refusal) = checked {
        lists::clear(line);
        return Err(refusal);
    }
    let begins = place::spot_of(y, numbers::shape_of(y), Place { frame, target }, 0);
    hex_text::write_line(image, begins as usize, y.u as usize, target, frame, line, 0);
    Ok(())
}
