// The public call that reads bytes of the file.
#![tactic(auto)]

ghost use Rattle.std.specs.Prelude.{◌≡◌, ◌+◌, ◌≤◌, length};
ghost use Rattle.lists.specs.Numbered.{answer_number};
ghost use Rattle.lists.specs.Tabulate.{tabulate};
ghost use Rattle.numbers.specs.Layouts.{capacity};
ghost use Rattle.pool.specs.Asked.{Sound};
ghost use Rattle.pool.specs.Contents.{file_byte};
ghost use Rattle.pool.specs.Calls.{Reads};

use homes::Record;
use lists::Refusal;
use numbers::Layout;

// One group after another, from the first that the range touches.
fn read_groups(y: Layout, r: Record, image: &[u8], offset: u64, out: &mut [u8])
    requires { Sound y r (length image.now) × (offset + length out.old ≤ capacity y) }
    ensures { out.new ≡ tabulate (length out.old) (λ i. file_byte y r image.now (offset + i)) }
{
    let s = numbers::shape_of(y);
    let span = y.n * y.u;
    let end = offset + out.len() as u64;
    let first = offset / span;
    let last = end.div_ceil(span);
    let mut survey = survey::begin(y, s, first);
    for g in first..last {
        survey = survey::next(survey, y, s, r, g);
        groups::read_group(
            survey.plan,
            image,
            (g * span) as usize,
            offset as usize,
            out,
        );
    }
}

// Fills out with the bytes of the file from offset on; with zeros where refused.
pub fn read(y: Layout, r: Record, image: &[u8], offset: u64, out: &mut [u8]) -> Result<(), Refusal>
    ensures { Reads y r image.now offset (length out.old) (answer_number result) out.new }
{
    let checked = checks::check_range(y, r, image.len(), offset, out.len());
    if checked.is_err() {
        lists::clear(out);
        return checked;
    }
    read_groups(y, r, image, offset, out);
    Ok(())
}
