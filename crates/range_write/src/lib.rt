// A range of the file written, one group after another, each with its own plan. Inner: the calls are `pool_write::write` and
// `pool_list::write_list`.
#![tactic(auto)]

ghost use Rattle.std.specs.Prelude.{◌≡◌, ◌+◌, ◌≤◌, length};
ghost use Rattle.numbers.specs.Layouts.{capacity};
ghost use Rattle.pool.specs.Asked.{Sound};
ghost use Rattle.pool.specs.Writing.{written_image};

use homes::Record;
use numbers::Layout;

// Writes the bytes to the groups that they fall into, which are those from the first byte's on that
// begin before the end.
pub fn write_range(y: Layout, r: Record, image: &mut [u8], offset: u64, bytes: &[u8])
    requires { Sound y r (length image.old) × (offset + length bytes.now ≤ capacity y) }
    ensures { image.new ≡ written_image y r image.old offset bytes.now }
{
    if bytes.len() == 0 {
        return;
    }
    let s = numbers::shape_of(y);
    let span = y.n * y.u;
    let end = offset + bytes.len() as u64;
    let first = offset / span;
    let last = end.div_ceil(span);
    let mut survey = survey::begin(y, s, first);
    for g in first..last {
        survey = survey::next(survey, y, s, r, g);
        groups::write_group(
            survey.plan,
            image,
            bytes,
            (span * g) as usize,
            offset as usize,
        );
    }
}
