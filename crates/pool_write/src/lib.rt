// Writing to the file that a pool holds: the tests, then one range.
#![tactic(auto)]

ghost use Rattle.lists.specs.Numbered.{answer_number};
ghost use Rattle.pool.specs.Calls.{Writes};

use homes::Record;
use lists::Refusal;
use numbers::Layout;

// "write", at file offset `offset`.
pub fn write(
    y: Layout,
    r: Record,
    image: &mut [u8],
    offset: u64,
    bytes: &[u8],
) -> Result<(), Refusal>
    ensures { Writes y r image.old offset bytes.now (answer_number result) image.new }
{
    checks::check_range(y, r, image.len(), offset, bytes.len())?;
    range_write::write_range(y, r, image, offset, bytes);
    Ok(())
}
