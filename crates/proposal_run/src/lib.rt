// An accepted plan is run: entry after entry, in the plan's own order, each content is rebuilt from its entry's sources within the image. Inner.
#![tactic(auto)]

ghost use Rattle.std.specs.Prelude.{◌≡◌, List, ℕ, length};
ghost use Rattle.numbers.specs.Layouts.{image_length};
ghost use Rattle.pool.specs.Asked.{Sound};
ghost use Rattle.survey.specs.Surveyed.{Surveying};
ghost use Rattle.proposal.specs.Plans.{Accepts};
ghost use Rattle.proposal.specs.Running.{planned_image};
ghost use Rattle.proposal_run.specs.Steps.{entry_image};
ghost use Rattle.proposal_run.specs.Turns.{AtEntry, RunsEntry, MayBeContents, LeftOut};

use homes::Record;
use numbers::{Layout, Shape};
use survey::Survey;

// All contents but these sources.
fn left_out(sources: &[u64]) -> [bool; 19]
    requires { MayBeContents sources.now }
    ensures { LeftOut sources.now (length sources.now) result }
{
    let mut missing = [true; 19];
    for &source in sources {
        missing[source as usize] = false;
    }
    missing
}

// One entry: its content is rebuilt from its sources and stored at its home under the whole list. A source is present, and has its home
// under the whole list already: so what is read is found by the same homes. The permutation of the entry before is kept where the tile is the same,
// and the rows where the sources are.
fn run_entry(
    last: Survey,
    y: Layout,
    s: Shape,
    r: Record,
    entry: &[u64],
    image: &mut [u8],
) -> Survey
    requires { RunsEntry y s r entry.now × Surveying y last × (length image.old ≡ image_length y) }
    ensures surveying { Surveying y result }
    ensures stored { (plan : List ℕ) (e : ℕ) → AtEntry y s r plan e entry.now → image.new ≡ entry_image y r plan e image.old }
{
    let g = entry[0];
    let c = entry[1] as usize;
    let tile = g / s.c;
    let to = survey::tile_to(y, last.tile, last.to, tile);
    let homes = survey::new_starts(y, s, r, &to, g);
    let flags = left_out(&entry[2..]);
    let plan = plan::plan_next(last.plan, homes, flags);
    groups::mend_unit(plan, homes, image, c);
    Survey { tile, to, plan }
}

// Runs a plan that is accepted.
pub fn run_entries(y: Layout, r: Record, proposal: &[u64], image: &mut [u8])
    requires { Sound y r (length image.old) × Accepts y r proposal.now }
    ensures { image.new ≡ planned_image y r proposal.now image.old }
{
    let s = numbers::shape_of(y);
    let mut survey = survey::begin(y, s, 0);
    for entry in proposal.chunks_exact(y.n as usize + 2) {
        survey = run_entry(survey, y, s, r, entry, image);
    }
}
