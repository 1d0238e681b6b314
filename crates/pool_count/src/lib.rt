// The public calls of the count of missing units: what the service panel shows, and the audit.
#![tactic(auto)]

ghost use Rattle.lists.specs.Numbered.{answer_number};
ghost use Rattle.pool.specs.Calls.{Audits, Panels};
ghost use Rattle.pool_count.specs.Shown.{panel_of};

use homes::Record;
use lists::Refusal;
use numbers::Layout;

// The units that wait for repair, the targets that have failed, and how many of these are repaired.
#[derive(Clone, Copy)]
pub struct PanelCounts {
    pub waiting: u64,
    pub failed: u64,
    pub repaired: u64,
}

// What the record says, with no walk over the pool. The image is lent for its length.
pub fn panel(y: Layout, r: Record, image: &[u8]) -> Result<PanelCounts, Refusal>
    ensures { let shown = panel_of result in Panels y r image.now (answer_number result) shown.waiting shown.failed shown.repaired }
{
    checks::check_pool(y, r, image.len())?;
    Ok(PanelCounts {
        waiting: r.waiting,
        failed: r.k,
        repaired: r.q,
    })
}

// Refused with 14 where the count in the record is not that of the missing units. The image is lent for its length.
pub fn audit(y: Layout, r: Record, image: &[u8]) -> Result<(), Refusal>
    ensures { Audits y r image.now (answer_number result) }
{
    checks::check_pool(y, r, image.len())?;
    let fresh = tally::missing_units(y, r);
    if r.waiting == fresh {
        Ok(())
    } else {
        Err(Refusal::WrongCount)
    }
}
