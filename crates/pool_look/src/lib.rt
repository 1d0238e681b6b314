// The two public steps of a look at one content: prepare, then show.
#![tactic(auto)]

ghost use Rattle.std.specs.Prelude.{◌≡◌, length, ◌<◌};
ghost use Rattle.lists.specs.Numbered.{answer_number};
ghost use Rattle.numbers.specs.Layouts.{all_groups};
ghost use Rattle.pool.specs.Asked.{Sound};
ghost use Rattle.pool.specs.Calls.{Prepares, Shows};
ghost use Rattle.survey.specs.Surveyed.{Surveyed};
ghost use Rattle.pool_look.specs.Parts.{shown_of};
ghost use Rattle.pool_look.specs.Shown.{shown_at};

use homes::Record;
use lists::Refusal;
use numbers::Layout;
use plan::Plan;

// The plan of one group.
fn plan_at(y: Layout, r: Record, len: usize, group: u64) -> Plan
    requires { Sound y r len × (group < all_groups y) }
    ensures { Surveyed y r r.q group result }
{
    let s = numbers::shape_of(y);
    let start = survey::begin(y, s, group);
    let here = survey::next(start, y, s, r, group);
    here.plan
}

// Fills the scratch with the rebuilt unit where the content is missing, with zeros where it is
// present or the call is refused.
pub fn prepare(
    y: Layout,
    r: Record,
    image: &[u8],
    group: u64,
    content: u64,
    scratch: &mut [u8],
) -> Result<(), Refusal>
    ensures { Prepares y r image.now (length scratch.old) group content (answer_number result) scratch.new }
{
    let answer = checks::check_look(y, r, image.len(), scratch.len(), group, content);
    lists::clear(scratch);
    answer?;
    let plan = plan_at(y, r, image.len(), group);
    let c = content as usize;
    if plan.missing[c] {
        runs::read_run(plan, image, c, 0, scratch, 0, scratch.len());
    }
    Ok(())
}

// Where the second step finds the unit: in the scratch where it is missing, else in the image.
#[derive(Clone, Copy)]
pub struct Part {
    pub missing: bool,
    pub begins: usize,
    pub length: usize,
}

// What C is handed: the refusal's number, 0 where there is none, and the part; a refused look has an empty one.
#[repr(C)]
#[derive(Clone, Copy)]
pub struct Shown {
    pub refusal: u64,
    pub missing: bool,
    pub begins: usize,
    pub length: usize,
}

impl From<Result<Part, Refusal>> for Shown {
    ghost from_gives = { λ answer shown. shown ≡ shown_of answer };

    fn from(answer: Result<Part, Refusal>) -> Shown {
        match answer {
            Ok(part) => Shown {
                refusal: 0,
                missing: part.missing,
                begins: part.begins,
                length: part.length,
            },
            Err(refusal) => Shown {
                refusal: u64::from(refusal),
                missing: false,
                begins: 0,
                length: 0,
            },
        }
    }
}

// The second step for callers who take no reference back; `image` and `scratch` are their lengths.
pub fn locate(
    y: Layout,
    r: Record,
    image: usize,
    scratch: usize,
    group: u64,
    content: u64,
) -> Result<Part, Refusal>
    ensures { shown_of result ≡ shown_at y r image scratch group content }
{
    checks::check_look(y, r, image, scratch, group, content)?;
    let plan = plan_at(y, r, image, group);
    let c = content as usize;
    let length = plan.u;
    if plan.missing[c] {
        return Ok(Part {
            missing: true,
            begins: 0,
            length,
        });
    }
    Ok(Part {
        missing: false,
        begins: plan.at[c],
        length,
    })
}

// Shows the unit: a part of the image, or the scratch where the content is missing; nothing where
// refused. The refusal number goes into the lent answer, as document 01 has it.
pub fn show<'a>(
    y: Layout,
    r: Record,
    image: &'a [u8],
    scratch: &'a [u8],
    group: u64,
    content: u64,
    answer: &mut u64,
) -> &'a [u8]
    ensures { Shows y r image.now scratch.now group content answer.new result.now }
{
    let found = locate(y, r, image.len(), scratch.len(), group, content);
    let x = Shown::from(found);
    *answer = x.refusal;
    if x.missing {
        return scratch;
    }
    &image[x.begins..x.begins + x.length]
}
