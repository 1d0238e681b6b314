// The public calls on a layout: its numbers, a tile's permutation, places, file offsets, image bytes,
// and the walk over one target. Each takes any numbers, tests everything itself, and is refused with
// the lowest number that applies.
#![tactic(auto)]

ghost use Rattle.std.specs.Prelude.{◌≡◌, ◌<◌};
ghost use Rattle.lists.specs.Numbered.{answer_number};
ghost use Rattle.numbers.specs.Layouts.{Valid, all_groups};
ghost use Rattle.place.specs.Bytes.{offset_of};
ghost use Rattle.layout.specs.Measure.{measured_of};
ghost use Rattle.layout.specs.Tiles.{tile_refusal, permuted_of, inverted_of};
ghost use Rattle.layout.specs.Places.{place_refusal, placed_of, unit_refusal, held_of};
ghost use Rattle.layout.specs.Offsets.{offset_refusal, mapped_of, byte_refusal, traced_of};
ghost use Rattle.layout.specs.Walk.{walk_refusal, step_of};
ghost use Rattle.layout.specs.ForC.{measured_by, entries_by, placed_by, held_by, mapped_by, traced_by};

use lists::Refusal;
use numbers::{Layout, Numbers};
use place::{Place, Unit};

// ---- the numbers

pub fn measure(y: Layout) -> Result<Numbers, Refusal>
    ensures { measured_by result ≡ measured_of y }
{
    numbers::check(y)?;
    Ok(numbers::numbers_of(y))
}

// ---- the permutation of a tile

fn check_tile(y: Layout, tile: u64) -> Result<(), Refusal>
    ensures { answer_number result ≡ tile_refusal y tile }
{
    numbers::check(y)?;
    if y.t <= tile {
        return Err(Refusal::Outside);
    }
    Ok(())
}

// Entry t is the target of column t.
pub fn tile_permutation(y: Layout, tile: u64) -> Result<[u8; 64], Refusal>
    ensures { entries_by result ≡ permuted_of y tile }
{
    check_tile(y, tile)?;
    Ok(place::permutation(y, tile))
}

// Entry t is the column of target t.
pub fn tile_inverse(y: Layout, tile: u64) -> Result<[u8; 64], Refusal>
    ensures { entries_by result ≡ inverted_of y tile }
{
    check_tile(y, tile)?;
    Ok(place::inverse(y, tile))
}

// ---- places

// A unit's place, and the image byte at which the unit begins.
#[derive(Clone, Copy)]
pub struct UnitPlace {
    pub place: Place,
    pub begins: u64,
}

fn check_place(y: Layout, group: u64, unit: u64) -> Result<(), Refusal>
    ensures { answer_number result ≡ place_refusal y group unit }
{
    numbers::check(y)?;
    let numbers = numbers::numbers_of(y);
    if numbers.groups <= group {
        return Err(Refusal::Outside);
    }
    if numbers.w <= unit {
        return Err(Refusal::Outside);
    }
    Ok(())
}

pub fn find_place(y: Layout, group: u64, unit: u64) -> Result<UnitPlace, Refusal>
    ensures { placed_by result ≡ placed_of y group unit }
{
    check_place(y, group, unit)?;
    let s = numbers::shape_of(y);
    let place = place::place_of(y, s, group, unit);
    let begins = place::spot_of(y, s, place, 0);
    Ok(UnitPlace { place, begins })
}

fn check_unit(y: Layout, frame: u64, target: u64) -> Result<(), Refusal>
    ensures { answer_number result ≡ unit_refusal y frame target }
{
    numbers::check(y)?;
    let numbers = numbers::numbers_of(y);
    if numbers.frames <= frame {
        return Err(Refusal::Outside);
    }
    if y.p <= target {
        return Err(Refusal::Outside);
    }
    Ok(())
}

// The unit that lies at a place.
pub fn find_unit(y: Layout, frame: u64, target: u64) -> Result<Unit, Refusal>
    ensures { held_by result ≡ held_of y frame target }
{
    check_unit(y, frame, target)?;
    let s = numbers::shape_of(y);
    Ok(place::unit_of(y, s, frame, target))
}

// ---- file offsets

// A file offset's unit and byte in the unit, and its image byte while nothing has failed.
#[derive(Clone, Copy)]
pub struct OffsetSpot {
    pub held: Unit,
    pub byte: u64,
    pub image: u64,
}

fn check_offset(y: Layout, offset: u64) -> Result<(), Refusal>
    ensures { answer_number result ≡ offset_refusal y offset }
{
    numbers::check(y)?;
    let numbers = numbers::numbers_of(y);
    if numbers.capacity <= offset {
        return Err(Refusal::Outside);
    }
    Ok(())
}

pub fn map_offset(y: Layout, offset: u64) -> Result<OffsetSpot, Refusal>
    ensures { mapped_by result ≡ mapped_of y offset }
{
    check_offset(y, offset)?;
    let s = numbers::shape_of(y);
    let n = y.n;
    let u = y.u;
    let data = n * u;
    let group = offset / data;
    let unit = offset % data / u;
    let byte = offset % data % u;
    let at = place::place_of(y, s, group, unit);
    let image = place::spot_of(y, s, at, byte);
    let held = Unit { group, unit };
    Ok(OffsetSpot { held, byte, image })
}

// ---- image bytes

// An image byte's unit and byte in the unit, and its file offset where the unit is a data unit, while nothing has failed.
#[derive(Clone, Copy)]
pub struct ImageSpot {
    pub held: Unit,
    pub byte: u64,
    pub offset: Option<u64>,
}

fn check_byte(y: Layout, x: u64) -> Result<(), Refusal>
    ensures { answer_number result ≡ byte_refusal y x }
{
    numbers::check(y)?;
    let numbers = numbers::numbers_of(y);
    if numbers.image <= x {
        return Err(Refusal::Outside);
    }
    Ok(())
}

// The file offset of a byte of a data unit.
fn offset_of(y: Layout, held: Unit, byte: u64) -> u64
    requires { Valid y × (held.group < all_groups y) × (held.unit < y.n) × (byte < y.u) }
    ensures { result ≡ offset_of y held.group held.unit byte }
{
    let units = y.n;
    let bytes = y.u;
    let group = held.group;
    let unit = held.unit;
    units * bytes * group + (bytes * unit + byte)
}

// The way back from the image: `map_offset` of a data byte's answered offset answers the byte again.
pub fn map_byte(y: Layout, x: u64) -> Result<ImageSpot, Refusal>
    ensures { traced_by result ≡ traced_of y x }
{
    check_byte(y, x)?;
    let s = numbers::shape_of(y);
    let l = s.l;
    let t = y.t;
    let u = y.u;
    let drive = l * t * u;
    let target = x / drive;
    let frame = x % drive / u;
    let byte = x % drive % u;
    let held = place::unit_of(y, s, frame, target);
    let unit = held.unit;
    let data = y.n;
    let is_data = unit < data;
    let offset = if is_data {
        Some(offset_of(y, held, byte))
    } else {
        None
    };
    Ok(ImageSpot { held, byte, offset })
}

// ---- the walk over one target

#[repr(C)]
#[derive(Clone, Copy)]
pub struct Cursor {
    pub target: u64,
    pub frame: u64,
}

// The unit at the cursor with the next cursor; or the cursor unchanged.
#[derive(Clone, Copy)]
pub enum Step {
    At(Unit, Cursor),
    Done(Cursor),
    Refused(u64, Cursor),
}

fn check_walk(y: Layout, at: Cursor) -> Result<(), Refusal>
    ensures { answer_number result ≡ walk_refusal y at }
{
    numbers::check(y)?;
    let numbers = numbers::numbers_of(y);
    if y.p <= at.target {
        return Err(Refusal::Outside);
    }
    if numbers.frames < at.frame {
        return Err(Refusal::Outside);
    }
    Ok(())
}

impl Cursor {
    pub fn step(self, y: Layout) -> Step
        ensures { result ≡ step_of y self }
    {
        match check_walk(y, self) {
            Ok(()) => {}
            Err(refusal) => return Step::Refused(refusal.into(), self),
        }
        let numbers = numbers::numbers_of(y);
        let frames = numbers.frames;
        let target = self.target;
        let frame = self.frame;
        if frames <= frame {
            return Step::Done(self);
        }
        let s = numbers::shape_of(y);
        let unit = place::unit_of(y, s, frame, target);
        let next = frame + 1;
        Step::At(
            unit,
            Cursor {
                target,
                frame: next,
            },
        )
    }
}

// ---- the answers as C has them: one struct, with the refusal's number, and zeros where refused

#[repr(C)]
#[derive(Clone, Copy)]
pub struct Measured {
    pub refusal: u64,
    pub numbers: Numbers,
}

impl From<Result<Numbers, Refusal>> for Measured {
    ghost from_gives = { λ answer made. made ≡ measured_by answer };

    fn from(answer: Result<Numbers, Refusal>) -> Measured {
        match answer {
            Ok(numbers) => Measured {
                refusal: 0,
                numbers,
            },
            Err(refusal) => Measured {
                refusal: refusal.into(),
                numbers: Numbers::default(),
            },
        }
    }
}

#[repr(C)]
#[derive(Clone, Copy)]
pub struct Entries {
    pub refusal: u64,
    pub entries: [u8; 64],
}

impl From<Result<[u8; 64], Refusal>> for Entries {
    ghost from_gives = { λ answer made. made ≡ entries_by answer };

    fn from(answer: Result<[u8; 64], Refusal>) -> Entries {
        match answer {
            Ok(entries) => Entries {
                refusal: 0,
                entries,
            },
            Err(refusal) => Entries {
                refusal: refusal.into(),
                entries: [0; 64],
            },
        }
    }
}

#[repr(C)]
#[derive(Clone, Copy)]
pub struct Placed {
    pub refusal: u64,
    pub frame: u64,
    pub target: u64,
    pub begins: u64,
}

impl From<Result<UnitPlace, Refusal>> for Placed {
    ghost from_gives = { λ answer made. made ≡ placed_by answer };

    fn from(answer: Result<UnitPlace, Refusal>) -> Placed {
        match answer {
            Ok(found) => Placed {
                refusal: 0,
                frame: found.place.frame,
                target: found.place.target,
                begins: found.begins,
            },
            Err(refusal) => Placed {
                refusal: refusal.into(),
                frame: 0,
                target: 0,
                begins: 0,
            },
        }
    }
}

#[repr(C)]
#[derive(Clone, Copy)]
pub struct Held {
    pub refusal: u64,
    pub group: u64,
    pub unit: u64,
}

impl From<Result<Unit, Refusal>> for Held {
    ghost from_gives = { λ answer made. made ≡ held_by answer };

    fn from(answer: Result<Unit, Refusal>) -> Held {
        match answer {
            Ok(held) => Held {
                refusal: 0,
                group: held.group,
                unit: held.unit,
            },
            Err(refusal) => Held {
                refusal: refusal.into(),
                group: 0,
                unit: 0,
            },
        }
    }
}

#[repr(C)]
#[derive(Clone, Copy)]
pub struct Mapped {
    pub refusal: u64,
    pub group: u64,
    pub unit: u64,
    pub byte: u64,
    pub image: u64,
}

impl From<Result<OffsetSpot, Refusal>> for Mapped {
    ghost from_gives = { λ answer made. made ≡ mapped_by answer };

    fn from(answer: Result<OffsetSpot, Refusal>) -> Mapped {
        match answer {
            Ok(found) => Mapped {
                refusal: 0,
                group: found.held.group,
                unit: found.held.unit,
                byte: found.byte,
                image: found.image,
            },
            Err(refusal) => Mapped {
                refusal: refusal.into(),
                group: 0,
                unit: 0,
                byte: 0,
                image: 0,
            },
        }
    }
}

#[repr(C)]
#[derive(Clone, Copy)]
pub struct Traced {
    pub refusal: u64,
    pub group: u64,
    pub unit: u64,
    pub byte: u64,
    pub is_data: bool,
    pub offset: u64,
}

impl From<Result<ImageSpot, Refusal>> for Traced {
    ghost from_gives = { λ answer made. made ≡ traced_by answer };

    fn from(answer: Result<ImageSpot, Refusal>) -> Traced {
        match answer {
            Ok(found) => Traced {
                refusal: 0,
                group: found.held.group,
                unit: found.held.unit,
                byte: found.byte,
                is_data: found.offset.is_some(),
                offset: found.offset.unwrap_or(0),
            },
            Err(refusal) => Traced {
                refusal: refusal.into(),
                group: 0,
                unit: 0,
                byte: 0,
                is_data: false,
                offset: 0,
            },
        }
    }
}
