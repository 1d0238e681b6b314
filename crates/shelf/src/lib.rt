// A catalogue of eight slots by value, for callers in Rattle: each call of the crate `catalogue` with plain parameters.
#![tactic(auto)]

ghost use Rattle.std.specs.Prelude.{◌≡◌};
ghost use Rattle.entries.specs.Catalogue.{insert_of, inserted_list, delete_of, deleted_list, listing_of, listed_out};
ghost use Rattle.entries.specs.Answered.{found_of};
ghost use Rattle.entries.specs.Promise.{Lookup};
ghost use Rattle.shelf.specs.Shelf.{shelf_of, sheet_of};

use entries::{Changed, Entry, Key, Page, Wide};
use lists::Refusal;

// The slots after a change, and its answer: a refused one hands the slots back as they were, and the count that it was given. The answer stays a
// number beside them, as the theorems of the eight slots speak of it.
#[repr(C)]
#[derive(Clone, Copy)]
pub struct Shelf {
    pub slots: [Entry; 8],
    pub refusal: u64,
    pub count: usize,
}

fn bound(slots: [Entry; 8], c: Changed) -> Shelf
    ensures { result ≡ shelf_of slots c }
{
    Shelf {
        slots,
        refusal: c.refusal,
        count: c.count,
    }
}

// The output of a listing, and its answer: a refused one hands an output of zeros back.
#[repr(C)]
#[derive(Clone, Copy)]
pub struct Sheet {
    pub out: [Wide; 4],
    pub refusal: u64,
    pub count: usize,
    pub more: bool,
    pub next: Wide,
}

fn leaf(out: [Wide; 4], p: Page) -> Sheet
    ensures { result ≡ sheet_of out p }
{
    Sheet {
        out,
        refusal: p.refusal,
        count: p.count,
        more: p.more,
        next: p.next,
    }
}

pub fn lookup(a: [Entry; 8], n: usize, key: Key) -> Result<Wide, Refusal>
    ensures { Lookup key n a (found_of result) }
{
    catalogue::lookup(&a, n, key)
}

pub fn insert(a: [Entry; 8], n: usize, r: Entry) -> Shelf
    ensures { result ≡ shelf_of (inserted_list r n a) (insert_of r n a) }
{
    let mut slots = a;
    let answer = catalogue::insert(&mut slots, n, r);
    bound(slots, Changed::of(answer, n))
}

pub fn delete(a: [Entry; 8], n: usize, r: Entry) -> Shelf
    ensures { result ≡ shelf_of (deleted_list r n a) (delete_of r n a) }
{
    let mut slots = a;
    let answer = catalogue::delete(&mut slots, n, r);
    bound(slots, Changed::of(answer, n))
}

pub fn listing(a: [Entry; 8], n: usize, key: Key, out: [Wide; 4]) -> Sheet
    ensures { result ≡ sheet_of (listed_out key n a out) (listing_of key n a out) }
{
    let mut page = out;
    let answer = catalogue::listing(&a, n, key, &mut page);
    leaf(page, Page::from(answer))
}
