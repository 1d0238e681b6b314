// 2,400 seeded catalogue calls, legal and illegal ones, with the whole slice printed after each.
#![tactic(auto)]

use entries::{Entry, Key, Wide};
use shelf::{Sheet, Shelf};
use trial::{draw, newline, number, text};

const ONES: u64 = 18446744073709551615;

// Mostly one of three, so that numbers often differ in one word alone; now and then the largest one or a high one.
fn any_word(seed: &mut u64) -> u64 {
    let kind = draw(seed, 16);
    if kind == 0 {
        return ONES;
    }
    if kind == 1 {
        return trial::high(seed);
    }
    draw(seed, 3)
}

fn any_number(seed: &mut u64) -> Wide {
    let first = any_word(seed);
    let second = any_word(seed);
    Wide { first, second }
}

// Mostly of device 0, so that it often has more files than a listing has places.
fn any_record(seed: &mut u64) -> Entry {
    let mut device: u64 = 0;
    if draw(seed, 4) == 0 {
        device = any_word(seed);
    }
    let file = any_number(seed);
    let cob = any_number(seed);
    Entry { device, file, cob }
}

// One call in 64 finds a slot overwritten.
fn disturbed(seed: &mut u64, slots: [Entry; 8]) -> [Entry; 8] {
    let mut after = slots;
    if draw(seed, 64) == 0 {
        let at = draw(seed, 8) as usize;
        after[at] = any_record(seed);
    }
    after
}

// The count that a call is given: mostly the true one.
fn given_count(seed: &mut u64, count: usize) -> usize {
    let kind = draw(seed, 16);
    if kind == 0 {
        return draw(seed, 12) as usize;
    }
    if kind == 1 {
        return ONES as usize;
    }
    count
}

// The number with one of its words drawn anew.
fn altered(seed: &mut u64, w: Wide, is_first: bool) -> Wide {
    let word = any_word(seed);
    if is_first {
        Wide { first: word, ..w }
    } else {
        Wide { second: word, ..w }
    }
}

// The record that a call names: one of the slots, as it is or with one word of its file or cob altered, or a drawn one.
fn named(seed: &mut u64, slots: [Entry; 8]) -> Entry {
    let aim = draw(seed, 10);
    if 6 <= aim {
        return any_record(seed);
    }
    let at = draw(seed, 8) as usize;
    let slot = slots[at];
    if aim < 2 {
        return slot;
    }
    if aim < 4 {
        Entry {
            file: altered(seed, slot.file, aim == 2),
            ..slot
        }
    } else {
        Entry {
            cob: altered(seed, slot.cob, aim == 4),
            ..slot
        }
    }
}

fn print_number(rt: &impl Print, w: Wide) {
    number(rt, w.first);
    number(rt, w.second);
}

fn print_key(rt: &impl Print, key: Key) {
    number(rt, key.device);
    print_number(rt, key.file);
}

fn print_record(rt: &impl Print, r: Entry) {
    print_key(rt, entries::key_of(r));
    print_number(rt, r.cob);
}

fn print_change(rt: &impl Print, given: usize, r: Entry, refusal: u64, count: usize) {
    number(rt, given as u64);
    print_record(rt, r);
    number(rt, refusal);
    number(rt, count as u64);
    newline(rt);
}

// After a change: the slots, and the count that holds from now on.
fn settled(after: Shelf, count: usize) -> Shelf {
    if after.refusal == 0 {
        return after;
    }
    Shelf {
        refusal: 0,
        count,
        ..after
    }
}

fn call_insert(rt: &impl Print, slots: [Entry; 8], count: usize, given: usize, r: Entry) -> Shelf {
    let after = shelf::insert(slots, given, r);
    text(rt, b"insert");
    print_change(rt, given, r, after.refusal, after.count);
    settled(after, count)
}

fn call_delete(rt: &impl Print, slots: [Entry; 8], count: usize, given: usize, r: Entry) -> Shelf {
    let after = shelf::delete(slots, given, r);
    text(rt, b"delete");
    print_change(rt, given, r, after.refusal, after.count);
    settled(after, count)
}

fn call_lookup(rt: &impl Print, slots: [Entry; 8], given: usize, key: Key) {
    let found = shelf::lookup(slots, given, key);
    text(rt, b"lookup");
    number(rt, given as u64);
    print_key(rt, key);
    number(rt, lists::answer_number(found));
    print_number(rt, found.unwrap_or_default());
    newline(rt);
}

fn print_sheet(rt: &impl Print, sheet: Sheet) {
    number(rt, sheet.refusal);
    number(rt, sheet.count as u64);
    number(rt, u64::from(sheet.more));
    print_number(rt, sheet.next);
    for w in sheet.out {
        print_number(rt, w);
    }
    newline(rt);
}

fn call_listing(rt: &impl Print, slots: [Entry; 8], given: usize, key: Key) {
    let seven = Wide {
        first: 7,
        second: 7,
    };
    let sheet = shelf::listing(slots, given, key, [seven; 4]);
    text(rt, b"listing");
    number(rt, given as u64);
    print_key(rt, key);
    print_sheet(rt, sheet);
}

// A call that leaves the slots: a lookup, a listing from a file on, or one of all files of a device.
fn call_reading(rt: &impl Print, kind: u64, slots: [Entry; 8], given: usize, key: Key) {
    if kind == 7 {
        call_lookup(rt, slots, given, key);
        return;
    }
    if kind == 8 {
        call_listing(rt, slots, given, key);
        return;
    }
    let all = Key {
        file: Wide::default(),
        ..key
    };
    call_listing(rt, slots, given, all);
}

// One call: what it leaves is what the next one finds.
fn one_call(rt: &impl Print, seed: &mut u64, before: [Entry; 8], count: usize) -> Shelf {
    let slots = disturbed(seed, before);
    let kind = draw(seed, 10);
    let given = given_count(seed, count);
    let r = named(seed, slots);
    if kind < 5 {
        return call_insert(rt, slots, count, given, r);
    }
    if kind < 7 {
        return call_delete(rt, slots, count, given, r);
    }
    call_reading(rt, kind, slots, given, entries::key_of(r));
    Shelf {
        slots,
        refusal: 0,
        count,
    }
}

fn print_slots(rt: &impl Print, slots: [Entry; 8], count: usize) {
    text(rt, b"slots");
    number(rt, count as u64);
    for r in slots {
        print_record(rt, r);
    }
    newline(rt);
}

fn main(rt: HostRuntime) {
    let mut seed: u64 = 50260505;
    let mut slots = [Entry::default(); 8];
    let mut count: usize = 0;
    for c in 0..2400 {
        if c % 60 == 0 {
            slots = [Entry::default(); 8];
            count = 0;
        }
        let after = one_call(&rt, &mut seed, slots, count);
        slots = after.slots;
        count = after.count;
        print_slots(&rt, slots, count);
    }
}
