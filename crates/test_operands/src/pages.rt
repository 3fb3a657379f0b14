// Operands over the edge between two pages of one segment: 00FFAFFD, eight bytes, of which three are in page 0FFA and five in page 0FFB.
use super::asked::{CONTRADICTION, fault};
use std::io;
use test_report::asked::Asked;
use test_report::lent::{Entry, SDR1, SEGMENT, both_pages, registers, table_with, with_entry};
use test_report::line;

// The operand's address, and the first of page 0FFB.
const ADDRESS: u32 = 0x00FFAFFD;

const NEXT: u32 = 0x00FFB000;

// An access of this length at that address by segment register 0.
fn at_edge(
    segment: u32,
    mode: u32,
    kind: u32,
    length: u32,
    table: [u8; 65536],
    eight: [u32; 8],
    after: [u8; 65536],
) -> bool {
    let asked = Asked {
        mode,
        kind,
        address: ADDRESS,
        length,
    };
    asked.answers(registers(&[(0, SDR1), (1, segment)]), &table, eight, &after)
}

// Eight bytes by segment register 0 of the cases, with data and instructions translated, for the supervisor.
fn access(kind: u32, table: [u8; 65536], eight: [u32; 8], after: [u8; 65536]) -> bool {
    at_edge(SEGMENT, 3, kind, 8, table, eight, after)
}

// An access that leaves the table.
fn leaves(kind: u32, table: [u8; 65536], eight: [u32; 8]) -> bool {
    access(kind, table, eight, table)
}

// One that faults at the operand's own address.
fn stops(kind: u32, table: [u8; 65536], word: u32) -> bool {
    leaves(kind, table, fault(kind, word, ADDRESS))
}

// One that faults at the first address of page 0FFB.
fn stops_next(kind: u32, table: [u8; 65536], word: u32) -> bool {
    leaves(kind, table, fault(kind, word, NEXT))
}

// An entry of page 0FFA in its secondary group, and one of page 0FFB in its own.
fn second_entry(second: u32) -> Entry {
    Entry::new(25, 0, 0x86380E43, second)
}

fn second_entry_next(entry: usize, second: u32) -> Entry {
    Entry::new(24, entry, 0x86380E43, second)
}

// Tables with page 0FFA alone, and with page 0FFB alone.
fn alone(second: u32) -> [u8; 65536] {
    table_with(&[Entry::of_page(second)])
}

fn next_alone(second: u32) -> [u8; 65536] {
    table_with(&[Entry::of_next_page(second)])
}

// The answer where page 0FFA has RPN 12345 and WIMG 2 and page 0FFB has RPN 6789A and WIMG 4.
const DONE: [u32; 8] = [0, 0x12345FFD, 2, ADDRESS, 0x6789A000, 4, 3, 5];

// The answer where all of the operand lies in page 0FFA.
const WITHIN: [u32; 8] = [0, 0x12345FFD, 2, ADDRESS, 0, 0, 3, 0];

// Both parts done.
pub fn done(rt: &impl Print) -> io::Result<()> {
    let both = both_pages(0x12345012, 0x6789A022);
    let read = both_pages(0x12345112, 0x6789A122);
    let written = both_pages(0x12345192, 0x6789A1A2);
    // Over a page edge by two pages: a load and a fetch set R in both, a store R and C in both; for the user too. Source: rules 5, parts and step 7.
    line(rt, 681, access(1, both, DONE, read))?;
    line(rt, 682, access(2, both, DONE, written))?;
    line(rt, 683, access(0, both, DONE, read))?;
    line(rt, 684, at_edge(SEGMENT, 7, 2, 8, both, DONE, written))?;
    // Up to the page's last byte: the next page is neither asked nor marked, and need not be there. Source: rules 5, parts.
    let one_written = both_pages(0x12345192, 0x6789A022);
    line(
        rt,
        685,
        at_edge(SEGMENT, 1, 2, 3, both, WITHIN, one_written),
    )?;
    let one = alone(0x12345012);
    let one_read = alone(0x12345112);
    line(rt, 686, at_edge(SEGMENT, 1, 1, 3, one, WITHIN, one_read))
}

// What the marks leave.
pub fn kept_bits(rt: &impl Print) -> io::Result<()> {
    let marked = both_pages(0x12345192, 0x6789A1A2);
    // Over a page edge, marks that stood stay, and ignored bits are kept in both entries. Source: rules 4 and 5, step 7.
    line(rt, 687, access(1, marked, DONE, marked))?;
    let half_marked = both_pages(0x12345112, 0x6789A0A2);
    line(rt, 688, access(2, half_marked, DONE, marked))?;
    let ignored = both_pages(0x12345E16, 0x6789AE26);
    let ignored_marked = both_pages(0x12345F96, 0x6789AFA6);
    line(rt, 689, access(2, ignored, DONE, ignored_marked))?;
    // Over a page edge, the second page's entry in its secondary group, 24. Source: rules 4.
    let one = with_entry(alone(0x12345012), second_entry_next(7, 0x6789A022));
    let other = with_entry(alone(0x12345192), second_entry_next(7, 0x6789A1A2));
    line(rt, 690, access(2, one, DONE, other))
}

// The first part done and the second not: the fault is at 00FFB000, and page 0FFA stays unmarked.
pub fn second_stops(rt: &impl Print) -> io::Result<()> {
    // Over a page edge, a fault or a contradiction of the second page answers, at that page's first byte, and marks neither: no match (load, store, fetch), protection (store of PP 3; load of PP 0 with key 1), guarded, 10, and marks that stood. Source: rules 5, parts.
    let one = alone(0x12345012);
    line(rt, 691, stops_next(1, one, 0x40000000))?;
    line(rt, 692, stops_next(2, one, 0x42000000))?;
    line(rt, 693, stops_next(0, one, 0x40000000))?;
    let read_only = both_pages(0x12345012, 0x6789A023);
    line(rt, 694, stops_next(2, read_only, 0x0A000000))?;
    let unread = both_pages(0x12345012, 0x6789A020);
    let word = fault(1, 0x08000000, NEXT);
    line(rt, 695, at_edge(0x400C701C, 1, 1, 8, unread, word, unread))?;
    let guarded = both_pages(0x12345012, 0x6789A00A);
    line(rt, 696, stops_next(0, guarded, 0x10000000))?;
    let both = both_pages(0x12345012, 0x6789A022);
    let twice = with_entry(both, second_entry_next(0, 0x6789B022));
    line(rt, 697, leaves(1, twice, CONTRADICTION))?;
    line(rt, 698, stops_next(2, alone(0x12345192), 0x42000000))
}

// The first part not done: the fault is at the operand's own address, whatever the second page is.
pub fn first_stops(rt: &impl Print) -> io::Result<()> {
    // Over a page edge, a fault or a contradiction of the first page answers, at the operand's own address, and marks neither: no match, protection, guarded, 10. Source: rules 5, parts.
    line(rt, 699, stops(1, next_alone(0x6789A022), 0x40000000))?;
    let read_only = both_pages(0x12345013, 0x6789A022);
    line(rt, 700, stops(2, read_only, 0x0A000000))?;
    let guarded = both_pages(0x1234500A, 0x6789A022);
    line(rt, 701, stops(0, guarded, 0x10000000))?;
    let both = both_pages(0x12345012, 0x6789A022);
    let twice = with_entry(both, second_entry(0x12346012));
    line(rt, 702, leaves(1, twice, CONTRADICTION))
}

// Neither part done: the first answers.
pub fn neither_done(rt: &impl Print) -> io::Result<()> {
    // Over a page edge, where neither page would do its part the first answers: no match twice, no match and protection, protection and no match, no match before 10, 10 before no match, guarded and no match. Source: rules 5, parts.
    line(rt, 703, stops(2, [0; 65536], 0x42000000))?;
    line(rt, 704, stops(2, next_alone(0x6789A023), 0x42000000))?;
    line(rt, 705, stops(2, alone(0x12345013), 0x0A000000))?;
    let next_twice = with_entry(next_alone(0x6789A022), second_entry_next(0, 0x6789B022));
    line(rt, 706, stops(1, next_twice, 0x40000000))?;
    let twice = with_entry(alone(0x12345012), second_entry(0x12346012));
    line(rt, 707, leaves(1, twice, CONTRADICTION))?;
    line(rt, 708, stops(0, alone(0x1234500A), 0x10000000))
}

// Both pages with duplicates in their secondary groups.
fn with_duplicates(before: u32, after: u32) -> [u8; 65536] {
    table_with(&[
        Entry::of_page(before),
        Entry::of_next_page(after),
        second_entry(0x12345012),
        second_entry_next(2, 0x6789A022),
    ])
}

// Duplicate matches.
pub fn duplicates(rt: &impl Print) -> io::Result<()> {
    let both = with_duplicates(0x12345012, 0x6789A022);
    let written = with_duplicates(0x12345192, 0x6789A1A2);
    // Over a page edge, equal duplicates of both pages: the first match of each is used and marked. Source: rules 4 and 5.
    line(rt, 709, access(2, both, DONE, written))
}

// An access to two bytes of page 01FF and two of page 0200. Their groups are 483 and 540, each the primary of one page and the secondary of the
// other.
fn over_shared(kind: u32, table: [u8; 65536], eight: [u32; 8], after: [u8; 65536]) -> bool {
    let asked = Asked {
        mode: 1,
        kind,
        address: 0x001FFFFE,
        length: 4,
    };
    asked.answers(registers(&[(0, SDR1), (1, SEGMENT)]), &table, eight, &after)
}

// Whether a store marks both, the entry of page 01FF at this place and that of page 0200 at another, with these first words.
fn marks_both(one: (usize, usize, u32), other: (usize, usize, u32)) -> bool {
    let (group, entry, first) = one;
    let (other_group, other_entry, other_first) = other;
    let eight = [0, 0x12345FFE, 2, 0x001FFFFE, 0x6789A000, 4, 2, 2];
    let before = table_with(&[
        Entry::new(group, entry, first, 0x12345012),
        Entry::new(other_group, other_entry, other_first, 0x6789A022),
    ]);
    let after = table_with(&[
        Entry::new(group, entry, first, 0x12345192),
        Entry::new(other_group, other_entry, other_first, 0x6789A1A2),
    ]);
    over_shared(2, before, eight, after)
}

// Pages that share both groups.
pub fn shared_groups(rt: &impl Print) -> io::Result<()> {
    for (number, one, other) in [
        // Pages 01FF and 0200 share both groups of a table of 1024: a store over their edge marks both in group 483, both in group 540, each in its primary, each in its secondary; one page's entry is not the other's. Source: rules 4 and 5.
        (710, (483, 6, 0x86380E00), (483, 7, 0x86380E40)),
        (711, (540, 0, 0x86380E40), (540, 1, 0x86380E00)),
        (712, (483, 0, 0x86380E00), (540, 0, 0x86380E00)),
        (713, (540, 5, 0x86380E40), (483, 5, 0x86380E40)),
    ] {
        line(rt, number, marks_both(one, other))?;
    }
    let one = table_with(&[Entry::new(483, 0, 0x86380E00, 0x12345012)]);
    line(
        rt,
        714,
        over_shared(1, one, fault(1, 0x40000000, 0x00200000), one),
    )
}
