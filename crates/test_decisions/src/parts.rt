// Operands over a page edge: the first part's record where they are done, that of the part whose fault is given, and none after a refusal.
use super::shown::{secondary, shows};
use std::io;
use test_report::asked::Asked;
use test_report::lent::{Entry, SDR1, SEGMENT, registers};
use test_report::line;

// An entry of page 0FFB in its secondary group.
fn in_24(entry: usize, second: u32) -> Entry {
    Entry::new(24, entry, 0x86380E43, second)
}

// Whether an access to eight bytes at 00FFAFFD, three of them in page 0FFA and five in page 0FFB, shows this record.
fn at_edge(mode: u32, kind: u32, entries: &[Entry], res: u32, record: [u32; 4]) -> bool {
    let page = registers(&[(0, SDR1), (1, SEGMENT)]);
    let asked = Asked {
        mode,
        kind,
        address: 0x00FFAFFD,
        length: 8,
    };
    shows(page, asked, entries, res, record)
}

// Both parts done.
pub fn done(rt: &impl Print) -> io::Result<()> {
    let both = [Entry::of_page(0x12345011), Entry::of_next_page(0x6789A022)];
    // Over a page edge a done access shows the first page: a load, a store and a fetch of PP 1 before the edge and PP 2 after it; in real mode four zero words. Source: rules 5.
    line(rt, 812, at_edge(3, 1, &both, 0, [6, 1, 998, 0]))?;
    line(rt, 813, at_edge(3, 2, &both, 0, [6, 1, 998, 0]))?;
    line(rt, 814, at_edge(3, 0, &both, 0, [6, 1, 998, 0]))?;
    line(rt, 815, at_edge(0, 1, &both, 0, [0, 0, 0, 0]))
}

// The first part done and the second not.
pub fn second_stops(rt: &impl Print) -> io::Result<()> {
    let page = Entry::of_page(0x12345011);
    let closed = [page, Entry::of_next_page(0x6789A023)];
    let guarded = [page, Entry::of_next_page(0x6789A00A)];
    let secondary = [page, in_24(7, 0x6789A023)];
    // Over a page edge a fault of the second page shows that page: no match, protection, guarded, and protection by an entry in its secondary group, 24. Source: rules 5.
    line(rt, 816, at_edge(3, 1, &[page], 64, [3, 0, 0, 0]))?;
    line(rt, 817, at_edge(3, 2, &closed, 64, [5, 3, 999, 3]))?;
    line(rt, 818, at_edge(3, 0, &guarded, 65, [4, 0, 999, 3]))?;
    line(rt, 819, at_edge(3, 2, &secondary, 64, [5, 3, 24, 7]))
}

// The first part not done.
pub fn first_stops(rt: &impl Print) -> io::Result<()> {
    let next = Entry::of_next_page(0x6789A022);
    let closed = Entry::of_page(0x12345013);
    let guarded = Entry::of_page(0x1234500A);
    let next_closed = Entry::of_next_page(0x6789A023);
    // Over a page edge a fault of the first page shows that page: no match, protection, guarded, where the second would be done; protection and no match, no match and protection, where it would not. Source: rules 5.
    line(rt, 820, at_edge(3, 1, &[next], 64, [3, 0, 0, 0]))?;
    line(rt, 821, at_edge(3, 2, &[closed, next], 64, [5, 3, 998, 0]))?;
    line(rt, 822, at_edge(3, 0, &[guarded, next], 65, [4, 0, 998, 0]))?;
    line(rt, 823, at_edge(3, 2, &[closed], 64, [5, 3, 998, 0]))?;
    line(rt, 824, at_edge(3, 2, &[next_closed], 64, [3, 0, 0, 0]))
}

// Contradicting matches.
pub fn refused(rt: &impl Print) -> io::Result<()> {
    let page = Entry::of_page(0x12345011);
    let next = Entry::of_next_page(0x6789A022);
    let other_page = secondary(0, 0x12346011);
    let other_next = in_24(0, 0x6789B022);
    let second = [page, next, other_next];
    let first = [page, next, other_page];
    let after_none = [next, other_next];
    // Over a page edge contradicting matches show nothing: of the second page where the first would be done, and of the first; after no match of the first they are not met. Source: rules 5.
    line(rt, 825, at_edge(3, 1, &second, 10, [0, 0, 0, 0]))?;
    line(rt, 826, at_edge(3, 1, &first, 10, [0, 0, 0, 0]))?;
    line(rt, 827, at_edge(3, 1, &after_none, 64, [3, 0, 0, 0]))
}

// Whether an access to two bytes before 01000000 and two after it, by data pair 3 with these words, shows this record.
fn by_pair(pair: [u32; 2], kind: u32, entries: &[Entry], res: u32, record: [u32; 4]) -> bool {
    let [upper, lower] = pair;
    let page = registers(&[(0, SDR1), (1, SEGMENT), (31, upper), (32, lower)]);
    let asked = Asked {
        mode: 1,
        kind,
        address: 0x00FFFFFE,
        length: 4,
    };
    shows(page, asked, entries, res, record)
}

// Page 0FFF, in group 995, is before the edge at 01000000, and page 1000, in group 28, after it.
pub fn with_block(rt: &impl Print) -> io::Result<()> {
    let before = [Entry::new(995, 2, 0x86380E03, 0x12345012)];
    let after = [Entry::new(28, 2, 0x86380E04, 0x6789A022)];
    let block = [0x00FE0002, 0x10000012];
    let block_after = [0x01000002, 0x30000022];
    let closed_after = [0x01000002, 0x30000021];
    // Over a page edge from a block to a page the block is shown, from a page to a block the page; a store to a block of PP 1 after a page shows the block, no match after a block no match. Source: rules 5.
    let shown = [1, 3, 0, 0];
    line(rt, 828, by_pair(block, 1, &after, 0, shown))?;
    line(rt, 829, by_pair(block_after, 1, &before, 0, [6, 2, 995, 2]))?;
    line(rt, 830, by_pair(closed_after, 2, &before, 64, shown))?;
    line(rt, 831, by_pair(block, 1, &[], 64, [3, 0, 0, 0]))
}

// Whether an access to two bytes of segment 0, VSID 0C701C, and two of segment 1 with this register, VSID 1, shows this record. Page FFFF of
// the first is in group 995, page 0 of the other in group 1.
fn over_segment(kind: u32, segment: u32, res: u32, record: [u32; 4]) -> bool {
    let page = registers(&[(0, SDR1), (1, SEGMENT), (2, segment)]);
    let entries = [
        Entry::new(995, 0, 0x86380E3F, 0x12345012),
        Entry::new(1, 6, 0x80000080, 0x6789A020),
    ];
    let asked = Asked {
        mode: 3,
        kind,
        address: 0x0FFFFFFE,
        length: 4,
    };
    shows(page, asked, &entries, res, record)
}

// The second part by its own segment.
pub fn two_segments(rt: &impl Print) -> io::Result<()> {
    // Over the end of segment 0, by segment register 1 of the second part: done, N, and Ks with PP 0, which is shown as key 1. Source: rules 5.
    line(rt, 832, over_segment(1, 0x00000001, 0, [6, 2, 995, 0]))?;
    line(rt, 833, over_segment(0, 0x10000001, 65, [2, 0, 0, 0]))?;
    line(rt, 834, over_segment(2, 0x40000001, 64, [5, 4, 1, 6]))
}
