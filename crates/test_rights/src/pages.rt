// Accesses that a page decides: the marks that each would newly set, where the entry stands, and what is not allowed.
use super::asked::{ADDRESS, Told, done, no_data, no_fetch, tells, tells_at};
use std::io;
use test_report::lent::{Entry, SDR1, SEGMENT, registers};
use test_report::line;

// R is 100 and C is 080; what is set already is not told.
pub fn marks(rt: &impl Print) -> io::Result<()> {
    for (number, second, read, written) in [
        // Neither is set; R is; C is; both are. Source: rules 5, step 7.
        (1180, 0x12345012, 0x100, 0x180),
        (1181, 0x12345112, 0, 0x080),
        (1182, 0x12345092, 0x100, 0x100),
        (1183, 0x12345192, 0, 0),
    ] {
        let told = [read, read, written].map(|marks| done(2, 2, 998, 0, marks));
        let entry = Entry::of_page(second);
        line(rt, number, tells(SEGMENT, &[entry], told))?;
    }
    Ok(())
}

// The marks are those of the entry that the record names.
pub fn places(rt: &impl Print) -> io::Result<()> {
    // In the secondary group, where the same entry of the primary is another page's with both marks. Source: rules 4 and 5, steps 4 and 7.
    let used = Entry::new(25, 5, 0x86380E43, 0x12345012);
    let other = Entry::new(998, 5, 0x80000080, 0x00001192);
    let told = [0x100, 0x100, 0x180].map(|marks| done(2, 2, 25, 5, marks));
    line(rt, 1184, tells(SEGMENT, &[used, other], told))?;
    // The first of two matches that agree, where the second has both marks. Source: rules 5, step 7.
    let used = Entry::new(998, 3, 0x86380E03, 0x12345012);
    let again = Entry::new(998, 6, 0x86380E03, 0x12345192);
    let told = [0x100, 0x100, 0x180].map(|marks| done(2, 2, 998, 3, marks));
    line(rt, 1185, tells(SEGMENT, &[used, again], told))
}

// What PP and key do not allow faults, and a fault has no marks.
pub fn protected(rt: &impl Print) -> io::Result<()> {
    // PP 3 with key 0: a store alone. Source: rules 5, step 6.
    let entry = Entry::of_page(0x12345013);
    let reads = done(2, 3, 998, 0, 0x100);
    let store = no_data(0x0A000000, [5, 3, 998, 0]);
    line(rt, 1186, tells(SEGMENT, &[entry], [reads, reads, store]))?;
    // PP 1 with key 1, which is Kp for the user: a store alone. Source: rules 5, step 6.
    let page = registers(&[(0, SDR1), (1, 0x200C701C)]);
    let entry = Entry::of_page(0x12345111);
    let reads = done(2, 5, 998, 0, 0);
    let told = [reads, reads, no_data(0x0A000000, [5, 5, 998, 0])];
    line(rt, 1187, tells_at(page, 7, ADDRESS, &[entry], told))?;
    // PP 0 with key 1: all three. Source: rules 5, step 6.
    let entry = Entry::of_page(0x12345010);
    let record = [5, 4, 998, 0];
    let told = [
        no_fetch(0x08000000, record),
        no_data(0x08000000, record),
        no_data(0x0A000000, record),
    ];
    line(rt, 1188, tells_at(page, 7, ADDRESS, &[entry], told))
}

// What a fetch alone meets.
pub fn fetches(rt: &impl Print) -> io::Result<()> {
    // A segment with N. Source: rules 5, step 3.
    let entry = Entry::of_page(0x12345012);
    let told = [
        no_fetch(0x10000000, [2, 0, 0, 0]),
        done(2, 2, 998, 0, 0x100),
        done(2, 2, 998, 0, 0x180),
    ];
    line(rt, 1189, tells(0x100C701C, &[entry], told))?;
    // A guarded page. Source: rules 5, step 5.
    let entry = Entry::of_page(0x1234501A);
    let told = [
        no_fetch(0x10000000, [4, 0, 998, 0]),
        done(3, 2, 998, 0, 0x100),
        done(3, 2, 998, 0, 0x180),
    ];
    line(rt, 1190, tells(SEGMENT, &[entry], told))
}

// What no match tells of each kind.
fn unmatched() -> [Told; 3] {
    let record = [3, 0, 0, 0];
    [
        no_fetch(0x40000000, record),
        no_data(0x40000000, record),
        no_data(0x42000000, record),
    ]
}

// No entry matches.
pub fn no_match(rt: &impl Print) -> io::Result<()> {
    let free = Entry::new(998, 0, 0x06380E03, 0x12345012);
    // An empty table; an entry of the page with V 0. Source: rules 5, step 4.
    line(rt, 1191, tells(SEGMENT, &[], unmatched()))?;
    line(rt, 1192, tells(SEGMENT, &[free], unmatched()))
}

// One byte never has a second part.
pub fn edges(rt: &impl Print) -> io::Result<()> {
    let page = registers(&[(0, SDR1), (1, SEGMENT)]);
    let entry = Entry::of_page(0x12345192);
    // The page's last byte. Source: rules 5, parts.
    let last = Told {
        word: 0x12345FFF,
        ..done(2, 2, 998, 0, 0)
    };
    line(rt, 1193, tells_at(page, 3, 0x00FFAFFF, &[entry], [last; 3]))?;
    // The last byte of all, which has no match. Source: rules 5, parts.
    let told = unmatched();
    line(rt, 1194, tells_at(page, 3, 0xFFFFFFFF, &[entry], told))
}
