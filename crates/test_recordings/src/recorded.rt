// Runs the access that a line of a recording file has, on a table of 65,536 bytes, and compares its answer and the table with what the line
// says. A line is read from left to right: id, registers, access, entries, answer, the entries' second words after the access.
use super::text::Line;
use test_report::answered::begins_with;
use test_report::asked::Asked;
use test_report::lent::{Entry, set_register};

// The next 33 numbers, a register page.
fn registers_of(line: &mut Line) -> [u8; 132] {
    let mut page = [0u8; 132];
    for number in 0..33u8 {
        set_register(&mut page, number, line.hexadecimal());
    }
    page
}

// The next entry: its group (PTEG), its number in the group, and its two words before the access.
fn entry_of(line: &mut Line) -> Entry {
    let group = line.decimal() as usize;
    let entry = line.decimal() as usize;
    let first = line.hexadecimal();
    Entry::new(group, entry, first, line.hexadecimal())
}

// Whether the returned number and the answer begin with what is recorded: result, word, offset and address. The third word of a done access has the attributes,
// which the emulator does not show, so it is compared after a fault only.
pub fn is_recorded(returned: u32, answer: &[u8; 48], recorded: [u32; 4]) -> bool {
    let [res, word, offset, address] = recorded;
    let shown = res == 0 || begins_with(&answer[8..], &[offset]);
    let named = begins_with(answer, &[res, word]) && begins_with(&answer[12..], &[address]);
    returned == res && named && shown
}

// Whether the access of a line answers as recorded and leaves the whole table as recorded, and the line has nothing more.
pub fn replay(text: &[u8]) -> bool {
    let mut line = Line::new(text);
    let _id = line.decimal();
    let page = registers_of(&mut line);
    let mode = line.decimal();
    let kind = line.decimal();
    let asked = Asked::byte(mode, kind, line.hexadecimal());
    let count = line.decimal();
    let mut entries = line;
    let mut table = [0u8; 65536];
    for _ in 0..count {
        entry_of(&mut line).put(&mut table);
    }
    let mut answer = [0xAAu8; 48];
    let returned = asked.run(&page, &mut table, &mut answer);
    let res = line.decimal();
    let word = line.hexadecimal();
    let offset = line.hexadecimal();
    let recorded = [res, word, offset, line.hexadecimal()];
    let mut expected = [0u8; 65536];
    for _ in 0..count {
        let before = entry_of(&mut entries);
        let after = Entry {
            second: line.hexadecimal(),
            ..before
        };
        after.put(&mut expected);
    }
    is_recorded(returned, &answer, recorded) && table == expected && line.is_empty()
}
