// The lengths of a register page: 132 and 196 bytes are taken, any other is refused 11.
use std::io;
use test_report::asked::Asked;
use test_report::lent::{SDR1, SEGMENT, registers};
use test_report::line;

// 200 bytes that begin with SDR1 and segment 0 of the cases.
fn page() -> [u8; 200] {
    registers(&[(0, SDR1), (1, SEGMENT)])
}

// The number of a check lent so many of them.
fn check_at(length: usize) -> u32 {
    mmu::mmu_check(&page()[..length.min(200)])
}

// The number of a set register lent so many, for a segment register that has the word already; none where a byte changes.
fn set_at(length: usize, number: u32) -> Option<u32> {
    let mut lent = page();
    let result = mmu::mmu_set_register(&mut lent[..length.min(200)], number, SEGMENT);
    (lent == page()).then_some(result)
}

// The number of an access in real mode lent so many; none where the table changes, or where the answer changes at 11.
fn access_at(length: usize) -> Option<u32> {
    let mut table = [0u8; 65536];
    let mut answer = [0xAAu8; 48];
    let asked = Asked::byte(0, 1, 0x00FFA01B);
    let result = asked.run(&page()[..length.min(200)], &mut table, &mut answer);
    let kept = result == 0 || answer == [0xAA; 48];
    (kept && table == [0; 65536]).then_some(result)
}

// Check.
pub fn checks(rt: &impl Print) -> io::Result<()> {
    for (number, length, result) in [
        // Check: pages of 132 and of 196 bytes are taken. Source: request 5; rules 3.
        (904, 132, 0),
        (905, 196, 0),
        // Check: 11 for a page of 0, 131, 133, 160, 164, 192, 195, 197 and 200 bytes. Source: request 5, "11 now means neither length".
        (906, 0, 11),
        (907, 131, 11),
        (908, 133, 11),
        (909, 160, 11),
        (910, 164, 11),
        (911, 192, 11),
        (912, 195, 11),
        (913, 197, 11),
        (914, 200, 11),
    ] {
        line(rt, number, check_at(length) == result)?;
    }
    Ok(())
}

// Set register.
pub fn sets(rt: &impl Print) -> io::Result<()> {
    // Set register: a word of a page of 132 and of 196 bytes is taken; 11 for 131, 133, 164, 195 and 197 bytes, also before 6 (number 49); the page is left. Source: request 5.
    for (number, length, register, result) in [
        (915, 132, 1, 0),
        (916, 196, 1, 0),
        (917, 131, 1, 11),
        (918, 133, 1, 11),
        (919, 164, 1, 11),
        (920, 195, 49, 11),
        (921, 197, 49, 11),
    ] {
        line(rt, number, set_at(length, register) == Some(result))?;
    }
    Ok(())
}

// Access.
pub fn accesses(rt: &impl Print) -> io::Result<()> {
    // Access: done in real mode with a page of 132 and of 196 bytes; 11 for 131, 133, 164, 195 and 197 bytes, and nothing lent is written. Source: request 5.
    for (number, length, result) in [
        (922, 132, 0),
        (923, 196, 0),
        (924, 131, 11),
        (925, 133, 11),
        (926, 164, 11),
        (927, 195, 11),
        (928, 197, 11),
    ] {
        line(rt, number, access_at(length) == Some(result))?;
    }
    Ok(())
}
