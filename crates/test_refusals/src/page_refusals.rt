// Each refusal of clear, map, unmap, protect and look, and each two that can hold together, in the order of the rules (7). A refusal leaves the
// whole table and, of an answer, the number and three zero words (11: the answer too).
use std::io;
use test_report::answered::answer_refused;
use test_report::lent::Scene::{self, Contradicting, Empty, Full, FullMapped, Mapped};
use test_report::lent::{BAD_SDR1, INDEX, SDR1, VSID, table_of};
use test_report::line;

// The number of a refused call that is lent so many bytes of a scene's table; none where it changes the table.
fn refused<F: FnOnce(&mut [u8]) -> u32>(scene: Scene, length: usize, call: F) -> Option<u32>
    requires { F.IsAlwaysCallable call }
{
    let before = table_of(scene);
    let mut table = before;
    let number = call(&mut table[..length.min(131072)]);
    (table == before).then_some(number)
}

// The number of a refused clear.
fn clear(sdr1: u32, length: usize) -> Option<u32> {
    refused(Full, length, |table| mmu::mmu_clear(sdr1, table))
}

// Whether a clear zeroes the table.
fn clear_done(sdr1: u32) -> bool {
    let mut table = [0xFFu8; 65536];
    let result = mmu::mmu_clear(sdr1, &mut table);
    result == 0 && table == [0; 65536]
}

// Clears: SDR1, the table's length, and the number.
pub fn clears(rt: &impl Print) -> io::Result<()> {
    // Clear: every byte is zeroed. Source: rules 6.
    line(rt, 327, clear_done(SDR1))?;
    line(rt, 328, clear_done(0xFFFF0000))?;
    for (number, sdr1, length, expected) in [
        // Clear: each refusal alone (2 by a reserved bit, by mask 2, by an origin bit under the mask; 1 at four lengths). Source: rules 7.
        (329, BAD_SDR1, 65536, 2),
        (330, 0x0F980002, 65536, 2),
        (331, 0x0F990001, 131072, 2),
        (332, SDR1, 65535, 1),
        (333, SDR1, 65537, 1),
        (334, SDR1, 0, 1),
        (335, SDR1, 131072, 1),
        (336, 0x0F980001, 65536, 1),
        // Clear: 2 before 1. Source: rules 7.
        (337, BAD_SDR1, 65535, 2),
    ] {
        line(rt, number, clear(sdr1, length) == Some(expected))?;
    }
    Ok(())
}

// Map's arguments out of range: VSID, page index, RPN, WIMG and PP.
pub fn map_arguments(rt: &impl Print) -> io::Result<()> {
    for (number, vsid, index, rpn, wimg, pp) in [
        // Map: 6 by each argument just past its range, and by WIMG with W and I. Source: rules 6.
        (338, 0x1000000, INDEX, 1, 2, 2),
        (339, VSID, 0x10000, 1, 2, 2),
        (340, VSID, INDEX, 0x100000, 2, 2),
        (341, VSID, INDEX, 1, 16, 2),
        (342, VSID, INDEX, 1, 2, 4),
        (343, VSID, INDEX, 1, 12, 2),
        (344, VSID, INDEX, 1, 13, 2),
        (345, VSID, INDEX, 1, 14, 2),
        (346, VSID, INDEX, 1, 15, 2),
    ] {
        let mut table = [0u8; 65536];
        let result = mmu::mmu_map(SDR1, vsid, index, rpn, wimg, pp, &mut table);
        line(rt, number, result == 6 && table == [0; 65536])?;
    }
    Ok(())
}

// The number of a refused map of the page.
fn map(scene: Scene, rpn: u32, sdr1: u32, length: usize) -> Option<u32> {
    refused(
        scene,
        length,
        |table| mmu::mmu_map(sdr1, VSID, INDEX, rpn, 2, 2, table),
    )
}

// Maps: the table, RPN, SDR1, the table's length, and the number.
pub fn maps(rt: &impl Print) -> io::Result<()> {
    for (number, scene, rpn, sdr1, length, expected) in [
        // Map: each refusal alone (6, 2, 1, 7, 9). Source: rules 7.
        (347, Empty, 0x100000, SDR1, 65536, 6),
        (348, Empty, 1, BAD_SDR1, 65536, 2),
        (349, Empty, 1, SDR1, 65535, 1),
        (350, Mapped, 1, SDR1, 65536, 7),
        (351, Contradicting, 1, SDR1, 65536, 7),
        (352, Full, 1, SDR1, 65536, 9),
        // Map: 6 before 2, 1, 7, 9; 2 before 1, 7, 9; 1 before 7, 9; 7 before 9. Source: rules 7.
        (353, Empty, 0x100000, BAD_SDR1, 65536, 6),
        (354, Empty, 0x100000, SDR1, 65537, 6),
        (355, Mapped, 0x100000, SDR1, 65536, 6),
        (356, Full, 0x100000, SDR1, 65536, 6),
        (357, Empty, 1, BAD_SDR1, 65535, 2),
        (358, Mapped, 1, BAD_SDR1, 65536, 2),
        (359, Full, 1, BAD_SDR1, 65536, 2),
        (360, Mapped, 1, SDR1, 131072, 1),
        (361, Full, 1, SDR1, 131072, 1),
        (362, FullMapped, 1, SDR1, 65536, 7),
    ] {
        line(rt, number, map(scene, rpn, sdr1, length) == Some(expected))?;
    }
    Ok(())
}

// The number of a refused call that is lent so many bytes of an answer too; none where the answer is not as a refusal leaves it.
fn refused_answer<F: FnOnce(&mut [u8], &mut [u8]) -> u32>(
    scene: Scene,
    length: usize,
    lent: usize,
    call: F,
) -> Option<u32>
    requires { F.IsAlwaysCallable call }
{
    let mut answer = [0xAAu8; 20];
    let part = &mut answer[..lent.min(20)];
    let number = refused(scene, length, |table| call(table, part))?;
    answer_refused(&answer, number).then_some(number)
}

// The number of a refused unmap.
fn unmap(scene: Scene, lent: usize, index: u32, sdr1: u32, length: usize) -> Option<u32> {
    refused_answer(scene, length, lent, |table, answer| {
        mmu::mmu_unmap(sdr1, VSID, index, table, answer)
    })
}

// Unmaps: the table, the answer's length, page index, SDR1, the table's length, and the number.
pub fn unmaps(rt: &impl Print) -> io::Result<()> {
    for (number, scene, lent, index, sdr1, length, expected) in [
        // Unmap: each refusal alone (11 at four lengths, 6, 2, 1, 8). Source: rules 7.
        (363, Mapped, 15, INDEX, SDR1, 65536, 11),
        (364, Mapped, 17, INDEX, SDR1, 65536, 11),
        (365, Mapped, 0, INDEX, SDR1, 65536, 11),
        (366, Mapped, 20, INDEX, SDR1, 65536, 11),
        (367, Mapped, 16, 0x10000, SDR1, 65536, 6),
        (368, Mapped, 16, INDEX, BAD_SDR1, 65536, 2),
        (369, Mapped, 16, INDEX, SDR1, 65535, 1),
        (370, Empty, 16, INDEX, SDR1, 65536, 8),
        (371, Full, 16, INDEX, SDR1, 65536, 8),
        // Unmap: 11 before 6, 2, 1, 8; 6 before 2, 1, 8; 2 before 1, 8; 1 before 8. Source: rules 7.
        (372, Mapped, 15, 0x10000, SDR1, 65536, 11),
        (373, Mapped, 15, INDEX, BAD_SDR1, 65536, 11),
        (374, Mapped, 15, INDEX, SDR1, 65535, 11),
        (375, Empty, 15, INDEX, SDR1, 65536, 11),
        (376, Mapped, 16, 0x10000, BAD_SDR1, 65536, 6),
        (377, Mapped, 16, 0x10000, SDR1, 65535, 6),
        (378, Empty, 16, 0x10FFA, SDR1, 65536, 6),
        (379, Mapped, 16, INDEX, BAD_SDR1, 65535, 2),
        (380, Empty, 16, INDEX, BAD_SDR1, 65536, 2),
        (381, Empty, 16, INDEX, SDR1, 131072, 1),
    ] {
        let result = unmap(scene, lent, index, sdr1, length);
        line(rt, number, result == Some(expected))?;
    }
    Ok(())
}

// The number of a refused protect.
fn protect(scene: Scene, vsid: u32, pp: u32, sdr1: u32, length: usize) -> Option<u32> {
    refused(
        scene,
        length,
        |table| mmu::mmu_protect(sdr1, vsid, INDEX, pp, table),
    )
}

// Protects: the table, VSID, PP, SDR1, the table's length, and the number.
pub fn protects(rt: &impl Print) -> io::Result<()> {
    for (number, scene, vsid, pp, sdr1, length, expected) in [
        // Protect: each refusal alone (6 by VSID and twice by PP, 2, 1, 8). Source: rules 7.
        (382, Mapped, 0x1000000, 0, SDR1, 65536, 6),
        (383, Mapped, VSID, 4, SDR1, 65536, 6),
        (384, Mapped, VSID, 0xFFFFFFFF, SDR1, 65536, 6),
        (385, Mapped, VSID, 0, BAD_SDR1, 65536, 2),
        (386, Mapped, VSID, 0, SDR1, 65535, 1),
        (387, Empty, VSID, 0, SDR1, 65536, 8),
        // Protect: 6 before 2, 1, 8; 2 before 1, 8; 1 before 8. Source: rules 7.
        (388, Mapped, VSID, 4, BAD_SDR1, 65536, 6),
        (389, Mapped, VSID, 4, SDR1, 65535, 6),
        (390, Empty, VSID, 4, SDR1, 65536, 6),
        (391, Mapped, VSID, 0, BAD_SDR1, 65535, 2),
        (392, Empty, VSID, 0, BAD_SDR1, 65536, 2),
        (393, Empty, VSID, 0, SDR1, 131072, 1),
    ] {
        let result = protect(scene, vsid, pp, sdr1, length);
        line(rt, number, result == Some(expected))?;
    }
    Ok(())
}

// The number of a refused look.
fn look(scene: Scene, lent: usize, index: u32, sdr1: u32, length: usize) -> Option<u32> {
    refused_answer(scene, length, lent, |table, answer| {
        mmu::mmu_look(sdr1, VSID, index, table, answer)
    })
}

// Looks: the table, the answer's length, page index, SDR1, the table's length, and the number.
pub fn looks(rt: &impl Print) -> io::Result<()> {
    for (number, scene, lent, index, sdr1, length, expected) in [
        // Look: each refusal alone (11 twice, 6, 2, 1, 10, 8). Source: rules 7.
        (394, Mapped, 15, INDEX, SDR1, 65536, 11),
        (395, Mapped, 17, INDEX, SDR1, 65536, 11),
        (396, Mapped, 16, 0x10000, SDR1, 65536, 6),
        (397, Mapped, 16, INDEX, BAD_SDR1, 65536, 2),
        (398, Mapped, 16, INDEX, SDR1, 65535, 1),
        (399, Contradicting, 16, INDEX, SDR1, 65536, 10),
        (400, Empty, 16, INDEX, SDR1, 65536, 8),
        // Look: 11 before 6, 2, 1, 10, 8. Source: rules 7.
        (401, Mapped, 15, 0x10000, SDR1, 65536, 11),
        (402, Mapped, 15, INDEX, BAD_SDR1, 65536, 11),
        (403, Mapped, 15, INDEX, SDR1, 65535, 11),
        (404, Contradicting, 15, INDEX, SDR1, 65536, 11),
        (405, Empty, 15, INDEX, SDR1, 65536, 11),
        // Look: 6 before 2, 1, 10, 8; 2 before 1, 10, 8; 1 before 10, 8. Source: rules 7.
        (406, Mapped, 16, 0x10000, BAD_SDR1, 65536, 6),
        (407, Mapped, 16, 0x10000, SDR1, 65535, 6),
        (408, Contradicting, 16, 0x10FFA, SDR1, 65536, 6),
        (409, Empty, 16, 0x10FFA, SDR1, 65536, 6),
        (410, Mapped, 16, INDEX, BAD_SDR1, 65535, 2),
        (411, Contradicting, 16, INDEX, BAD_SDR1, 65536, 2),
        (412, Empty, 16, INDEX, BAD_SDR1, 65536, 2),
        (413, Contradicting, 16, INDEX, SDR1, 131072, 1),
        (414, Empty, 16, INDEX, SDR1, 131072, 1),
    ] {
        let result = look(scene, lent, index, sdr1, length);
        line(rt, number, result == Some(expected))?;
    }
    Ok(())
}
