// Key and PP: word 9 is key times 4 plus PP in rules 5 and 6. The entry is at entry 0 of group 998.
use super::shown::{ADDRESS, primary, shows};
use std::io;
use test_report::asked::Asked;
use test_report::lent::{SDR1, registers};
use test_report::line;

// Whether an access by this segment register 0 in this mode to the page with this PP has this result and shows this rule and detail.
fn by_key(segment: u32, mode: u32, kind: u32, pp: u32, res: u32, shown: [u32; 2]) -> bool {
    let page = registers(&[(0, SDR1), (1, segment)]);
    let entry = primary(0, 0x12345010 | pp);
    let [rule, detail] = shown;
    let asked = Asked::byte(mode, kind, ADDRESS);
    shows(page, asked, &[entry], res, [rule, detail, 998, 0])
}

// Whether an access with this key, of the supervisor, is stopped by page protection.
fn stopped(key: u32, kind: u32, pp: u32, detail: u32) -> bool {
    let segment = if key == 0 { 0x000C701C } else { 0x400C701C };
    let result = if kind == 0 { 65 } else { 64 };
    by_key(segment, 3, kind, pp, result, [5, detail])
}

// Rule 5.
pub fn not_allowed(rt: &impl Print) -> io::Result<()> {
    for (number, key, kind, pp, detail) in [
        // Page protection is shown with key and PP: key 0, a store of PP 3; key 1, a fetch, a load and a store of PP 0, stores of PP 1 and 3. Source: rules 5, step 6.
        (768, 0, 2, 3, 3),
        (769, 1, 0, 0, 4),
        (770, 1, 1, 0, 4),
        (771, 1, 2, 0, 4),
        (772, 1, 2, 1, 5),
        (773, 1, 2, 3, 7),
    ] {
        line(rt, number, stopped(key, kind, pp, detail))?;
    }
    Ok(())
}

// Whether an access with this key, of the user, is done.
fn done(key: u32, kind: u32, pp: u32, detail: u32) -> bool {
    let segment = if key == 0 { 0x000C701C } else { 0x200C701C };
    by_key(segment, 7, kind, pp, 0, [6, detail])
}

// Rule 6.
pub fn allowed(rt: &impl Print) -> io::Result<()> {
    for (number, key, kind, pp, detail) in [
        // A page done is shown with key and PP: key 0, loads of PP 0, 1, 2 and 3; key 1, a load of PP 1, a fetch of PP 2 and a load of PP 3. Source: rules 5, steps 6 and 7.
        (774, 0, 1, 0, 0),
        (775, 0, 1, 1, 1),
        (776, 0, 1, 2, 2),
        (777, 0, 1, 3, 3),
        (778, 1, 1, 1, 5),
        (779, 1, 0, 2, 6),
        (780, 1, 1, 3, 7),
        // A page done by a store, with key and PP: key 0, PP 0, 1 and 2; key 1, PP 2. Source: rules 5, steps 6 and 7.
        (781, 0, 2, 0, 0),
        (782, 0, 2, 1, 1),
        (783, 0, 2, 2, 2),
        (784, 1, 2, 2, 6),
    ] {
        line(rt, number, done(key, kind, pp, detail))?;
    }
    Ok(())
}

// Ks and Kp.
pub fn keys(rt: &impl Print) -> io::Result<()> {
    // The key is Ks for the supervisor and Kp for the user: Kp alone set, then Ks alone, each by a load of the supervisor and of the user. Source: rules 5, step 6.
    line(rt, 785, by_key(0x200C701C, 1, 1, 2, 0, [6, 2]))?;
    line(rt, 786, by_key(0x200C701C, 5, 1, 2, 0, [6, 6]))?;
    line(rt, 787, by_key(0x400C701C, 1, 1, 2, 0, [6, 6]))?;
    line(rt, 788, by_key(0x400C701C, 5, 1, 2, 0, [6, 2]))
}
