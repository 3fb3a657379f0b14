// What an answer is held to.

// Whether bytes begin with these words, big-endian.
pub fn begins_with(bytes: &[u8], words: &[u32]) -> bool {
    let mut rest = bytes;
    for word in words {
        match rest.strip_prefix(&word.to_be_bytes()) {
            Some(further) => rest = further,
            None => return false,
        }
    }
    true
}

// Whether the answer of an access begins with this result and ends with these four words, the record of the rule that decided.
pub fn record_is(answer: &[u8; 48], res: u32, record: [u32; 4]) -> bool {
    begins_with(answer, &[res]) && begins_with(&answer[32..], &record)
}

// The first eight words of the answer of an access to one byte, of which these three come first: it has no second page, and the byte is in the first
// where it is done.
pub fn of_byte(three: [u32; 3], address: u32) -> [u32; 8] {
    let [res, word, third] = three;
    let byte = if res == 0 { 1 } else { 0 };
    [res, word, third, address, 0, 0, byte, 0]
}

// Whether a refusal left bytes, of which all but the last four were lent for an answer, as it should: at 11 as they were, else the number, zeros, and the
// last four as they were.
pub fn answer_refused(bytes: &[u8], number: u32) -> bool {
    if number == 11 {
        return bytes.iter().all(|byte| *byte == 0xAA);
    }
    match bytes {
        [a, b, c, d, zeros @ .., 0xAA, 0xAA, 0xAA, 0xAA] => {
            u32::from_be_bytes([*a, *b, *c, *d]) == number && zeros.iter().all(|byte| *byte == 0)
        }
        _ => false,
    }
}
