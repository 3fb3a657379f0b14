// The exported rights: the lengths of what is lent, and what is told of the three kinds of access.
ghost use Rattle.std.specs.Prelude.{◌≡◌, [], ◌∷◌, ◌++◌, length};
ghost use Rattle.words.specs.Words.{bytes_of};
ghost use Rattle.theory_calls.specs.Answers.{access_answer};
ghost use Rattle.access_rights.specs.Rights.{rights_size, rights_call};

use access_rights::Rights;
use numbers::Refusal;
use register_pages::RegisterPage;

// Writes three answers and the marks of each.
fn write_rights(answer: &mut [u8], told: Rights)
    requires { length answer.old ≡ rights_size }
    ensures { answer.new ≡ access_answer told.fetch.told
        ++ (access_answer told.load.told ++ (access_answer told.store.told
        ++ bytes_of (told.fetch.marks ∷ told.load.marks ∷ told.store.marks ∷ []))) }
{
    let fetch = told.fetch;
    let load = told.load;
    let store = told.store;
    table_access::tell(&mut answer[0..48], fetch.told);
    table_access::tell(&mut answer[48..96], load.told);
    table_access::tell(&mut answer[96..144], store.told);
    let marks = [fetch.marks, load.marks, store.marks];
    words::write_words(&mut answer[144..156], &marks);
}

// Tells what a fetch, a load and a store at an address would come to, and marks nothing.
#[unsafe(no_mangle)]
pub extern "C" fn mmu_rights(
    registers: &[u8],
    mode: u32,
    address: u32,
    table: &[u8],
    answer: &mut [u8],
) -> u32
    ensures { (result, answer.new)
        ≡ rights_call (record { registers = registers.entry.now; mode = mode; address = address }) answer.old table.now }
{
    if answer.len() != access_rights::SIZE {
        return u32::from(Refusal::LentLength);
    }
    let Ok(page) = RegisterPage::new(registers) else {
        return u32::from(Refusal::LentLength);
    };
    match access_rights::tell(page, mode, address, table) {
        Ok(told) => {
            write_rights(answer, told);
            numbers::DONE
        }
        Err(refusal) => {
            write_rights(answer, Rights::refused(refusal));
            u32::from(refusal)
        }
    }
}
