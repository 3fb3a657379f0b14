// The exported access: the lengths of what is lent, and the answer.
ghost use Rattle.std.specs.Prelude.{◌≡◌};
ghost use Rattle.theory_calls.specs.Request.{access};
ghost use Rattle.theory_calls.specs.OnBytes.{ended, on_bytes};

use numbers::Refusal;
use register_pages::RegisterPage;

// Translates one access and marks the entries that did it.
#[unsafe(no_mangle)]
pub extern "C" fn mmu_access(
    registers: &[u8],
    mode: u32,
    kind: u32,
    address: u32,
    length: u32,
    table: &mut [u8],
    answer: &mut [u8],
) -> u32
    ensures { ended result table.new answer.new ≡ on_bytes (access (record {
      registers = registers.entry.now;
      mode = mode;
      kind = kind;
      address = address;
      length = length;
      answer = answer.old;
    })) table.old }
{
    if !(registers::is_page(registers.len()) & (answer.len() == numbers::ACCESS_ANSWER_SIZE)) {
        return u32::from(Refusal::LentLength);
    }
    let page = RegisterPage { bytes: registers };
    let asked = table_access::Access {
        mode,
        kind,
        address,
        length,
    };
    // No cache is lent; it has no bytes and is no `Option` for the reason that `translate` gives.
    let mut none = [0u8; 8];
    table_access::translate(page, asked, table, &mut none[0..0], answer)
}
