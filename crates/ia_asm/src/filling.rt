// Filling in the distances of calls.

ghost use Rattle.std.specs.Prelude.{◌≡◌, ◌+◌, ◌≤◌, length};
ghost use Rattle.ia_code.specs.DecodeTable.{imm32};
ghost use Rattle.ia_code.specs.Image.{max_code_bytes};
ghost use Rattle.ia_emit.specs.Open.{Within, filled, overwritten};
ghost use Rattle.ia_asm.specs.Assembly.{entry_in};

use ia_emit::{CallSite, distance};

/// Writes a number of 32 bits over the bytes at a place.
fn overwrite(code: &mut [u8], place: usize, n: i32)
    requires { place + 4 ≤ length code.old }
    ensures { code.new ≡ overwritten place (imm32 n) code.old }
{
    code[place..place + 4].copy_from_slice(&n.to_le_bytes());
}

/// Gives each call its distance, where procedures begin at these places; one that is not there
/// begins where the code ends.
pub fn fill(code: &mut [u8], calls: &[CallSite], entries: &[u32])
    requires within { Within 0 (length code.old) calls.now }
    requires short { length code.old ≤ max_code_bytes }
    ensures { let starts = entry_in entries.now (length code.old) in
        code.new ≡ filled starts 0 calls.now code.old }
{
    let end = code.len() as u32;
    for call in calls {
        let entry = entries.get(call.callee.0 as usize).copied();
        let to = entry.unwrap_or(end);
        overwrite(code, call.place as usize, distance(call.place + 4, to));
    }
}
