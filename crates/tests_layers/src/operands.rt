// The operand table, a line an instruction.

use pra_base::{Mask, OutOfMemory};
use sketch::instruction;
use std::alloc::Global;
use std::process::Abort;
use vc_code::{OperandRow, Role, operands};

// The letters of a mask: a to f are EAX, ECX, EDX, EBX, ESI and EDI, M is memory, K is a constant,
// and A to F are the both places of the registers. Behind `=` stands what is read, behind `>` what
// is written, behind `!` which registers hold nothing afterwards; `*` is the memory pair.
const ROWS: &str = "set v0 5= > v0 abcdefM
copy v0 v1= v1 abcdefMABCDEF* > v0 abcdefM*
add v0 v1= v0 abcdefM* v1 abcdefMKABCDEF* > v0 abcdefM
sub v0 v1= v0 abcdefM* v1 abcdefMKABCDEF* > v0 abcdefM
and v0 v1= v0 abcdefM* v1 abcdefMKABCDEF* > v0 abcdefM
or v0 v1= v0 abcdefM* v1 abcdefMKABCDEF* > v0 abcdefM
xor v0 v1= v0 abcdefM* v1 abcdefMKABCDEF* > v0 abcdefM
mul v0 v1= v0 abcdef v1 abcdefMKABCDEF > v0 abcdef
neg v0= v0 abcdefM > v0 abcdefM
shl v0 3= v0 abcdefM > v0 abcdefM
sar v0 31= v0 abcdefM > v0 abcdefM
cmp v0 v1= v0 abcdefMABCDEF* v1 abcdefMKABCDEF*
cmpset l v2 v0 v1= v0 abcdefMABCDEF* v1 abcdefMKABCDEF* > v2 abcd
divmod v0 v1 v2 v3= v2 aA v3 bdefMBDEF > v0 a v1 c
check v0 9= v0 abcdefMABCDEF
checkpos v0= v0 abcdefMABCDEF
load v0 global 1= > v0 abcdef
load v0 frame 1 4 v1= v1 abcdefABCDEF > v0 abcdef
load v0 via v1 0 v2= v1 abcdefABCDEF v2 abcdefABCDEF > v0 abcdef
store v0 cell 1= v0 abcdefKABCDEF
store v0 via v1 0 v2= v1 abcdefABCDEF v2 abcdefABCDEF v0 abcdefKABCDEF
addr v0 via v1= v1 abcdefABCDEF > v0 abcdef
push v0= v0 abcdefMKABCDEF
call 1= !abc
read v0= > v0 a
write v0= v0 aA
line=
clear= !b
add v0 v0= v0 abcdef* v0 abcdef* > v0 abcdef
cmp v0 v0= v0 abcdefABCDEF* v0 abcdefABCDEF*
mul v0 v0= v0 abcdef v0 abcdef > v0 abcdef
load v0 via v0= v0 abcdef > v0 abcdef
load v0 via v1 0 v1= v1 abcdefABCDEF v1 abcdefABCDEF > v0 abcdef
";

const LETTERS: &str = "abcdefMKABCDEF";

fn push_places(text: &mut String, mask: Mask) -> Result<(), OutOfMemory> {
    let mut left = mask;
    for letter in LETTERS.chars() {
        if left % 2 == 1 {
            text.push(letter)?;
        }
        left /= 2;
    }
    Ok(())
}

fn push_roles(alloc: Global, text: &mut String, roles: &[Role]) -> Result<(), OutOfMemory> {
    for role in roles {
        let number = role.var.0;
        text.push_str(&format!(in alloc; " v{number} ")?)?;
        push_places(text, role.mask)?;
        if role.memory {
            text.push_str("*")?;
        }
    }
    Ok(())
}

fn printed(alloc: Global, row: &OperandRow) -> Result<String, OutOfMemory> {
    let mut text = String::new(alloc);
    push_roles(alloc, &mut text, row.reads.as_slice())?;
    if !row.writes.as_slice().is_empty() {
        text.push_str(" >")?;
        push_roles(alloc, &mut text, row.writes.as_slice())?;
    }
    if row.clobbers != 0 {
        text.push_str(" !")?;
        push_places(&mut text, Mask::from(row.clobbers))?;
    }
    Ok(text)
}

fn check_rows(rt: &impl Abort, alloc: Global) -> Result<(), OutOfMemory> {
    for line in ROWS.lines() {
        let (code, expected) = line.split_once('=').unwrap_or((line, ""));
        match instruction(code) {
            Some(i) => {
                let text = printed(alloc, &operands(&i))?;
                assert_eq!(rt; text.as_str(), expected, "{code}");
            }
            None => assert!(rt; false, "{code}"),
        }
    }
    Ok(())
}

#[test]
fn operand_table(rt: HostRuntime) -> Result<(), OutOfMemory> {
    check_rows(&rt, rt.alloc())
}
