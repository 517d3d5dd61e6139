// Bytes and instructions worked out from the manual.

use ia_code::services::{trap_kind, trap_number};
use ia_code::{Service, decode, encode, is_sound};
use std::process::Abort;
use std::test::Fail;

/// Rows of the manual: the bytes, and the instruction as it is printed. Behind `#` stands what the
/// rows below have for operands.
const ROWS: &str = "\
# Registers
89e5 MovRmR(Reg(Ebp), Esp)
31c0 AluRmR(Xor, Reg(Eax), Eax)
29df AluRmR(Sub, Reg(Edi), Ebx)
39ce AluRmR(Cmp, Reg(Esi), Ecx)
0fafd3 ImulRRm(Edx, Reg(Ebx))
f7de Neg(Reg(Esi))
c1e003 Shift(Shl, Reg(Eax), 3)
c1ef1f Shift(Shr, Reg(Edi), 31)
c1fb01 Shift(Sar, Reg(Ebx), 1)
f7f9 Idiv(Reg(Ecx))
87c6 Xchg(Esi, Eax)
87ca Xchg(Edx, Ecx)
85db Test(Ebx, Ebx)
85c7 Test(Edi, Eax)
# A base
8910 MovRmR(Mem(MemAddr { base: Some(Eax), index: None, disp: 0, width: D0 }), Edx)
8b3e MovRRm(Edi, Mem(MemAddr { base: Some(Esi), index: None, disp: 0, width: D0 }))
090b AluRmR(Or, Mem(MemAddr { base: Some(Ebx), index: None, disp: 0, width: D0 }), Ecx)
# A base and 8 bits
034df0 AluRRm(Add, Ecx, Mem(MemAddr { base: Some(Ebp), index: None, disp: -16, width: D8 }))
83797fff AluRmB(Cmp, Mem(MemAddr { base: Some(Ecx), index: None, disp: 127, width: D8 }), -1)
8d65f4 Lea(Esp, MemAddr { base: Some(Ebp), index: None, disp: -12, width: D8 })
ff7780 PushM(MemAddr { base: Some(Edi), index: None, disp: -128, width: D8 })
8b4500 MovRRm(Eax, Mem(MemAddr { base: Some(Ebp), index: None, disp: 0, width: D8 }))
# A base and 32 bits
239580000000 AluRRm(And, Edx, Mem(MemAddr { base: Some(Ebp), index: None, disp: 128, width: D32 \
    }))
0faf827fffffff ImulRRm(Eax, Mem(MemAddr { base: Some(Edx), index: None, disp: -129, width: D32 }))
c7860000000407000000 MovRmI(Mem(MemAddr { base: Some(Esi), index: None, disp: 67108864, width: \
    D32 }), 7)
8b9d00000000 MovRRm(Ebx, Mem(MemAddr { base: Some(Ebp), index: None, disp: 0, width: D32 }))
# Base Esp
8b0424 MovRRm(Eax, Mem(MemAddr { base: Some(Esp), index: None, disp: 0, width: D0 }))
f75c2404 Neg(Mem(MemAddr { base: Some(Esp), index: None, disp: 4, width: D8 }))
c17c24080c Shift(Sar, Mem(MemAddr { base: Some(Esp), index: None, disp: 8, width: D8 }), 12)
ffb42400010000 PushM(MemAddr { base: Some(Esp), index: None, disp: 256, width: D32 })
# No base
8b0500000004 MovRRm(Eax, Mem(MemAddr { base: None, index: None, disp: 67108864, width: D32 }))
f73d10000004 Idiv(Mem(MemAddr { base: None, index: None, disp: 67108880, width: D32 }))
012dfcffffff AluRmR(Add, Mem(MemAddr { base: None, index: None, disp: -4, width: D32 }), Ebp)
# An index
8b048d00000004 MovRRm(Eax, Mem(MemAddr { base: None, index: Some((Ecx, 4)), disp: 67108864, \
    width: D32 }))
8d14f5f8ffffff Lea(Edx, MemAddr { base: None, index: Some((Esi, 8)), disp: -8, width: D32 })
c704050000000000000000 MovRmI(Mem(MemAddr { base: None, index: Some((Eax, 1)), disp: 0, width: \
    D32 }), 0)
# A base and an index
8b144b MovRRm(Edx, Mem(MemAddr { base: Some(Ebx), index: Some((Ecx, 2)), disp: 0, width: D0 }))
313438 AluRmR(Xor, Mem(MemAddr { base: Some(Eax), index: Some((Edi, 1)), disp: 0, width: D0 }), \
    Esi)
8b2cf4 MovRRm(Ebp, Mem(MemAddr { base: Some(Esp), index: Some((Esi, 8)), disp: 0, width: D0 }))
# A base, an index and 8 bits
c7448df000000000 MovRmI(Mem(MemAddr { base: Some(Ebp), index: Some((Ecx, 4)), disp: -16, width: \
    D8 }), 0)
2b5cd301 AluRRm(Sub, Ebx, Mem(MemAddr { base: Some(Ebx), index: Some((Edx, 8)), disp: 1, width: \
    D8 }))
6b7c6e7ffd ImulB(Edi, Mem(MemAddr { base: Some(Esi), index: Some((Ebp, 2)), disp: 127, width: \
    D8 }), -3)
# A base, an index and 32 bits
8b848d00010000 MovRRm(Eax, Mem(MemAddr { base: Some(Ebp), index: Some((Ecx, 4)), disp: 256, \
    width: D32 }))
81bc077fffffffe8030000 AluRmI(Cmp, Mem(MemAddr { base: Some(Edi), index: Some((Eax, 1)), disp: \
    -129, width: D32 }), 1000)
698c9c0000010070110100 ImulI(Ecx, Mem(MemAddr { base: Some(Esp), index: Some((Ebx, 4)), disp: \
    65536, width: D32 }), 70000)
# Numbers
bcfeffffff MovRI(Esp, -2)
b8ffffff7f MovRI(Eax, 2147483647)
83e901 AluRmB(Sub, Reg(Ecx), 1)
81fd00040008 AluRmI(Cmp, Reg(Ebp), 134218752)
6bd664 ImulB(Edx, Reg(Esi), 100)
69db7fffffff ImulI(Ebx, Reg(Ebx), -129)
6878563412 PushI(305419896)
# The stack, calls and jumps
55 PushR(Ebp)
57 PushR(Edi)
58 PopR(Eax)
5b PopR(Ebx)
99 Cdq
e817000000 Call(23)
c3 Ret
c20401 RetI(260)
e9fbffffff Jmp(-5)
0f8210000000 Jcc(B, 16)
0f85efffffff Jcc(Ne, -17)
0f8dffffff7f Jcc(Ge, 2147483647)
# Conditions
0f92c0 Set(B, Eax)
0f93c1 Set(Ae, Ecx)
0f94c2 Set(E, Edx)
0f95c3 Set(Ne, Ebx)
0f96c0 Set(Be, Eax)
0f97c1 Set(A, Ecx)
0f98c2 Set(S, Edx)
0f99c3 Set(Ns, Ebx)
0f9cc1 Set(L, Ecx)
0f9dc2 Set(Ge, Edx)
0f9ec3 Set(Le, Ebx)
0f9fc0 Set(G, Eax)
0fb6c1 Movzx(Eax, Ecx)
0fb6f3 Movzx(Esi, Ebx)
# Services
cd20 Int(32)
cd24 Int(36)";

/// Bytes that begin no instruction, the last row none.
const OTHERS: &str = "\
90
6689c0
0f9cc6
8b848d00

";

#[test]
fn rows_of_the_manual(rt: HostRuntime) -> Result<(), Fail> {
    for row in ROWS.lines() {
        let (digits, printed) = row.split_once(' ').ok_or("a row without its instruction")?;
        if digits == "#" {
            continue;
        }
        let bytes = hex::decode(rt.alloc(), digits.as_bytes()).map_err(|_| "no digits")?;
        let (i, len) = decode(&bytes, 0)?;
        assert_eq!(rt; len, bytes.len(), "at {printed}");
        let text = format!(in rt.alloc(); "{i:?}")?;
        assert_eq!(rt; text.as_str(), printed);
        assert!(rt; is_sound(&i), "at {printed}");
        assert_eq!(rt; encode(&i).as_slice(), bytes.as_slice(), "at {printed}");
        for end in 0..bytes.len() {
            assert!(rt;
                decode(&bytes[..end], 0).is_err(),
                "{end} bytes of {printed}"
            );
        }
    }
    for digits in OTHERS.lines() {
        let bytes = hex::decode(rt.alloc(), digits.as_bytes()).map_err(|_| "no digits")?;
        assert!(rt; decode(&bytes, 0).is_err(), "at {digits}");
    }
    Ok(())
}

/// Reads the front of some bytes: None, or the length of a row that encodes to them again.
fn row_length(rt: &impl Abort, bytes: &[u8]) -> Option<usize> {
    let (i, len) = decode(bytes, 0).ok()?;
    assert!(rt; is_sound(&i));
    assert!(rt; len <= bytes.len());
    assert_eq!(rt; encode(&i).as_slice(), &bytes[..len]);
    Some(len)
}

// Of one byte there are CDQ, RET and seven each of PUSH and POP. Of two, with a register for r/m:
// 64 each of MOV both ways, of the six operations both ways, of XCHG and TEST, and 8 each of NEG
// and IDIV; with a base alone, which is neither Esp nor Ebp: 48 each of MOV, of the operations and
// of LEA, and 6 each of NEG, IDIV and PUSH; and five INT.
#[test]
fn strings_of_two_bytes(rt: HostRuntime) {
    let mut short = 0u32;
    let mut whole = 0u32;
    for first in 0u8..=255 {
        for second in 0u8..=255 {
            match row_length(&rt, &[first, second]) {
                Some(1) => short = short.saturating_add(1),
                Some(_) => whole = whole.saturating_add(1),
                None => {}
            }
        }
    }
    assert_eq!(rt; short, 256 * (2 + 2 * 7));
    assert_eq!(rt;
        whole,
        64 * (2 + 12 + 2) + 8 * 2 + 48 * (2 + 12 + 1) + 6 * 3 + 5
    );
}

// Rows begin at 01 03 09 0b 21 29 2b 31 33 39 3b (the SIB byte 25, behind 23, has base Ebp and no
// index), at 50 to 5f without 54 and 5c, at 68 69 6b, 81 83, 89 8b 8d, 99, b8 to bf, c2 c3, e8 e9
// and f7.
#[test]
fn bytes_in_order(rt: HostRuntime) -> Result<(), Fail> {
    let mut bytes = Vec::new(rt.alloc());
    for b in 0u8..=255 {
        bytes.push(b)?;
    }
    let mut found = 0u32;
    for at in 0..bytes.len() {
        if row_length(&rt, &bytes[at..]).is_some() {
            found = found.saturating_add(1);
        }
    }
    assert_eq!(rt; found, 11 + 14 + 3 + 2 + 3 + 1 + 8 + 2 + 2 + 1);
    Ok(())
}

// INT calls the services 20h to 24h and no other, and a trap has a number from 1 to 4.
#[test]
fn services_and_traps(rt: HostRuntime) {
    for number in 0u8..=255 {
        let called = Service::from_number(number);
        assert_eq!(rt;
            called.is_some(),
            (0x20..=0x24).contains(&number),
            "at {number}"
        );
        assert_eq!(rt;
            decode(&[0xcd, number], 0).is_ok(),
            called.is_some(),
            "at {number}"
        );
        if let Some(service) = called {
            assert_eq!(rt; service.number(), number);
        }
    }
    for number in 0u32..8 {
        let kind = trap_kind(number);
        assert_eq!(rt; kind.is_some(), (1..=4).contains(&number), "at {number}");
        if let Some(kind) = kind {
            assert_eq!(rt; trap_number(kind), number);
        }
    }
}
