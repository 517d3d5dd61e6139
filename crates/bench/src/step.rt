// Runs a loop of ten million steps on the machine and prints what came of it: the work behind
// bench/step.sh.

use anyhow::bail;
use ia_code::Image;
use ia_step::Machine;
use pra_list::Seq;

/// A loop of ten instructions that goes round a million times. It keeps a sum in the first
/// doubleword of data, which is written at the end.
const CODE: [u8; 50] = [
    0xb9, 0x40, 0x42, 0x0f, 0x00, // MOV ECX, 1000000
    0x8b, 0x05, 0x00, 0x00, 0x00, 0x04, // MOV EAX, [04000000h]
    0x01, 0xc8, // ADD EAX, ECX
    0x50, // PUSH EAX
    0x6b, 0xd0, 0x03, // IMUL EDX, EAX, 3
    0x31, 0xc2, // XOR EDX, EAX
    0x5b, // POP EBX
    0x89, 0x1d, 0x00, 0x00, 0x00, 0x04, // MOV [04000000h], EBX
    0x83, 0xe9, 0x01, // SUB ECX, 1
    0x83, 0xf9, 0x00, // CMP ECX, 0
    0x0f, 0x85, 0xdf, 0xff, 0xff, 0xff, // JNE, back to the first MOV EAX
    0x8b, 0x05, 0x00, 0x00, 0x00, 0x04, // MOV EAX, [04000000h]
    0xcd, 0x21, // INT 21h
    0xcd, 0x22, // INT 22h
    0xcd, 0x20, // INT 20h
];

const MOST_STEPS: u32 = 20_000_000;

/// Runs the loop, and prints what came of it.
pub fn measure(rt: &HostRuntime) -> anyhow::Result<()> {
    let image = Image {
        code: Seq::from_vec(CODE.to_vec(rt.alloc())?),
        data_words: 1,
    };
    let Ok(mut machine) = Machine::load(rt.alloc(), &image, Vec::new(rt.alloc())) else {
        bail!("no memory");
    };
    let Ok(out) = machine.run(rt.alloc(), MOST_STEPS) else {
        bail!("no memory");
    };
    println!(rt; "{:?} after {} steps", out.ending, out.steps)?;
    for event in out.events.as_slice() {
        println!(rt; "{event:?}")?;
    }
    Ok(())
}
