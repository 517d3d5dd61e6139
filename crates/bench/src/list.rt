//! Lists an image whose text has about as many bytes as the first word says, a million where there
//! is none, and makes the image of that text again: the work behind bench/list.sh.
//!
//! The code is one loop of thirteen instructions, as often as it takes: with and without memory,
//! numbers and jumps. With a second word the text is made and no more.
use anyhow::anyhow;
use ia_code::Image;
use ia_code::image::MAX_CODE_BYTES;
use ia_list::{MAX_TEXT_BYTES, asm_text, list_text};
use pra_list::Seq;
use std::alloc::{AllocError, Global};

const CODE: [u8; 54] = [
    0xb9, 0x40, 0x42, 0x0f, 0x00, // MOV ECX, 1000000
    0x8b, 0x05, 0x00, 0x00, 0x00, 0x04, // MOV EAX, [04000000h]
    0x01, 0xc8, // ADD EAX, ECX
    0x50, // PUSH EAX
    0x6b, 0xd0, 0x03, // IMUL EDX, EAX, 3
    0x31, 0xc2, // XOR EDX, EAX
    0x5b, // POP EBX
    0x89, 0x1d, 0x00, 0x00, 0x00, 0x04, // MOV [04000000h], EBX
    0x8b, 0x84, 0x8d, 0x00, 0xff, 0xff, 0xff, // MOV EAX, [EBP+ECX*4-256]
    0x83, 0xe9, 0x01, // SUB ECX, 1
    0x81, 0xf9, 0x00, 0x00, 0x00, 0x00, // CMP ECX, 0
    0x0f, 0x85, 0xd5, 0xff, 0xff, 0xff, // JNE, back to the second instruction
    0x99, // CDQ
    0xc2, 0x08, 0x00, // RET 8
    0xcd, 0x20, // INT 20h
];

/// How long a text is where no word says it.
const BYTES: usize = 1_000_000;

fn code(alloc: Global, times: usize) -> Result<Vec<u8>, AllocError> {
    let mut code = Vec::new(alloc);
    for _ in 0..times {
        code.extend_from_slice(&CODE)?;
    }
    Ok(code)
}

fn listed(alloc: Global, times: usize) -> anyhow::Result<Vec<u8>> {
    let code = code(alloc, times)?;
    if code.is_empty() || code.len() > MAX_CODE_BYTES as usize {
        return Err(anyhow!("there is no image of this length"));
    }
    let image = Image {
        code: Seq::from_vec(code),
        data_words: 1,
    };
    list_text(alloc, &image).map_err(|_| anyhow!("the code is not listed"))
}

/// Lists so many bytes, a million where no word says it, and makes the image again if wanted.
pub fn measure(rt: &HostRuntime, word: Option<String>, back: bool) -> anyhow::Result<()> {
    let alloc = rt.alloc();
    let bytes = match word {
        Some(word) => word
            .parse::<usize>()
            .map_err(|_| anyhow!("the first word is a number"))?,
        None => BYTES,
    };
    let once = listed(alloc, 1)?.len();
    let text = listed(alloc, bytes / once.max(1))?;
    println!(rt; "{} bytes of text", text.len())?;
    if back {
        if text.len() > MAX_TEXT_BYTES {
            return Err(anyhow!("the text is too long"));
        }
        let image = asm_text(alloc, text.as_slice()).map_err(|_| anyhow!("no image"))?;
        println!(rt; "{} bytes of code", image.code.len())?;
    }
    Ok(())
}
