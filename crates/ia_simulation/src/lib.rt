//! The machine does what placed code does.
//!
//! `specs/Frames` says where the words of live calls stand in the stack, and which number a value
//! is for the machine: an address follows from the bytes of the frames alone. `specs/Realizes`
//! relates a state of placed code's machine to one of the IA-32 machine over the bytes of its code:
//! registers, slots, argument cells, aggregates and data, EIP at the first byte of the instruction
//! that the running call stands before, and flags between CMP and their use.
//!
//! `laws` has what follows. Each instruction, move and end is carried: wherever the machine stands
//! for placed code, some steps of it lead to where it stands for the next state, or both trap. So
//! `image_follows`: the machine over a loaded image carries every step of valid placed code that is
//! never stuck, and never meets a fault; code that gets stuck it follows until then.
//! `listed_code_follows` says the same of an image as the assembler gives it (`IsLoaded`), and that
//! both agree: each ends as the other does, with the same events, or both go on.
//! `some_code_is_loadable` says that the premises are not empty.
//! `proofs/Steps` and `proofs/Ops` have what the instructions have in common; `proofs/Walks` is for
//! those that are several instructions of the machine.
#![tactic(auto)]

pub mod laws;
