//! The image of placed code does what the code does, and carries what stands behind it.
//!
//! `laws` joins what the assembler answers (ia_asm), what its image does (ia_simulation), and what
//! its bytes are (`specs/Carries` of ia_emit). Whoever has assembled valid placed code within the
//! limits, at once or one procedure after the other, gets from `assembled_code_is_faithful` that
//! the image is valid, that it follows the placed code, until that gets stuck where it ever does,
//! and that it carries each code and flow behind it. `code_has_room` and `code_behind_has_limits`
//! give what the assembler asks for from the limits of a module, of placed code and of the code
//! behind it.
//!
//! Read first `specs/Faithful`.
#![tactic(auto)]

pub mod laws;
