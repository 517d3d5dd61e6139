//! Certificates: costs and bounds of an allocation, with code, routes and prices, as JSON that
//! anybody can read and test. Code files: the code alone, with names, as JSON that front ends of
//! others may write.
//!
//! Promised: `cert_text` writes the text of a certificate, and reading it again answers that
//! certificate; `cert_read` answers the one certificate whose value some bytes are read as, or that
//! they are no JSON, or JSON of something else, each exactly where it is so. Want of memory may be
//! answered anywhere. The law `one_certificate` says that no value is that of two. `code_text` and
//! `code_read` promise the same of code files, and `one_code_file` says it.
//!
//! Read first `specs/Table`, the names and operands of instructions that writing and reading share,
//! then `specs/Form`, the JSON value of each part, and `specs/Whole`, what a text may hold and what
//! reading answers; `specs/CodeForm` and `specs/CodeWhole` are these of code files. A text is read
//! in one pass over its tokens, which builds the parts and no value: `specs/Streams` says what each
//! reader takes, and what it answers. The layer above uses `cert_text`, `cert_read`, `code_text`,
//! `code_read`, and the types of `certificate` and `codes`.
#![tactic(auto)]

mod cells;
mod certificate;
mod certs;
mod code_files;
mod code_reading;
mod code_writing;
mod codes;
mod figures;
pub mod laws;
mod line;
mod lists;
mod names;
mod objects;
mod passing;
mod reading;
mod table;
mod text;
mod writing;

pub use certificate::{CapAt, Cert, Certificate, CostWord, TieAt};
pub use code_files::{CodeFault, MAX_CODE_BYTES, code_read, code_text};
pub use codes::{CodeFile, NamedCode};
pub use text::{CertFault, MAX_CERT_BYTES, cert_read, cert_text};
