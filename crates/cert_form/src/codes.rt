// What a code file holds.

use pra_base::VProc;
use pra_list::Seq;

/// A procedure of a code file: its name, and its code.
#[derive(Debug, PartialEq, Eq, Drop)]
pub struct NamedCode {
    /// A letter, then letters and digits, of ASCII: 1 to 255 bytes. Names need not differ.
    pub name: Seq<u8>,
    pub code: VProc,
}

/// Selected code of procedures, procedure 0 the one where a run begins, and how many words of data
/// they share.
#[derive(Debug, PartialEq, Eq, Drop)]
pub struct CodeFile {
    /// At most 4,194,304.
    pub data_words: u32,
    /// The procedures, each at the index that the id of its code is.
    pub procs: Seq<NamedCode>,
}
