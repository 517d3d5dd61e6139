// What is wrong with a source.

use ob_lex::LexFault;
use pra_base::{LimitKind, OutOfMemory};

/// A source that is no text of a well-formed module. Tokens and bytes are counted from 0; where
/// the token is the number of all tokens, the byte is the number of all bytes.
#[derive(Clone, Copy, Debug, PartialEq, Eq)]
pub enum SourceFault {
    /// Its first lexical fault.
    Lex(LexFault),
    /// The token that no module goes on with, and its first byte.
    Grammar(u32, u32),
    /// The number of the rule that is broken first, its token, and the first byte of that.
    Rule(u8, u32, u32),
}

/// A source that goes beyond a limit.
#[derive(Clone, Copy, Debug, PartialEq, Eq)]
pub enum LimitFault {
    /// What there is too much of, and how much there is.
    Count(LimitKind, u64),
    /// The token that nests too deep, and its first byte.
    Depth(u32, u32),
}

/// Why a source stands for no module.
#[derive(Clone, Copy, Debug, PartialEq, Eq)]
pub enum ReadFault {
    Source(SourceFault),
    Limit(LimitFault),
    OutOfMemory,
}

impl From<OutOfMemory> for ReadFault {
    ghost use Rattle.std.specs.Prelude.{◌≡◌};
    ghost use Rattle.ob_read.specs.declared.fault.ReadFault.TheVariants.{OutOfMemory};

    ghost from_gives = { λ _ e. e ≡ OutOfMemory };

    fn from(_: OutOfMemory) -> Self {
        ReadFault::OutOfMemory
    }
}
