// Addresses by short calls.

ghost use Rattle.std.specs.Prelude.{◌≡◌, pos, None, Some};
ghost use Rattle.pra_base.specs.declared.code.Base.TheVariants as base;

use pra_base::{Addr, Base, VarId};

fn at(base: Base) -> Addr
    ensures { result ≡ record { base = base; offset = pos 0; index = None } }
{
    Addr {
        base,
        offset: 0,
        index: None,
    }
}

/// The data word of this number.
pub fn global(word: u32) -> Addr
    ensures { result ≡ record { base = base.Global word; offset = pos 0; index = None } }
{
    at(Base::Global(word))
}

/// The aggregate word of this number.
pub fn frame(word: u32) -> Addr
    ensures { result ≡ record { base = base.Frame word; offset = pos 0; index = None } }
{
    at(Base::Frame(word))
}

/// The cell of this argument.
pub fn cell(argument: u32) -> Addr
    ensures { result ≡ record { base = base.Cell argument; offset = pos 0; index = None } }
{
    at(Base::Cell(argument))
}

/// Where the address in the variable points.
pub fn via(var: VarId) -> Addr
    ensures { result ≡ record { base = base.Via var; offset = pos 0; index = None } }
{
    at(Base::Via(var))
}

/// The address with this offset in bytes.
pub fn plus(addr: Addr, offset: i32) -> Addr
    ensures { result ≡ record addr { offset = offset } }
{
    Addr { offset, ..addr }
}

/// The address with a variable that counts words.
pub fn by(addr: Addr, index: VarId) -> Addr
    ensures { result ≡ record addr { index = Some index } }
{
    Addr {
        index: Some(index),
        ..addr
    }
}
