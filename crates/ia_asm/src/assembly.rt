// From placed code to an image, one procedure after the other.

ghost use Rattle.std.specs.Prelude.{◌≡◌, ℕ, ◌+◌, ◌≤◌, List, [], ◌∷◌, ◌++◌, length};
ghost use Rattle.std.specs.Prelude.{IfOk, OnOk, OnErr};
ghost use Rattle.ia_code.specs.Image.{IsImage, max_code_bytes, max_data_words};
ghost use Rattle.ia_emit.specs.Code.{size};
ghost use Rattle.ia_emit.specs.Emission.{emit_proc};
ghost use Rattle.ia_emit.specs.Operands.{IsSmall};
ghost use Rattle.ia_asm.specs.Assembly.{IsAssembly, IsImageOf, IsUnchanged, CanAssemble};
ghost use Rattle.pl_place.specs.declared.placed.LProc.{LProc};
ghost use Rattle.pl_place.specs.Valid.{IsPlaced};

use crate::filling::fill;
use ia_code::Image;
use ia_emit::{CallSite, front_piece, piece_of};
use pl_place::LProc;
use pra_base::OutOfMemory;
use pra_list::Seq;
use std::alloc::Global;

/// The code of the procedures so far. The distance of no call is filled in.
#[derive(Debug, Drop)]
pub struct Assembly {
    code: Vec<u8>,
    calls: Vec<CallSite>,
    /// Where each procedure begins.
    entries: Vec<u32>,
    data_words: u32,
}

impl Assembly {
    /// The start of a program with so many words of data.
    ///
    /// # Errors
    ///
    /// Where there is no memory for it.
    pub fn begin(alloc: Global, data_words: u32) -> Result<Assembly, OutOfMemory>
        requires { data_words ≤ max_data_words }
        ensures { IfOk result (IsAssembly [] data_words) }
    {
        let front = front_piece(alloc)?;
        Ok(Assembly {
            code: front.bytes,
            calls: front.calls,
            entries: Vec::new(alloc),
            data_words,
        })
    }

    /// How many bytes of code there are so far.
    pub(crate) fn bytes(&self) -> usize
        ensures { result ≡ length self.now.code.items }
    {
        self.code.len()
    }

    /// Adds the next procedure.
    ///
    /// # Errors
    ///
    /// Where there is no memory for it; nothing has changed then.
    pub fn add(&mut self, alloc: Global, proc: &LProc) -> Result<(), OutOfMemory>
        requires placed { IsPlaced proc.now }
        requires small { IsSmall proc.now }
        requires room { length self.old.code.items + size (emit_proc proc.now) ≤ max_code_bytes }
        ensures ok { (procs : List LProc) (words : ℕ) → IsAssembly procs words self.old →
            OnOk result (IsAssembly (procs ++ proc.now ∷ []) words self.new) }
        ensures err { OnErr result (IsUnchanged self.old self.new) }
    {
        let at = self.code.len() as u32;
        let piece = piece_of(alloc, proc, at)?;
        self.entries.reserve(1)?;
        self.calls.reserve(piece.calls.len())?;
        self.code.extend_from_slice(piece.bytes.as_slice())?;
        self.calls.extend_from_slice(piece.calls.as_slice())?;
        self.entries.push(at)?;
        Ok(())
    }

    /// The image, in which each call has its distance. It takes no memory.
    pub fn finish(self) -> Image
        requires { (procs : List LProc) × (words : ℕ) × IsAssembly procs words self }
        ensures valid { IsImage result }
        ensures image { (procs : List LProc) (words : ℕ) → IsAssembly procs words self →
            IsImageOf procs words result }
    {
        let Assembly {
            mut code,
            calls,
            entries,
            data_words,
        } = self;
        fill(&mut code, &calls, &entries);
        Image {
            code: Seq::from_vec(code),
            data_words,
        }
    }
}

/// The image of placed code, of which procedure 0 is the body.
///
/// # Errors
///
/// Where there is no memory for it.
pub fn assemble(alloc: Global, procs: &[LProc], data_words: u32) -> Result<Image, OutOfMemory>
    requires procs { CanAssemble procs.now }
    requires data_words { data_words ≤ max_data_words }
    ensures { IfOk result (IsImageOf procs.now data_words) }
{
    let mut assembly = Assembly::begin(alloc, data_words)?;
    for proc in procs {
        assembly.add(alloc, proc)?;
    }
    Ok(assembly.finish())
}
