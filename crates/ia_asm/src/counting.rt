// Placed code that may be more than an image has room for.

ghost use Rattle.std.specs.Prelude.{◌≡◌, ◌+◌, ◌<◌, ◌≤◌, ℕ, List, [], ◌∷◌, ◌++◌};
ghost use Rattle.std.specs.Prelude.{IfOk, IfErr, OnOk};
ghost use Rattle.ia_asm.specs.Assembly.{IsImageOf, IsCounted};
ghost use Rattle.ia_code.specs.Image.{max_code_bytes, max_data_words};
ghost use Rattle.ia_emit.specs.Code.{size, code_size};
ghost use Rattle.ia_emit.specs.Counts.{AreFew};
ghost use Rattle.ia_emit.specs.Emission.{emit_proc};
ghost use Rattle.ia_emit.specs.Operands.{IsSmall};
ghost use Rattle.pl_place.specs.declared.placed.LProc.{LProc};
ghost use Rattle.pl_place.specs.Valid.{IsPlaced};

use crate::assembly::Assembly;
use ia_code::Image;
use ia_code::image::MAX_CODE_BYTES;
use ia_emit::piece_of;
use pl_place::LProc;
use pra_base::OutOfMemory;
use std::alloc::Global;

/// The code of the procedures so far: counted, and assembled as long as an image has room for it.
#[derive(Debug, Drop)]
pub struct CountedAssembly {
    assembly: Assembly,
    /// How many bytes of code an image of all these procedures would have.
    bytes: u64,
}

// How many bytes the code of a procedure has.
fn bytes_of(alloc: Global, proc: &LProc) -> Result<u64, OutOfMemory>
    requires placed { IsPlaced proc.now }
    requires small { IsSmall proc.now }
    requires few { AreFew (proc.now ∷ []) }
    ensures { IfOk result (λ bytes. bytes ≡ size (emit_proc proc.now)) }
{
    let piece = piece_of(alloc, proc, 0)?;
    Ok(piece.bytes.len() as u64)
}

fn sum_of(bytes: u64, more: u64) -> Result<u64, OutOfMemory>
    ensures { IfOk result (λ sum. sum ≡ bytes + more) }
{
    bytes.checked_add(more).ok_or(OutOfMemory)
}

impl CountedAssembly {
    /// The start of a program with so many words of data.
    ///
    /// # Errors
    ///
    /// Where there is no memory for it.
    pub fn begin(alloc: Global, data_words: u32) -> Result<CountedAssembly, OutOfMemory>
        requires { data_words ≤ max_data_words }
        ensures { IfOk result (IsCounted [] data_words) }
    {
        let assembly = Assembly::begin(alloc, data_words)?;
        let bytes = assembly.bytes() as u64;
        Ok(CountedAssembly { assembly, bytes })
    }

    /// Adds the next procedure.
    ///
    /// # Errors
    ///
    /// Where there is no memory for it; then the assembly means nothing more.
    pub fn add(&mut self, alloc: Global, proc: &LProc) -> Result<(), OutOfMemory>
        requires placed { IsPlaced proc.now }
        requires small { IsSmall proc.now }
        requires few { AreFew (proc.now ∷ []) }
        requires counted { (procs : List LProc) × (words : ℕ) × IsCounted procs words self.old }
        ensures { (procs : List LProc) (words : ℕ) → IsCounted procs words self.old →
            OnOk result (IsCounted (procs ++ proc.now ∷ []) words self.new) }
    {
        let own = bytes_of(alloc, proc)?;
        let bytes = sum_of(self.bytes, own)?;
        if bytes > MAX_CODE_BYTES as u64 {
            self.bytes = bytes;
            return Ok(());
        }
        self.assembly.add(alloc, proc)?;
        self.bytes = bytes;
        Ok(())
    }

    /// The image, in which each call has its distance; it takes no memory.
    ///
    /// # Errors
    ///
    /// How many bytes of code there are, where an image has no room for so many.
    pub fn finish(self) -> Result<Image, u64>
        requires { (procs : List LProc) × (words : ℕ) × IsCounted procs words self }
        ensures image { (procs : List LProc) (words : ℕ) → IsCounted procs words self →
            IfOk result (IsImageOf procs words) }
        ensures count { (procs : List LProc) (words : ℕ) → IsCounted procs words self →
            IfErr result (λ count. (count ≡ code_size procs) × (max_code_bytes < count)) }
    {
        if self.bytes <= MAX_CODE_BYTES as u64 {
            Ok(self.assembly.finish())
        } else {
            Err(self.bytes)
        }
    }
}
