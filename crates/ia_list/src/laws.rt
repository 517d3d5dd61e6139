// Laws of texts. Each function is a law: its contract is the statement, and it does nothing.

ghost use Rattle.std.specs.Prelude.{◌≡◌, ◌≢◌, ℕ, ◌*◌, ◌<◌, ◌≤◌, ◌^◌, List, ◌++◌, length, Some, Ok};
ghost use Rattle.std.specs.Prelude.{Err};
ghost use Rattle.std.specs.Prelude.{Result};
ghost use Rattle.ia_code.specs.declared.image.Image.{Image};
ghost use Rattle.ia_code.specs.declared.ins.Ins.{Ins};
ghost use Rattle.ia_code.specs.DecodeTable.{IsSound};
ghost use Rattle.ia_code.specs.Image.{IsImage};
ghost use Rattle.ia_list.specs.declared.assembly.TheConstants as assembly;
ghost use Rattle.ia_list.specs.declared.assembly.AsmFault.{AsmFault};
ghost use Rattle.ia_list.specs.declared.assembly.AsmFault.TheVariants as fault;
ghost use Rattle.ia_list.specs.Text.{line};
ghost use Rattle.ia_list.specs.ListText.{IsListText, StopsAt, max_text_bytes, Assembles};

/// Lines at one place that begin the same bytes are of one instruction.
pub fn one_instruction()
    ensures { (place : ℕ) (i j : Ins) (a b : List ℕ) → place < 2 ^ 31 → IsSound i → IsSound j →
        line place i ++ a ≡ line place j ++ b → (i ≡ j) × (a ≡ b) }
{}

/// An image has one text, or there is one place at which its code stops, and never both.
pub fn one_text()
    ensures text { (image : Image) (a b : List ℕ) →
        IsListText image a → IsListText image b → a ≡ b }
    ensures place { (code : List ℕ) (p q : ℕ) → StopsAt code p → StopsAt code q → p ≡ q }
    ensures not_both { (image : Image) (text : List ℕ) (place : ℕ) →
        IsListText image text → StopsAt image.code place → ⊥ }
{}

/// Some bytes have one answer, but for want of memory: they are the text of one image, or have one
/// first bad line, or are a first line alone.
pub fn one_answer()
    ensures { (bytes : List ℕ) → length bytes ≤ max_text_bytes → (a b : Result Image AsmFault) →
        Assembles bytes a → Assembles bytes b →
        a ≢ Err fault.OutOfMemory → b ≢ Err fault.OutOfMemory → a ≡ b }
{}

/// What an image is listed as gives that image, and an image that a text gives is listed as that
/// text.
pub fn listing_round_trip()
    ensures back { (image : Image) (text : List ℕ) → IsImage image → IsListText image text →
        length text ≤ max_text_bytes → (answer : Result Image AsmFault) → Assembles text answer →
        answer ≢ Err fault.OutOfMemory → answer ≡ Ok image }
    ensures again { (image : Image) (text : List ℕ) → Assembles text (Ok image) →
        (other : List ℕ) → IsListText image other → other ≡ text }
{}

/// The code of a text is less than half as long as the text.
pub fn code_is_short()
    ensures { (image : Image) (text : List ℕ) → IsListText image text →
        2 * length image.code < length text }
{}

/// The constant of the code is the number of the definitions.
pub fn constant_is_defined()
    ensures { assembly.MAX_TEXT_BYTES ≡ max_text_bytes }
{}
