// Laws of instructions, lists of them, and images. Each function is a law: its contract is the
// statement, and it does nothing.

ghost use Rattle.std.specs.Prelude.{◌≡◌, ◌↔◌, ℕ, ◌+◌, ◌≤◌, List, [], ◌∷◌, ◌++◌, length, take, drop};
ghost use Rattle.std.specs.Prelude.{Some};
ghost use Rattle.pra_base.specs.declared.event.TrapKind.{TrapKind};
ghost use Rattle.pra_base.specs.Words.{stack_limit};
ghost use Rattle.ia_code.specs.declared.ins.Ins.{Ins};
ghost use Rattle.ia_code.specs.declared.image.Image.{Image};
ghost use Rattle.ia_code.specs.declared.image.TheConstants as image;
ghost use Rattle.ia_code.specs.declared.regions.TheConstants as regions;
ghost use Rattle.ia_code.specs.declared.services.Service.{Service};
ghost use Rattle.ia_code.specs.DecodeTable.{Row, IsBytes, IsSound, IsCode, bytes_of};
ghost use Rattle.ia_code.specs.Reading.{decoded};
ghost use Rattle.ia_code.specs.Listing.{IsListing, bytes_of_all};
ghost use Rattle.ia_code.specs.Image.{IsImage, number, magic, version, header_bytes};
ghost use Rattle.ia_code.specs.Image.{image_bytes_of};
ghost use Rattle.ia_code.specs.Image.{max_code_bytes, max_data_words};
ghost use Rattle.ia_code.specs.Regions.{code_base, data_base, stack_base, stack_top, stack_length};
ghost use Rattle.ia_code.specs.Regions.{reserve};
ghost use Rattle.ia_code.specs.Services.{service_number, service_of, trap_number, trap_of};

/// No two rows give one instruction to two strings of bytes.
pub fn one_spelling()
    ensures { (a b : List ℕ) (i : Ins) (m n : ℕ) → Row a i m → Row b i n → (a ≡ b) × (m ≡ n) }
{}

/// Two rows that begin the same bytes are one: no row's bytes begin another's, and they determine
/// the instruction.
pub fn one_row()
    ensures { (a b x y : List ℕ) (i j : Ins) (m n : ℕ) →
        Row a i m → Row b j n → a ++ x ≡ b ++ y → (a ≡ b) × (i ≡ j) × (m ≡ n) }
{}

/// What is read at the front of some bytes is a row's, and what is a row's is read.
pub fn reading_is_the_table()
    ensures { (bytes : List ℕ) → IsBytes bytes → (i : Ins) (n : ℕ) →
        (decoded bytes ≡ Some (i, n)) ↔ Row (take n bytes) i n }
{}

/// What is encoded is decoded, whatever follows.
pub fn round_trip()
    ensures { (i : Ins) → IsSound i → (rest : List ℕ) →
        decoded (bytes_of i ++ rest) ≡ Some (i, length (bytes_of i)) }
{}

/// An encoding has 1 to 11 bytes.
pub fn code_size()
    ensures { (i : Ins) → IsSound i → IsCode (bytes_of i) }
{}

/// Bytes are those of at most one list of instructions.
pub fn one_listing()
    ensures { (bytes : List ℕ) (is js : List Ins) →
        IsListing bytes is → IsListing bytes js → is ≡ js }
{}

/// Each instruction of a list is decoded where those before it end.
pub fn each_at_its_place()
    ensures { (bytes : List ℕ) (before : List Ins) (i : Ins) (behind : List Ins) →
        IsListing bytes (before ++ i ∷ behind) →
        decoded (drop (length (bytes_of_all before)) bytes) ≡ Some (i, length (bytes_of i)) }
{}

/// An image file holds one image.
pub fn one_image()
    ensures { (a b : Image) → IsImage a → IsImage b → image_bytes_of a ≡ image_bytes_of b → a ≡ b }
{}

/// A service and a trap are those of their numbers.
pub fn numbers_are_read_back()
    ensures service { (s : Service) → service_of (service_number s) ≡ Some s }
    ensures trap { (k : TrapKind) → trap_of (trap_number k) ≡ Some k }
{}

/// The stack region is what the frames may take, above the reserve.
pub fn stack_holds_the_frames()
    ensures length { stack_length ≡ reserve + stack_limit }
    ensures top { stack_top ≡ stack_base + stack_length }
{}

/// The constants of the code are the numbers of the definitions.
pub fn constants_are_defined()
    ensures code_base { regions.CODE_BASE ≡ code_base }
    ensures data_base { regions.DATA_BASE ≡ data_base }
    ensures stack_base { regions.STACK_BASE ≡ stack_base }
    ensures stack_top { regions.STACK_TOP ≡ stack_top }
    ensures stack_length { regions.STACK_LENGTH ≡ stack_length }
    ensures reserve { regions.RESERVE ≡ reserve }
    ensures magic { image.MAGIC ≡ magic }
    ensures letters { number magic ≡ 0x50 ∷ 0x52 ∷ 0x41 ∷ 0x49 ∷ [] }
    ensures version { image.VERSION ≡ version }
    ensures header { image.HEADER_BYTES ≡ header_bytes }
    ensures code { image.MAX_CODE_BYTES ≡ max_code_bytes }
    ensures data_words { image.MAX_DATA_WORDS ≡ max_data_words }
{}
