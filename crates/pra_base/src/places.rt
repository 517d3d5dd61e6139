// Sets of places, and what a place is.

ghost use Rattle.std.specs.Prelude.{◌≡◌, ◌<◌, IsTrue, Some, None};
ghost use Rattle.pra_base.specs.Places.{number, has_register, is_both, register_of, is_mem};
ghost use Rattle.pra_base.specs.Places.{needs_slot, is_const, allows, meet, only, with_both};
ghost use Rattle.pra_base.specs.Places.{without, place_count, register_count, numbered};

use crate::ids::Place;

/// A set of places. Bit p stands for the place numbered p.
pub type Mask = u16;

const EAX: Mask = 1 << (Place::Eax as u16);

const ECX: Mask = 1 << (Place::Ecx as u16);

const EDX: Mask = 1 << (Place::Edx as u16);

const EBX: Mask = 1 << (Place::Ebx as u16);

const ESI: Mask = 1 << (Place::Esi as u16);

const EDI: Mask = 1 << (Place::Edi as u16);

/// The six registers, each alone.
pub const REGISTERS: Mask = EAX | ECX | EDX | EBX | ESI | EDI;

// The number of the first both place, which is that of register 0.
const FIRST_BOTH: u8 = Place::EaxM as u8;

/// The six both places.
pub const BOTH_PLACES: Mask = REGISTERS << FIRST_BOTH;

/// The registers with a low byte, which SETcc can write.
pub const BYTE_REGISTERS: Mask = EAX | ECX | EDX | EBX;

/// The variable's own memory alone.
pub const MEMORY: Mask = 1 << (Place::Mem as u16);

/// No place but the constant itself.
pub const CONSTANT: Mask = 1 << (Place::Const as u16);

/// Every place.
pub const EVERY: Mask = REGISTERS | MEMORY | CONSTANT | BOTH_PLACES;

impl Default for Place {
    fn default() -> Place {
        Place::Eax
    }
}

impl Place {
    /// The place's number, from 0.
    pub fn number(self) -> u8
        ensures value { result ≡ number self }
        ensures below { result < place_count }
    {
        match self {
            Place::Eax => 0,
            Place::Ecx => 1,
            Place::Edx => 2,
            Place::Ebx => 3,
            Place::Esi => 4,
            Place::Edi => 5,
            Place::Mem => 6,
            Place::Const => 7,
            Place::EaxM => 8,
            Place::EcxM => 9,
            Place::EdxM => 10,
            Place::EbxM => 11,
            Place::EsiM => 12,
            Place::EdiM => 13,
        }
    }

    /// The place of a number, or None where there is none.
    pub fn of_number(place: u8) -> Option<Place>
        ensures { result ≡ numbered place }
    {
        match place {
            0 => Some(Place::Eax),
            1 => Some(Place::Ecx),
            2 => Some(Place::Edx),
            3 => Some(Place::Ebx),
            4 => Some(Place::Esi),
            5 => Some(Place::Edi),
            6 => Some(Place::Mem),
            7 => Some(Place::Const),
            8 => Some(Place::EaxM),
            9 => Some(Place::EcxM),
            10 => Some(Place::EdxM),
            11 => Some(Place::EbxM),
            12 => Some(Place::EsiM),
            13 => Some(Place::EdiM),
            _ => None,
        }
    }

    /// Whether a value that stands here is in a register, alone or with memory.
    pub fn has_register(self) -> bool
        ensures { result ≡ has_register (number self) }
    {
        !matches!(self, Place::Mem | Place::Const)
    }

    /// Whether a value that stands here is in a register and in the variable's own memory at once.
    pub fn is_both(self) -> bool
        ensures { result ≡ is_both (number self) }
    {
        self.number() >= FIRST_BOTH
    }

    /// The register's number, from 0.
    pub fn register(self) -> u8
        requires { IsTrue (has_register (number self)) }
        ensures value { result ≡ register_of (number self) }
        ensures below { result < register_count }
    {
        if self.is_both() {
            self.number() - FIRST_BOTH
        } else {
            self.number()
        }
    }

    /// Whether a value that stands here is in the variable's own memory alone.
    pub fn is_mem(self) -> bool
        ensures { result ≡ is_mem (number self) }
    {
        matches!(self, Place::Mem)
    }

    /// Whether a local variable that comes here needs a slot in the frame.
    pub fn needs_slot(self) -> bool
        ensures { result ≡ needs_slot (number self) }
    {
        self.is_mem() || self.is_both()
    }

    /// Whether a variable that stands here is the constant itself.
    pub fn is_const(self) -> bool
        ensures { result ≡ is_const (number self) }
    {
        matches!(self, Place::Const)
    }
}

/// Whether the place is in the mask.
pub fn allows(mask: Mask, place: Place) -> bool
    ensures { result ≡ allows mask (number place) }
{
    (mask >> place.number()) & 1 == 1
}

/// The places that are in both masks.
pub fn meet(one: Mask, other: Mask) -> Mask
    ensures { result ≡ meet one other }
{
    one & other
}

/// The mask of one place alone.
pub fn only(place: Place) -> Mask
    ensures { result ≡ only place }
{
    1 << place.number()
}

/// The mask and, for each register that is in it, its both place too.
pub fn with_both(mask: Mask) -> Mask
    ensures { result ≡ with_both mask }
{
    mask | (mask & REGISTERS) << FIRST_BOTH
}

/// The mask without the places that lie in these registers, of which bit r stands for register r.
pub fn without(mask: Mask, registers: u8) -> Mask
    ensures { result ≡ without mask registers }
{
    let alone = Mask::from(registers) & REGISTERS;
    mask & (EVERY & !(alone | alone << FIRST_BOTH))
}
