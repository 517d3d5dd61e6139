// The services of the host, which INT calls by a number, and the numbers of the traps.

ghost use Rattle.std.specs.Prelude.{◌≡◌};
ghost use Rattle.ia_code.specs.Services.{service_number, service_of};
ghost use Rattle.ia_code.specs.Services.{is_service as is_service_number, trap_of};
ghost use Rattle.ia_code.specs.Services.{trap_number as number_of_trap};

use pra_base::TrapKind;

/// What the host does for a program: the interrupts 20h to 24h in this order.
#[derive(Clone, Copy, Debug, PartialEq, Eq)]
pub enum Service {
    /// The program has ended.
    End,
    /// EAX is written, as a signed number.
    WriteNumber,
    /// The end of a line is written.
    WriteLine,
    /// The next word of the input is read into EAX.
    ReadNumber,
    /// The program traps; EAX has the number of the trap.
    Trap,
}

impl Service {
    /// The number of the interrupt that calls the service.
    pub fn number(self) -> u8
        ensures { result ≡ service_number self }
    {
        match self {
            Service::End => 0x20,
            Service::WriteNumber => 0x21,
            Service::WriteLine => 0x22,
            Service::ReadNumber => 0x23,
            Service::Trap => 0x24,
        }
    }

    /// The service that an interrupt calls, if it calls one.
    pub fn from_number(number: u8) -> Option<Service>
        ensures { result ≡ service_of number }
    {
        match number {
            0x20 => Some(Service::End),
            0x21 => Some(Service::WriteNumber),
            0x22 => Some(Service::WriteLine),
            0x23 => Some(Service::ReadNumber),
            0x24 => Some(Service::Trap),
            _ => None,
        }
    }
}

/// Whether an interrupt calls a service.
pub fn is_service(number: u8) -> bool
    ensures { result ≡ is_service_number number }
{
    Service::from_number(number).is_some()
}

/// The number that stands in EAX when a program traps.
pub fn trap_number(kind: TrapKind) -> u32
    ensures { result ≡ number_of_trap kind }
{
    match kind {
        TrapKind::Index => 1,
        TrapKind::Divide => 2,
        TrapKind::Input => 3,
        TrapKind::Stack => 4,
    }
}

/// The trap of a number, if there is one.
pub fn trap_kind(number: u32) -> Option<TrapKind>
    ensures { result ≡ trap_of number }
{
    match number {
        1 => Some(TrapKind::Index),
        2 => Some(TrapKind::Divide),
        3 => Some(TrapKind::Input),
        4 => Some(TrapKind::Stack),
        _ => None,
    }
}
