// The general registers.

ghost use Rattle.std.specs.Prelude.{◌≡◌, ◌%◌, ◌^◌};
ghost use Rattle.ia_step.specs.Registers.{get, with_reg, address_of, base_of, scaled_index_of};

use ia_code::ins::{MemAddr, Reg};

/// The eight general registers.
#[derive(Clone, Copy, Debug)]
pub struct Registers {
    pub eax: u32,
    pub ecx: u32,
    pub edx: u32,
    pub ebx: u32,
    pub esp: u32,
    pub ebp: u32,
    pub esi: u32,
    pub edi: u32,
}

impl Registers {
    pub fn get(&self, reg: Reg) -> u32
        ensures { result ≡ get self.now reg }
    {
        match reg {
            Reg::Eax => self.eax,
            Reg::Ecx => self.ecx,
            Reg::Edx => self.edx,
            Reg::Ebx => self.ebx,
            Reg::Esp => self.esp,
            Reg::Ebp => self.ebp,
            Reg::Esi => self.esi,
            Reg::Edi => self.edi,
        }
    }

    pub fn set(&mut self, reg: Reg, value: u32)
        ensures { self.new ≡ with_reg self.old reg value }
    {
        match reg {
            Reg::Eax => self.eax = value,
            Reg::Ecx => self.ecx = value,
            Reg::Edx => self.edx = value,
            Reg::Ebx => self.ebx = value,
            Reg::Esp => self.esp = value,
            Reg::Ebp => self.ebp = value,
            Reg::Esi => self.esi = value,
            Reg::Edi => self.edi = value,
        }
    }

    fn base(&self, base: Option<Reg>) -> u32
        ensures { result ≡ base_of self.now base }
    {
        match base {
            None => 0,
            Some(reg) => self.get(reg),
        }
    }

    fn scaled_index(&self, index: Option<(Reg, u8)>) -> u32
        ensures { result ≡ scaled_index_of self.now index % 2 ^ 32 }
    {
        match index {
            None => 0,
            Some((reg, scale)) => self.get(reg).wrapping_mul(u32::from(scale)),
        }
    }

    /// The effective address that an operand names.
    pub fn address(&self, operand: &MemAddr) -> u32
        ensures { result ≡ address_of self.now operand.now }
    {
        self.base(operand.base)
            .wrapping_add(self.scaled_index(operand.index))
            .wrapping_add(operand.disp.cast_unsigned())
    }
}
