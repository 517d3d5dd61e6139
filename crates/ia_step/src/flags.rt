// The status flags, and the conditions on them.

ghost use Rattle.std.specs.Prelude.{◌≡◌, ◌||◌};
ghost use Rattle.ia_step.specs.Arithmetic.{differ, both_known, negated};
ghost use Rattle.ia_step.specs.Arithmetic.{holds as holds_of};

use pra_base::Cond;

/// The status flags CF, ZF, SF and OF; None is a flag that is not known.
#[derive(Clone, Copy, Debug)]
pub struct Flags {
    pub cf: Option<bool>,
    pub zf: Option<bool>,
    pub sf: Option<bool>,
    pub of: Option<bool>,
}

fn either(a: Option<bool>, b: Option<bool>) -> Option<bool>
    ensures { result ≡ both_known (◌||◌) a b }
{
    match (a, b) {
        (Some(a), Some(b)) => Some(a || b),
        _ => None,
    }
}

fn different(a: Option<bool>, b: Option<bool>) -> Option<bool>
    ensures { result ≡ both_known differ a b }
{
    match (a, b) {
        (Some(a), Some(b)) => Some(a != b),
        _ => None,
    }
}

fn negate(a: Option<bool>) -> Option<bool>
    ensures { result ≡ negated a }
{
    match a {
        None => None,
        Some(b) => Some(!b),
    }
}

impl Flags {
    /// Whether a condition is met, or None where it names a flag that is not known.
    pub fn holds(&self, condition: Cond) -> Option<bool>
        ensures { result ≡ holds_of self.now condition }
    {
        match condition {
            Cond::B => self.cf,
            Cond::Ae => negate(self.cf),
            Cond::E => self.zf,
            Cond::Ne => negate(self.zf),
            Cond::Be => either(self.cf, self.zf),
            Cond::A => negate(either(self.cf, self.zf)),
            Cond::S => self.sf,
            Cond::Ns => negate(self.sf),
            Cond::L => different(self.sf, self.of),
            Cond::Ge => negate(different(self.sf, self.of)),
            Cond::Le => either(self.zf, different(self.sf, self.of)),
            Cond::G => negate(either(self.zf, different(self.sf, self.of))),
        }
    }
}
