// The laws of what sources are.

ghost use Rattle.std.specs.Prelude.{◌≡◌, ◌↔◌, ℕ, List};
ghost use Rattle.ob_read.specs.declared.fault.ReadFault.{ReadFault};
ghost use Rattle.ob_read.specs.FirstRule.{BreaksFirst, TellsRule};
ghost use Rattle.ob_read.specs.Ladder.{IsExhaustive, IsRung};
ghost use Rattle.ob_read.specs.Source.{IsRead, IsUnreadable};

/// Bytes have one token list with a tree and a checked module, or else one fault, never both.
pub fn one_reading()
    ensures one { IsRung IsRead IsUnreadable }
    ensures either { IsExhaustive IsRead IsUnreadable }
{}

/// The rule that is told of a source is, of all that its module breaks, the one at the least token,
/// and of several there the one with the least number.
pub fn told_rule_is_first()
    ensures { (bytes : List ℕ) (rule token at : ℕ) →
        TellsRule bytes rule token at ↔ BreaksFirst bytes rule token at }
{}
