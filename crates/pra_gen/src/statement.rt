// Random assignments.

ghost use Rattle.std.specs.Prelude.{◌≡◌, ◌<◌, ◌++◌, OnOk, string_bytes};
ghost use Rattle.pra_gen.specs.Draws.{state_after};
ghost use Rattle.pra_gen.specs.Module.{form_of, statement_from, right_side, statement_line};

use crate::draws::Draws;
use std::alloc::AllocError;
use std::fmt::Write;

/// What an assignment computes of two variables, or of one and a number.
#[derive(Clone, Copy)]
pub enum Form {
    Sum,
    Difference,
    Product,
    Quotient,
}

impl Form {
    fn of(number: u32) -> Self
        requires { number < 4 }
        ensures { result ≡ form_of number }
    {
        match number {
            0 => Form::Sum,
            1 => Form::Difference,
            2 => Form::Product,
            _ => Form::Quotient,
        }
    }
}

/// An assignment: the numbers of its variables, and at a quotient one less than the divisor in
/// place of the right one.
#[derive(Clone, Copy)]
pub struct Statement {
    pub form: Form,
    pub target: u32,
    pub left: u32,
    pub right: u32,
}

impl Statement {
    /// The assignment of the next four draws.
    pub fn drawn(draws: &mut Draws) -> Self
        ensures drawn { result ≡ statement_from draws.old.state }
        ensures state { draws.new.state ≡ state_after draws.old.state 4 }
        ensures small { result.right < 8 }
    {
        let form = Form::of(draws.draw() % 4);
        let target = draws.draw() % 8;
        let left = draws.draw() % 8;
        let right = draws.draw() % 8;
        Statement {
            form,
            target,
            left,
            right,
        }
    }

    /// Writes the assignment's line behind a text.
    pub fn push_to(self, text: &mut String) -> Result<(), AllocError>
        requires { self.right < 8 }
        ensures { OnOk result
            (string_bytes text.new ≡ string_bytes text.old ++ statement_line self) }
    {
        write!(text, "v{} := v{}", self.target, self.left)?;
        push_right_side(text, self.form, self.right)?;
        text.push_str(";\n")
    }
}

fn push_right_side(text: &mut String, form: Form, right: u32) -> Result<(), AllocError>
    requires { right < 8 }
    ensures { OnOk result
        (string_bytes text.new ≡ string_bytes text.old ++ right_side form right) }
{
    match form {
        Form::Sum => write!(text, " + v{right}"),
        Form::Difference => write!(text, " - v{right}"),
        Form::Product => write!(text, " * v{right}"),
        Form::Quotient => write!(text, " DIV {}", right + 1),
    }
}
