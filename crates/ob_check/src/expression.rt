//! Expressions and designators, in the order of the grammar.

ghost use Rattle.std.specs.Prelude.{◌≡◌, ◌∷◌, [], slice_get};
ghost use Rattle.ob_syntax.specs.Expressions.{expression as expression_of};
ghost use Rattle.ob_syntax.specs.Expressions.{simple_expression as simple_expression_of};
ghost use Rattle.ob_syntax.specs.Expressions.{whole_term, whole_factor, following_factor};
ghost use Rattle.ob_syntax.specs.Expressions.{following_term, comparison as comparison_of};
ghost use Rattle.ob_syntax.specs.Expressions.{one_selector, name_with_selectors};
ghost use Rattle.ob_syntax.specs.Expressions.{operator as operator_of, operand as operand_of};
ghost use Rattle.ob_syntax.specs.Expressions.{of_type as is_of_type, result_type as result_type_of};
ghost use Rattle.ob_syntax.specs.Expressions.{binary as binary_of, are_alike as alike};
ghost use Rattle.ob_syntax.specs.Expressions.{literal as literal_of, signed_term as signed_of};
ghost use Rattle.ob_syntax.specs.Expressions.{related as related_of, chained};
ghost use Rattle.ob_syntax.specs.Expressions.{selected as selected_of, designated as designated_of};
ghost use Rattle.ob_syntax.specs.Expressions.{field as field_of, the_field, element as element_of};
ghost use Rattle.ob_check.specs.Judging.{known_at, Answers};
ghost use Rattle.ob_check.specs.Rules.{rule_number};

use crate::place::Place;
use crate::refusal::Refusal;
use crate::rules::Rule;
use ob_syntax::{
    Designator, Expr, Factor, FactorForm, Kind, Meaning, RExpr, ROp, RStep, RVar, Relation, Root,
    Selector, SelectorForm, Shape, SimpleExpr, Term, Typed, Value,
};
use pra_list::{Owned, Seq};

/// The number of the type INTEGER.
pub const INTEGER: u32 = 0;

/// The number of the type BOOLEAN.
pub const BOOLEAN: u32 = 1;

/// The expression, if it has the type that is wanted; else the rule is broken at the token.
pub fn of_type(rule: Rule, type_id: u32, token: u32, typed: Typed) -> Result<RExpr, Refusal>
    ensures { Answers (is_of_type (rule_number rule) type_id token typed) result }
{
    if typed.type_id == type_id {
        Ok(typed.expr)
    } else {
        Err(Refusal::Broken(rule, token))
    }
}

fn operator(kind: Kind) -> ROp
    ensures { result ≡ operator_of kind }
{
    match kind {
        Kind::Times => ROp::Mul,
        Kind::KwDiv => ROp::Div,
        Kind::KwMod => ROp::Mod,
        Kind::Amp => ROp::Both,
        Kind::Plus => ROp::Add,
        Kind::Minus => ROp::Sub,
        Kind::KwOr => ROp::Either,
        Kind::Unequal => ROp::Unequal,
        Kind::Less => ROp::Less,
        Kind::LessEqual => ROp::LessEqual,
        Kind::Greater => ROp::Greater,
        Kind::GreaterEqual => ROp::GreaterEqual,
        _ => ROp::Equal,
    }
}

/// An operand of the type that the operator wants.
fn operand(op: ROp, token: u32, typed: Typed) -> Result<RExpr, Refusal>
    ensures { Answers (operand_of op token typed) result }
{
    match op {
        ROp::Both | ROp::Either => of_type(Rule::OperandIsBoolean, BOOLEAN, token, typed),
        _ => of_type(Rule::OperandIsInteger, INTEGER, token, typed),
    }
}

fn result_type(op: ROp) -> u32
    ensures { result ≡ result_type_of op }
{
    match op {
        ROp::Mul | ROp::Div | ROp::Mod | ROp::Add | ROp::Sub => INTEGER,
        _ => BOOLEAN,
    }
}

fn binary(place: &Place, op: ROp, left: RExpr, right: RExpr) -> Result<Typed, Refusal>
    ensures { Answers (Ok (binary_of op left right)) result }
{
    let left = Owned::new(place.alloc, left)?;
    let right = Owned::new(place.alloc, right)?;
    Ok(Typed {
        type_id: result_type(op),
        expr: RExpr::Binary(op, left, right),
    })
}

/// Whether both types are INTEGER or both BOOLEAN.
pub fn are_alike(left: u32, right: u32) -> bool
    ensures { result ≡ alike left right }
{
    left == right && (left == INTEGER || left == BOOLEAN)
}

fn literal(value: Value) -> Typed
    ensures { result ≡ literal_of value }
{
    match value {
        Value::Number(number) => Typed {
            type_id: INTEGER,
            expr: RExpr::Number(number),
        },
        Value::Truth(truth) => Typed {
            type_id: BOOLEAN,
            expr: RExpr::Truth(truth),
        },
    }
}

/// What an expression stands for, at a place.
#[cycle(expression)]
pub fn expression(place: &Place, expr: &Expr) -> Result<Typed, Refusal>
    ensures { Answers ((expression_of expr.now).judge (known_at place.now)) result }
{
    let left = simple_expression(place, &expr.left)?;
    match &expr.relation {
        None => Ok(left),
        Some(relation) => related(place, expr.left.span.last, left, relation),
    }
}

/// A left side and a relation behind it.
#[cycle(expression)]
fn related(place: &Place, last: u32, left: Typed, relation: &Relation) -> Result<Typed, Refusal>
    ensures { Answers (related_of (known_at place.now) last left (comparison_of relation.now))
        result }
{
    let op = operator(relation.op);
    match op {
        ROp::Equal | ROp::Unequal => {
            let right = simple_expression(place, &relation.right)?;
            if are_alike(left.type_id, right.type_id) {
                binary(place, op, left.expr, right.expr)
            } else {
                Err(Refusal::Broken(Rule::ComparedAreAlike, relation.right.span.last))
            }
        }
        _ => {
            let left = operand(op, last, left)?;
            let right = simple_expression(place, &relation.right)?;
            let right = operand(op, relation.right.span.last, right)?;
            binary(place, op, left, right)
        }
    }
}

#[cycle(expression)]
fn simple_expression(place: &Place, simple: &SimpleExpr) -> Result<Typed, Refusal>
    ensures { Answers ((simple_expression_of simple.now).judge (known_at place.now)) result }
{
    let first = term(place, &simple.first)?;
    let mut last = simple.first.span.last;
    let mut so_far = signed(place, simple.sign, last, first)?;
    for next in simple.rest.as_slice() {
        let op = operator(next.op);
        let left = operand(op, last, so_far)?;
        let right = term(place, &next.term)?;
        last = next.term.span.last;
        let right = operand(op, last, right)?;
        so_far = binary(place, op, left, right)?;
    }
    Ok(so_far)
}

/// A term behind its sign.
fn signed(place: &Place, sign: Option<Kind>, token: u32, typed: Typed) -> Result<Typed, Refusal>
    ensures { Answers (signed_of sign token typed) result }
{
    match sign {
        None => Ok(typed),
        Some(Kind::Minus) => {
            let number = of_type(Rule::OperandIsInteger, INTEGER, token, typed)?;
            let number = Owned::new(place.alloc, number)?;
            Ok(Typed {
                type_id: INTEGER,
                expr: RExpr::Negate(number),
            })
        }
        Some(_) => {
            let number = of_type(Rule::OperandIsInteger, INTEGER, token, typed)?;
            Ok(Typed {
                type_id: INTEGER,
                expr: number,
            })
        }
    }
}

#[cycle(expression)]
fn term(place: &Place, term: &Term) -> Result<Typed, Refusal>
    ensures { Answers ((whole_term term.now).judge (known_at place.now)) result }
{
    let mut so_far = factor(place, &term.first)?;
    let mut last = term.first.span.last;
    for next in term.rest.as_slice() {
        let op = operator(next.op);
        let left = operand(op, last, so_far)?;
        let right = factor(place, &next.factor)?;
        last = next.factor.span.last;
        let right = operand(op, last, right)?;
        so_far = binary(place, op, left, right)?;
    }
    Ok(so_far)
}

#[cycle(expression)]
fn factor(place: &Place, factor: &Factor) -> Result<Typed, Refusal>
    ensures { Answers ((whole_factor factor.now).judge (known_at place.now)) result }
{
    match &factor.form {
        FactorForm::Name(name) => {
            let meaning = place.used(name.name)?;
            designated(place, name, meaning)
        }
        FactorForm::Number(number) => Ok(Typed {
            type_id: INTEGER,
            expr: RExpr::Number(*number),
        }),
        FactorForm::Paren(inner) => expression(place, inner.get()),
        FactorForm::Not(inner) => {
            let inner = inner.get();
            let last = inner.span.last;
            let truth = self::factor(place, inner)?;
            let truth = of_type(Rule::OperandIsBoolean, BOOLEAN, last, truth)?;
            let truth = Owned::new(place.alloc, truth)?;
            Ok(Typed {
                type_id: BOOLEAN,
                expr: RExpr::Not(truth),
            })
        }
    }
}

/// What a name with its selectors stands for in an expression.
#[cycle(expression)]
fn designated(place: &Place, name: &Designator, meaning: Meaning) -> Result<Typed, Refusal>
    ensures { Answers (designated_of (known_at place.now) (name_with_selectors name.now) meaning)
        result }
{
    match meaning {
        Meaning::Constant(value) => {
            let typed = literal(value);
            let _none = selected(place, typed.type_id, name)?;
            Ok(typed)
        }
        Meaning::Variable(_, root, type_id) => {
            let (steps, type_id) = selected(place, type_id, name)?;
            Ok(Typed {
                type_id,
                expr: RExpr::Var(RVar {
                    root,
                    steps,
                    type_id,
                }),
            })
        }
        _ => Err(Refusal::Broken(Rule::NameHasValue, name.name)),
    }
}

/// The selectors on a variable of a type, and the type of what they select.
#[cycle(expression)]
pub fn selected(
    place: &Place,
    type_id: u32,
    name: &Designator,
) -> Result<(Seq<RStep>, u32), Refusal>
    ensures { Answers
        (selected_of (known_at place.now) [] type_id (name_with_selectors name.now).selectors)
        result }
{
    let mut steps = Vec::new(place.alloc);
    let mut type_id = type_id;
    for selector in name.selectors.as_slice() {
        let (step, next) = self::selector(place, type_id, selector)?;
        steps.push(step)?;
        type_id = next;
    }
    Ok((Seq::from_vec(steps), type_id))
}

#[cycle(expression)]
fn selector(place: &Place, type_id: u32, selector: &Selector) -> Result<(RStep, u32), Refusal>
    ensures { Answers (one_selector selector.now (known_at place.now) type_id) result }
{
    match &selector.form {
        SelectorForm::Field(token) => field(place, *token, type_id),
        SelectorForm::Index(index) => {
            let last = index.span.last;
            let index = expression(place, index)?;
            let index = of_type(Rule::IndexIsInteger, INTEGER, last, index)?;
            element(place, selector.span.last, index, type_id)
        }
    }
}

fn field(place: &Place, token: u32, type_id: u32) -> Result<(RStep, u32), Refusal>
    ensures { Answers
        (field_of (known_at place.now) token type_id (slice_get (known_at place.now).types type_id))
        result }
{
    match place.types.get(type_id as usize) {
        Some(Shape::Record(types)) => {
            let number = place.field_number(type_id, token);
            numbered_field(token, types.as_slice(), number)
        }
        _ => Err(Refusal::Broken(Rule::FieldIsOfRecord, token)),
    }
}

/// The field of this number in a record whose fields have these types.
fn numbered_field(token: u32, types: &[u32], number: Option<usize>) -> Result<(RStep, u32), Refusal>
    ensures { Answers (the_field token types.now number) result }
{
    match number {
        None => Err(Refusal::Broken(Rule::FieldIsKnown, token)),
        Some(number) => {
            let type_id = match types.get(number) {
                Some(type_id) => *type_id,
                None => 0,
            };
            match u32::try_from(number) {
                Ok(number) => Ok((RStep::Field(number), type_id)),
                Err(_) => Err(Refusal::OutOfMemory),
            }
        }
    }
}

fn element(place: &Place, token: u32, index: RExpr, type_id: u32) -> Result<(RStep, u32), Refusal>
    ensures { Answers (element_of token index (slice_get (known_at place.now).types type_id))
        result }
{
    match place.types.get(type_id as usize) {
        Some(Shape::Array(_, item)) => Ok((RStep::Index(index), *item)),
        _ => Err(Refusal::Broken(Rule::ElementIsOfArray, token)),
    }
}
