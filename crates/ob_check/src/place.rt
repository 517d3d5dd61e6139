//! What is known at a place of a module.

ghost use Rattle.std.specs.Prelude.{◌≡◌, ◌<◌, ◌≤◌, length, All};
ghost use Rattle.ob_syntax.specs.Names.{standard as standard_of};

use crate::refusal::Refusal;
use crate::rules::Rule;
use crate::scope::Scope;
use indexmap::IndexSet;
use ob_syntax::{Meaning, Param, Root, Shape, Standard, Token, Value};
use pra_list::Seq;
use std::alloc::{AllocFailed, Global};
use std::marker::Model;
use std::mem;

/// The names of the fields of a record, in order.
#[derive(Drop)]
pub struct FieldNames<'a> {
    names: IndexSet<&'a [u8]>,
}

impl<'a> Model for FieldNames<'a> {
    ghost use Rattle.std.specs.Prelude.{ℕ, List, map};

    ghost Value = { List (List ℕ) };

    ghost view = { λ f. map (λ name. name.now) f.names.keys };
}

impl<'a> FieldNames<'a> {
    ghost use Rattle.std.specs.Prelude.{[], ◌∷◌, ◌++◌, position, bytes_eq, not, if◌then◌else◌};
    ghost use Rattle.std.specs.Prelude.{IfOk};
    ghost use Rattle.std.specs.List.{list_any};

    /// No fields.
    pub fn new(alloc: Global) -> FieldNames<'a>
        ensures { result ≡ [] }
    {
        FieldNames {
            names: IndexSet::new(alloc),
        }
    }

    /// Adds a field, and says whether its name is new; else the names stay.
    pub fn declare(&mut self, name: &'a [u8]) -> Result<bool, AllocFailed<&'a [u8]>>
        ensures is_new { IfOk result (λ is_new.
            is_new ≡ not (list_any (bytes_eq name.entry.now) self.old)) }
        ensures names { IfOk result (λ is_new.
            self.new ≡ (if is_new then self.old ++ name.entry.now ∷ [] else self.old)) }
    {
        self.names.insert(name)
    }

    /// The number of a field.
    pub fn number_of(&self, name: &[u8]) -> Option<usize>
        ensures { result ≡ position (bytes_eq name.now) self.now }
    {
        self.names.get_index_of(name)
    }
}

/// The scopes around a place, and the types and procedures that are declared before it.
#[derive(Drop)]
pub struct Place<'a> {
    pub alloc: Global,
    pub bytes: &'a [u8],
    pub tokens: &'a [Token],
    pub here: u32,
    pub scope: Scope<'a>,
    pub outer: Vec<Scope<'a>>,
    pub types: Vec<Shape>,
    pub fields: Vec<FieldNames<'a>>,
    pub lengths: Vec<u32>,
    pub headings: Vec<Seq<Param>>,
    pub nodes: Vec<u32>,
    ghost within: { All (λ t. (t.from < t.to) × (t.to ≤ length bytes.now)) tokens.now },
}

impl<'a> Place<'a> {
    ghost use Rattle.ob_syntax.specs.Names.{name_at, is_within_reach as reaches};
    ghost use Rattle.ob_syntax.specs.Names.{meaning as meaning_of, used as used_at};
    ghost use Rattle.ob_syntax.specs.Expressions.{field_number as field_number_of};
    ghost use Rattle.ob_syntax.specs.Types.{with_type};
    ghost use Rattle.ob_syntax.specs.Statements.{parameters as parameters_of};
    ghost use Rattle.ob_check.specs.Judging.{known_at, Answers, Gives, Moves};
    ghost use Rattle.ob_syntax.specs.Declarations.{announced, shown, entered, left as left_for};
    ghost use Rattle.ob_syntax.specs.Declarations.{last_scope, with_heading};

    /// The text of the name at a token.
    pub fn name(&self, token: u32) -> &'a [u8]
        ensures { result.now ≡ name_at (known_at self.now) token }
    {
        match self.tokens.get(token as usize) {
            Some(token) => &self.bytes[token.from as usize..token.to as usize],
            None => &[],
        }
    }

    /// What the innermost scope that shows a name makes of it.
    pub fn meaning(&self, name: &[u8]) -> Option<Meaning>
        ensures { result ≡ meaning_of (known_at self.now) name.now }
    {
        if let Some(meaning) = self.scope.visible(name) {
            return Some(meaning);
        }
        let mut found = standard(name);
        for scope in &self.outer {
            if let Some(meaning) = scope.visible(name) {
                found = Some(meaning);
            }
        }
        found
    }

    /// The meaning of a name that is used at a token.
    pub fn used(&self, token: u32) -> Result<Meaning, Refusal>
        ensures { Answers (used_at (known_at self.now) token) result }
    {
        match self.meaning(self.name(token)) {
            None => Err(Refusal::Broken(Rule::NameIsDeclared, token)),
            Some(Meaning::Variable(owner, root, type_id)) => {
                if self.is_within_reach(owner, root) {
                    Ok(Meaning::Variable(owner, root, type_id))
                } else {
                    Err(Refusal::Broken(Rule::VariableIsWithinReach, token))
                }
            }
            Some(meaning) => Ok(meaning),
        }
    }

    /// Declares the name at a token, which is not visible yet.
    pub fn announce(&mut self, token: u32) -> Result<(), Refusal>
        ensures { Moves (announced (known_at self.old) token) result self.new }
    {
        let name = self.name(token);
        if self.scope.is_declared(name) {
            return Err(Refusal::Broken(Rule::NameIsNew, token));
        }
        self.scope.set(name, None)?;
        Ok(())
    }

    /// Makes the name at a token visible.
    pub fn show(&mut self, token: u32, meaning: Meaning) -> Result<(), Refusal>
        ensures { Moves (Ok (shown (known_at self.old) token meaning)) result self.new }
    {
        let name = self.name(token);
        self.scope.set(name, Some(meaning))?;
        Ok(())
    }

    /// The parameters of a procedure.
    pub fn parameters(&self, id: u32) -> &[Param]
        ensures { result.now ≡ parameters_of (known_at self.now) id }
    {
        match self.headings.get(id as usize) {
            Some(params) => params.as_slice(),
            None => &[],
        }
    }

    /// Adds a type, and gives its number.
    pub fn add_type(&mut self, shape: Shape, names: FieldNames<'a>) -> Result<u32, Refusal>
        ensures { Gives (Ok (with_type (known_at self.old) shape names.entry)) result self.new }
    {
        let number = u32::try_from(self.types.len()).map_err(|_| Refusal::OutOfMemory)?;
        self.types.push(shape)?;
        self.fields.push(names)?;
        Ok(number)
    }

    /// The number of the field whose name stands at a token.
    pub fn field_number(&self, type_id: u32, token: u32) -> Option<usize>
        ensures { result ≡ field_number_of (known_at self.now) token type_id }
    {
        match self.fields.get(type_id as usize) {
            Some(names) => names.number_of(self.name(token)),
            None => None,
        }
    }

    /// The number of the next procedure.
    pub fn next_procedure(&self) -> Result<u32, Refusal>
        ensures { Answers (Ok (length self.now.headings.items)) result }
    {
        u32::try_from(self.headings.len()).map_err(|_| Refusal::OutOfMemory)
    }

    /// Adds a procedure with its parameters, and makes its name visible.
    pub fn add_heading(&mut self, name: u32, params: Seq<Param>) -> Result<(), Refusal>
        ensures { Moves (Ok (with_heading (known_at self.old) name params)) result self.new }
    {
        let id = self.next_procedure()?;
        self.show(name, Meaning::Procedure(id))?;
        self.headings.push(params)?;
        Ok(())
    }

    /// Enters a procedure, with this scope of its own.
    pub fn enter(&mut self, id: u32, scope: Scope<'a>) -> Result<(), Refusal>
        ensures { Moves (Ok (entered (known_at self.old) id scope.entry)) result self.new }
    {
        let around = mem::replace(&mut self.scope, scope);
        self.outer.push(around)?;
        self.here = id;
        Ok(())
    }

    /// Leaves a procedure for the block around it, and gives the procedure's scope.
    pub fn leave(&mut self, around: u32) -> Scope<'a>
        ensures scope { result ≡ self.old.scope }
        ensures place { known_at self.new ≡ left_for (known_at self.old) around }
    {
        let outside = Place::last_of(self.alloc, &mut self.outer);
        self.here = around;
        mem::replace(&mut self.scope, outside)
    }

    /// Takes the last of the scopes away; where there is none, it is empty.
    #[tactic(auto, using(crate::proofs::Scopes::last_of))]
    fn last_of(alloc: Global, scopes: &mut Vec<Scope<'a>>) -> Scope<'a>
        ensures { (result, scopes.new.items) ≡ last_scope scopes.old.items }
    {
        match scopes.pop() {
            Some(scope) => scope,
            None => Scope::new(alloc),
        }
    }

    /// Whether a variable is the module's or belongs to the procedure that the place is in.
    fn is_within_reach(&self, owner: u32, root: Root) -> bool
        ensures { result ≡ reaches (known_at self.now) owner root }
    {
        match root {
            Root::Module(_) => true,
            Root::Param(_) | Root::Local(_) => owner == self.here,
        }
    }
}

/// The names that each module has without a declaration.
fn standard(name: &[u8]) -> Option<Meaning>
    ensures { result ≡ standard_of name.now }
{
    if name == b"INTEGER".as_slice() {
        Some(Meaning::TypeName(0))
    } else if name == b"BOOLEAN".as_slice() {
        Some(Meaning::TypeName(1))
    } else if name == b"TRUE".as_slice() {
        Some(Meaning::Constant(Value::Truth(true)))
    } else if name == b"FALSE".as_slice() {
        Some(Meaning::Constant(Value::Truth(false)))
    } else if name == b"Read".as_slice() {
        Some(Meaning::Standard(Standard::Read))
    } else if name == b"Write".as_slice() {
        Some(Meaning::Standard(Standard::Write))
    } else if name == b"WriteLn".as_slice() {
        Some(Meaning::Standard(Standard::WriteLine))
    } else {
        None
    }
}
