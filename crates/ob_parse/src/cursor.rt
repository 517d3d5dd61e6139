//! A place among the tokens.

ghost use Rattle.std.specs.Prelude.{◌≡◌, ◌≢◌, ◌+◌, ◌^◌, ◌<◌, ◌≤◌, ℕ, length, Some, None};
ghost use Rattle.std.specs.Prelude.{MatchResult, MatchBool};

use ob_syntax::{Kind, Span, Token};
use pra_base::OutOfMemory;
use std::alloc::{AllocError, AllocFailed, Global};

/// Why tokens have no tree.
///
/// Let `k` be the length of the longest prefix of the tokens that some continuation makes a module
/// of depth at most 64.
#[derive(Clone, Copy, Debug, PartialEq, Eq, thiserror::Error)]
pub enum ParseFault {
    /// No module of any depth begins with the first `k + 1` tokens, or the tokens end at `k`.
    #[error("no module goes on with token {0}")]
    Grammar(u32),
    /// Only modules of depth above 64 begin with the first `k + 1` tokens.
    #[error("token {0} nests too deep")]
    TooDeep(u32),
    #[error("out of memory")]
    OutOfMemory,
}

impl From<OutOfMemory> for ParseFault {
    ghost use Rattle.ob_parse.specs.declared.cursor.ParseFault.TheVariants.{OutOfMemory};

    ghost from_gives = { λ _ e. e ≡ OutOfMemory };

    fn from(_: OutOfMemory) -> Self {
        ParseFault::OutOfMemory
    }
}

impl From<AllocError> for ParseFault {
    ghost use Rattle.ob_parse.specs.declared.cursor.ParseFault.TheVariants.{OutOfMemory};

    ghost from_gives = { λ _ e. e ≡ OutOfMemory };

    fn from(error: AllocError) -> Self {
        OutOfMemory::from(error).into()
    }
}

impl<T: Drop> From<AllocFailed<T>> for ParseFault {
    ghost use Rattle.ob_parse.specs.declared.cursor.ParseFault.TheVariants.{OutOfMemory};

    ghost from_gives = { λ _ e. e ≡ OutOfMemory };

    fn from(failed: AllocFailed<T>) -> Self {
        OutOfMemory::from(failed).into()
    }
}

/// The tokens, and how many of them are read.
#[derive(Drop)]
pub struct Parser<'a> {
    pub alloc: Global,
    pub tokens: &'a [Token],
    pub at: u32,
    ghost in_range: { at ≤ length tokens.now },
    ghost few: { length tokens.now < 2 ^ 32 },
}

impl<'a> Parser<'a> {
    ghost use Rattle.ob_parse.specs.Reading.{left, place, IsNext};
    ghost use Rattle.ob_syntax.specs.Whole.{kinds};
    ghost use Rattle.ob_syntax.specs.ChosenRule.{first, by_first, behind_name};
    ghost use Rattle.ob_syntax.specs.Grammar.{Selectors, next_selector, no_selectors, ArgumentList};
    ghost use Rattle.ob_syntax.specs.Grammar.{arguments, no_arguments, Statement, statement};
    ghost use Rattle.ob_syntax.specs.Grammar.{empty_statement, assignment, call, SectionList};
    ghost use Rattle.ob_syntax.specs.Grammar.{sections, no_sections};
    ghost use Rattle.ob_syntax.specs.Tree.{span_to};
    ghost use Rattle.ob_syntax.specs.declared.token.Kind.{Kind};

    pub fn new(alloc: Global, tokens: &'a [Token]) -> Parser<'a>
        requires { length tokens.now < 2 ^ 32 }
        ensures left { left result ≡ kinds tokens.now }
        ensures place { place result ≡ 0 }
    {
        Parser {
            alloc,
            tokens,
            at: 0,
        }
    }

    /// The next token's kind.
    pub fn peek(&self) -> Option<Kind>
        ensures { result ≡ first (left self.now) }
    {
        self.tokens.get(self.at as usize).map(|token| token.kind)
    }

    /// Goes past the next token, whose kind was looked at.
    pub fn advance(&mut self)
        requires { first (left self.old) ≢ None }
        ensures { (k : Kind) → first (left self.old) ≡ Some k → IsNext k self.old self.new }
    {
        self.at += 1;
    }

    /// The phrase from token `first` up to here.
    pub fn span_from(&self, first: u32) -> Span
        requires { first < place self.now }
        ensures { result ≡ span_to first (place self.now) }
    {
        Span {
            first,
            last: self.at - 1,
        }
    }

    /// Whether the next token is of this kind.
    pub fn is_next(&self, wanted: Kind) -> bool
        ensures { MatchBool result
            (first (left self.now) ≡ Some wanted)
            (first (left self.now) ≢ Some wanted) }
    {
        match self.peek() {
            Some(kind) => kind.is(wanted),
            None => false,
        }
    }

    /// Goes past the next token, if it is of this kind.
    pub fn accept(&mut self, wanted: Kind) -> bool
        ensures { MatchBool result (IsNext wanted self.old self.new)
            ((self.new ≡ self.old) × (first (left self.old) ≢ Some wanted)) }
    {
        if !self.is_next(wanted) {
            return false;
        }
        self.advance();
        true
    }

    /// Goes past a token that must be of this kind.
    pub fn expect(&mut self, wanted: Kind) -> Result<(), ParseFault>
        ensures { MatchResult result
            (λ _. IsNext wanted self.old self.new)
            (λ e. (e ≡ ParseFault.Grammar (place self.new)) × (self.new ≡ self.old)
            × (first (left self.old) ≢ Some wanted)) }
    {
        if self.accept(wanted) {
            Ok(())
        } else {
            Err(ParseFault::Grammar(self.at))
        }
    }

    /// Whether `.` or `[` is next.
    pub fn begins_selector(&self) -> bool
        ensures { MatchBool result
            (by_first Selectors (first (left self.now)) ≡ Some next_selector)
            (by_first Selectors (first (left self.now)) ≡ Some no_selectors) }
    {
        let Some(kind) = self.peek() else {
            return false;
        };
        match kind {
            Kind::Period | Kind::LeftBracket => true,
            _ => false,
        }
    }

    /// Whether the first token of an expression is next.
    pub fn begins_expression(&self) -> bool
        ensures { MatchBool result
            (by_first ArgumentList (first (left self.now)) ≡ Some arguments)
            (by_first ArgumentList (first (left self.now)) ≡ Some no_arguments) }
    {
        let Some(kind) = self.peek() else {
            return false;
        };
        match kind {
            Kind::Plus
            | Kind::Minus
            | Kind::Ident
            | Kind::Number(_)
            | Kind::LeftParen
            | Kind::Tilde => true,
            _ => false,
        }
    }

    /// Whether the first token of a statement that is not empty is next.
    pub fn begins_statement(&self) -> bool
        ensures { MatchBool result
            (by_first Statement (first (left self.now)) ≡ Some statement)
            (by_first Statement (first (left self.now)) ≡ Some empty_statement) }
    {
        let Some(kind) = self.peek() else {
            return false;
        };
        match kind {
            Kind::Ident | Kind::KwIf | Kind::KwWhile | Kind::KwRepeat => true,
            _ => false,
        }
    }

    /// Whether, behind the name that begins a statement, an assignment goes on and no call.
    pub fn continues_assignment(&self) -> bool
        ensures { MatchBool result
            (behind_name (first (left self.now)) ≡ Some assignment)
            (behind_name (first (left self.now)) ≡ Some call) }
    {
        let Some(kind) = self.peek() else {
            return false;
        };
        match kind {
            Kind::Period | Kind::LeftBracket | Kind::Becomes => true,
            _ => false,
        }
    }

    /// Whether the first token of a section of parameters is next.
    pub fn begins_section(&self) -> bool
        ensures { MatchBool result
            (by_first SectionList (first (left self.now)) ≡ Some sections)
            (by_first SectionList (first (left self.now)) ≡ Some no_sections) }
    {
        let Some(kind) = self.peek() else {
            return false;
        };
        match kind {
            Kind::KwVar | Kind::Ident => true,
            _ => false,
        }
    }
}
