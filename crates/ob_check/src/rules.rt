// The rules of the language.

ghost use Rattle.std.specs.Prelude.{◌≡◌};
ghost use Rattle.ob_check.specs.Rules.{rule_number};

/// A rule that each module keeps, named by what it demands (Wirth, The Programming Language Oberon,
/// sections 4 to 11).
#[derive(Clone, Copy, Debug)]
pub enum Rule {
    /// The name after END of a module is the module's.
    ModuleEndsWithItsName,
    /// The name after END of a procedure is the procedure's.
    ProcedureEndsWithItsName,
    /// A scope declares a name once; parameters and locals are one scope.
    NameIsNew,
    /// A record has a name for one field only.
    FieldNameIsNew,
    /// A name that is used was declared before, in a scope around its place.
    NameIsDeclared,
    /// A variable or parameter that is used is the module's, or of the procedure whose body this
    /// is.
    VariableIsWithinReach,
    /// A name in an expression is a constant, a variable or a parameter.
    NameHasValue,
    /// A name that stands for a type is a type.
    NameIsType,
    /// The name of a call is a procedure.
    NameIsProcedure,
    /// The name of an assignment's target is a variable or a parameter.
    TargetIsVariable,
    /// A field is selected of a record.
    FieldIsOfRecord,
    /// A field that is selected is one of its record.
    FieldIsKnown,
    /// An element is selected of an array.
    ElementIsOfArray,
    /// An index is INTEGER.
    IndexIsInteger,
    /// Operands of `*`, DIV, MOD, `+`, `-`, `<`, `<=`, `>`, `>=` and of signs are INTEGER.
    OperandIsInteger,
    /// Operands of `&`, OR and `~` are BOOLEAN.
    OperandIsBoolean,
    /// The sides of `=` and `#` are both INTEGER or both BOOLEAN.
    ComparedAreAlike,
    /// The sides of `:=` are both INTEGER or both BOOLEAN.
    AssignedAreAlike,
    /// The condition of IF, ELSIF, WHILE or UNTIL is BOOLEAN.
    ConditionIsBoolean,
    /// A call has as many arguments as its procedure has parameters.
    ArgumentsAreAsMany,
    /// A value parameter is INTEGER or BOOLEAN.
    ValueParameterIsScalar,
    /// An argument for a value parameter has the parameter's type.
    ArgumentHasItsType,
    /// An argument for a VAR parameter is a variable or a part of one, of the parameter's type.
    ArgumentIsVariable,
    /// The expression of a constant or a length names no variable, has a value, and a length is a
    /// number of at least 1.
    ConstantIsKnown,
}

impl Rule {
    /// The number by which the rule is told, from 1 to 24.
    pub fn number(self) -> u8
        ensures { result ≡ rule_number self }
    {
        match self {
            Rule::ModuleEndsWithItsName => 1,
            Rule::ProcedureEndsWithItsName => 2,
            Rule::NameIsNew => 3,
            Rule::FieldNameIsNew => 4,
            Rule::NameIsDeclared => 5,
            Rule::VariableIsWithinReach => 6,
            Rule::NameHasValue => 7,
            Rule::NameIsType => 8,
            Rule::NameIsProcedure => 9,
            Rule::TargetIsVariable => 10,
            Rule::FieldIsOfRecord => 11,
            Rule::FieldIsKnown => 12,
            Rule::ElementIsOfArray => 13,
            Rule::IndexIsInteger => 14,
            Rule::OperandIsInteger => 15,
            Rule::OperandIsBoolean => 16,
            Rule::ComparedAreAlike => 17,
            Rule::AssignedAreAlike => 18,
            Rule::ConditionIsBoolean => 19,
            Rule::ArgumentsAreAsMany => 20,
            Rule::ValueParameterIsScalar => 21,
            Rule::ArgumentHasItsType => 22,
            Rule::ArgumentIsVariable => 23,
            Rule::ConstantIsKnown => 24,
        }
    }
}
