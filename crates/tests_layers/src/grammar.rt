// Trees of sources.
//
// A row has a source, and what its tree has: the tokens of its span, of its name and of the name
// behind END, how many variables it declares, and of each statement the numbers of tokens that it
// has; in parentheses those of the statements inside a REPEAT.

use ob_lex::lex;
use ob_parse::parse;
use ob_syntax::{Module, Stmt, StmtForm};
use pra_base::OutOfMemory;
use std::alloc::Global;
use std::test::Fail;

const TREES: &str = "\
MODULE M; VAR x: INTEGER; BEGIN ; P; x := 1; END M.|0..18 1 17 vars 1: 10 10 10; 12 12 14 14 14;
MODULE M; VAR i: INTEGER; BEGIN REPEAT i := i + 1; Write(i) UNTIL i = 3 END M.|\
    0..26 1 25 vars 1: 9 21 23 23; ( 10 10 12 14 14; 16 16 18 18 19; )";

fn answer(alloc: Global, source: &[u8]) -> Result<Result<Module, String>, OutOfMemory> {
    if source.len() > 1_048_576 {
        return Ok(Err(format!(in alloc; "a long source")?));
    }
    let tokens = match lex(alloc, source) {
        Ok(tokens) => tokens,
        Err(fault) => return Ok(Err(format!(in alloc; "{fault:?}")?)),
    };
    match parse(alloc, &tokens) {
        Ok(tree) => Ok(Ok(tree)),
        Err(fault) => Ok(Err(format!(in alloc; "{fault:?}")?)),
    }
}

fn put(text: &mut String, alloc: Global, number: u32) -> Result<(), OutOfMemory> {
    text.push_str(&format!(in alloc; " {number}")?)?;
    Ok(())
}

// The numbers of tokens in a statement: its first, those of its names, the first and the last of
// its expressions, its last.
fn put_statement(text: &mut String, alloc: Global, statement: &Stmt) -> Result<(), OutOfMemory> {
    put(text, alloc, statement.span.first)?;
    match &statement.form {
        StmtForm::Assign(target, value) => {
            put(text, alloc, target.name)?;
            put(text, alloc, value.span.first)?;
            put(text, alloc, value.span.last)?;
        }
        StmtForm::Call(name, arguments) => {
            put(text, alloc, *name)?;
            for argument in arguments.as_slice() {
                put(text, alloc, argument.span.first)?;
                put(text, alloc, argument.span.last)?;
            }
        }
        StmtForm::Repeat(_, test) => {
            put(text, alloc, test.span.first)?;
            put(text, alloc, test.span.last)?;
        }
        _ => {}
    }
    put(text, alloc, statement.span.last)?;
    text.push_str(";")?;
    Ok(())
}

fn printed(alloc: Global, tree: &Module) -> Result<String, OutOfMemory> {
    let mut text = format!(in alloc; "{}..{}", tree.span.first, tree.span.last)?;
    put(&mut text, alloc, tree.name)?;
    put(&mut text, alloc, tree.close)?;
    text.push_str(&format!(in alloc; " vars {}:", tree.decls.vars.len())?)?;
    for statement in tree.body.as_slice() {
        put_statement(&mut text, alloc, statement)?;
        if let StmtForm::Repeat(body, _) = &statement.form {
            text.push_str(" (")?;
            for inner in body.as_slice() {
                put_statement(&mut text, alloc, inner)?;
            }
            text.push_str(" )")?;
        }
    }
    Ok(text)
}

#[test]
fn trees_of_modules(rt: HostRuntime) -> Result<(), Fail> {
    for row in TREES.lines() {
        let (field, expected) = row.split_once('|').ok_or("a row without its tree")?;
        let found = match answer(rt.alloc(), field.as_bytes())? {
            Ok(tree) => printed(rt.alloc(), &tree)?,
            Err(fault) => fault,
        };
        assert_eq!(rt; found.as_str(), expected, "{field}");
    }
    Ok(())
}
