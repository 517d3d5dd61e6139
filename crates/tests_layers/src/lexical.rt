// Tokens of sources.
//
// A line of the table is a row: a source, and each token of it with the bytes that it spans.

use ob_lex::lex;
use ob_syntax::Token;
use pra_base::OutOfMemory;
use std::alloc::Global;
use std::test::Fail;

const ROWS: &str = "\
MODULE M; (* a (* b *) c *) BEGIN Write(3) END M.|KwModule 0..6 Ident 7..8 Semicolon 8..9 \
    KwBegin 28..33 Ident 34..39 LeftParen 39..40 Number(3) 40..41 RightParen 41..42 KwEnd 43..46 \
    Ident 47..48 Period 48..49
<=<:=: =>=|LessEqual 0..2 Less 2..3 Becomes 3..5 Colon 5..6 Equal 7..8 GreaterEqual 8..10
00000000000000000012|Number(12) 0..20
2147483647x|Number(2147483647) 0..10 Ident 10..11
ELSIF ELSEIF else|KwElsif 0..5 Ident 6..12 Ident 13..17
*)( *|Times 0..1 RightParen 1..2 LeftParen 2..3 Times 4..5";

fn printed(alloc: Global, tokens: &[Token]) -> Result<String, OutOfMemory> {
    let mut text = String::new(alloc);
    for token in tokens {
        let blank = if text.is_empty() { "" } else { " " };
        text.push_str(blank)?;
        text.push_str(&format!(in alloc; "{:?} {}", token.kind, token.from)?)?;
        text.push_str(&format!(in alloc; "..{}", token.to)?)?;
    }
    Ok(text)
}

#[test]
fn tokens_of_sources(rt: HostRuntime) -> Result<(), Fail> {
    for row in ROWS.lines() {
        let (field, expected) = row.split_once('|').ok_or("a row without its tokens")?;
        let source = field.as_bytes();
        assert!(rt; source.len() <= 1_048_576);
        let found = match lex(rt.alloc(), source) {
            Ok(tokens) => printed(rt.alloc(), &tokens)?,
            Err(fault) => format!(in rt.alloc(); "{fault:?}")?,
        };
        assert_eq!(rt; found.as_str(), expected, "{field}");
    }
    Ok(())
}
