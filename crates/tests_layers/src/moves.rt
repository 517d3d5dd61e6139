// `moves` on worked pairs: how many there are, and which. That they do all pairs at once is proved.

use pl_moves::{Move, Pair, can_move, moves};
use pra_base::{Place, VarId};
use sketch::place;
use std::alloc::Global;
use std::process::Abort;
use std::test::Fail;

fn pair(var: u32, from: Place, to: Place) -> Pair {
    Pair {
        var: VarId(var),
        from,
        to,
        constant: None,
    }
}

fn constant(var: u32, number: i32, from: Place, to: Place) -> Pair {
    Pair {
        var: VarId(var),
        from,
        to,
        constant: Some(number),
    }
}

// The moves of pairs of which the condition is tested first.
fn done(rt: &impl Abort, alloc: Global, pairs: &[Pair]) -> Result<Vec<Move>, Fail> {
    assert!(rt; can_move(pairs));
    Ok(moves(alloc, pairs)?)
}

fn bytes(list: &[Move], near: bool) -> u32 {
    let mut sum = 0u32;
    for step in list {
        sum = sum.saturating_add(step.bytes(near));
    }
    sum
}

fn count_swaps(list: &[Move]) -> usize {
    list.iter()
        .filter(|step| matches!(step, Move::Swap(..)))
        .count()
}

// Pairs, and what their moves are. A row has the pairs, each with its variable and two places, or
// with `=` the number of a constant; behind a bar how many moves there are, how many of them are
// exchanges, and their bytes where slots are near and where they are far; and behind another bar
// the moves, where there is no choice.
const ROWS: &str = "\
0 eax ecx; 1 ecx edx; 2 edx eax|2 2 4 4|
|0 0 0 0|
0 eax mem; 1 ecx eax; 2=9 const ecx|3 0 10 13|
0 eax ecxm|2 0 5 8|Store(VarId(0), Eax); Copy(Ecx, Eax)
0 eax eaxm|1 0 3 6|Store(VarId(0), Eax)
0 eaxm ecxm|1 0 2 2|Copy(Ecx, Eax)
0 eaxm mem; 1 ecxm ecx|0 0 0 0|
0 mem eaxm|1 0 3 6|Load(Eax, VarId(0))";

fn pair_of(text: &str) -> Option<Pair> {
    let (var, places) = text.trim().split_once(' ')?;
    let (from, to) = places.split_once(' ')?;
    let (from, to) = (place(from)?, place(to)?);
    if let Some((var, number)) = var.split_once('=') {
        let number = number.parse::<i32>().ok()?;
        return Some(constant(var.parse::<u32>().ok()?, number, from, to));
    }
    Some(pair(var.parse::<u32>().ok()?, from, to))
}

// The moves as they are printed, and their numbers.
fn printed(alloc: Global, list: &[Move]) -> Result<(String, String), Fail> {
    let mut text = String::new(alloc);
    for step in list {
        let between = if text.is_empty() { "" } else { "; " };
        text.push_str(between)?;
        text.push_str(&format!(in alloc; "{step:?}")?)?;
    }
    let mut numbers = format!(in alloc; "{} {}", list.len(), count_swaps(list))?;
    for near in [true, false] {
        numbers.push_str(&format!(in alloc; " {}", bytes(list, near))?)?;
    }
    Ok((text, numbers))
}

#[test]
fn worked_moves(rt: HostRuntime) -> Result<(), Fail> {
    for row in ROWS.lines() {
        let (pairs_text, rest) = row.split_once('|').ok_or("a row without its numbers")?;
        let (numbers, text) = rest.split_once('|').ok_or("a row without its moves")?;
        let mut pairs = Vec::new(rt.alloc());
        for part in pairs_text.split(';') {
            if let Some(pair) = pair_of(part) {
                pairs.push(pair)?;
            }
        }
        let list = done(&rt, rt.alloc(), &pairs)?;
        let (told, counted) = printed(rt.alloc(), &list)?;
        assert_eq!(rt; counted.as_str(), numbers, "{row}");
        assert!(rt; text.is_empty() || told.as_str() == text, "{row}: {told}");
    }
    Ok(())
}
