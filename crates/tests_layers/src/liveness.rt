// Liveness of procedures, drawn layer by layer. What is expected is worked by hand.
//
// A row begins with its name behind `#` and has the code of a procedure. Behind `=` stands a line
// for each variable, with a mark for each layer of a block, `#` where the variable is live, and the
// blocks beside one another.

use pra_base::{BlockId, VProc, VarId};
use sketch::Sketch;
use std::alloc::{AllocError, Global};
use std::mem;
use std::process::Abort;
use std::test::Fail;
use vc_live::{Liveness, is_sized, live};

const ROWS: &str = "\
# u := 5, with the number as a constant too, and u is never read
proc 2 0 plain 5
set v0 5
return
= ....
= ....
# straight code
proc 2 0 plain plain
set v0 1
copy v1 v0
write v1
return
= ..##....
= ....##..
# a value is live into both arms where one of them reads it
proc 2 0 param 0 param 1 plain
cmp v0 v1
branch l 1 2
set v2 1
jump 3
copy v2 v0
jump 3
write v2
return
= #### .... ##.. ....
= ##.. .... .... ....
= .... ..## ..## ##..
# what a loop reads is live around it: a counter, a value, the counter's bound, the constant added
proc 2 0 plain plain param 0 1
set v0 0
set v1 7
jump 1
cmp v0 v2
branch l 2 3
write v1
add v0 v3
jump 1
return
= ..#### #### ###### ..
= ....## #### ###### ..
= ###### #### ###### ..
= ...... .... ...#.. ..
# loops in loops: the outer one's test reads the first variable, the inner one's the second
proc 2 0 param 0 param 1
jump 1
cmp v0 v0
branch l 2 5
cmp v1 v1
branch l 3 4
line
jump 2
jump 1
return
= ## #### #### #### ## ..
= ## #### #### #### ## ..
# a sum is read once more and then set, and what is set is read and written, for nothing
proc 2 0 param 0 plain
add v0 v1
write v0
set v0 3
neg v0
return
= ####..##..
= ##........
# a way from the last block to the first one that reads: each learns it of the one before it
proc 2 0 plain
set v0 1
jump 3
write v0
jump 4
jump 1
jump 2
return
= ..## ##.. ## ## ..
# a loop with two ways in: what one of its blocks reads is live around it and before it
proc 2 0 param 0 plain
cmp v0 v0
branch l 1 2
cmp v0 v0
branch l 2 3
write v1
jump 1
write v0
return
= #### #### #### ##..
= #### #### #### ....
# what is written on one of two ways is live at the begin of the other one alone
proc 2 0 param 0 plain
cmp v0 v0
branch l 1 2
set v1 0
jump 2
write v1
return
= ##.. .... ....
= #### ..## ##..
# a parameter that is written first is dead at the entry
proc 2 0 param 0 param 1
read v0
write v0
return
= ..##..
= ......
# a dividend is read last by its division, the divisor is written later on, and one result is read
proc 2 0 plain plain param 0 param 1
divmod v0 v1 v2 v3
write v1
write v3
return
= ........
= ..##....
= ##......
= ######..
# an argument ends with its push, the other one lives on across the call
proc 2 0 param 0 param 1
push v0
call 1
write v1
return
= ##......
= ######..
# an address reads the variables in it, and a store the value too
proc 2 0 param 0 param 1 plain
store v2 via v0 4 v1
load v2 via v0 4 v1
return
= ####..
= ####..
= ##....
# a constant that is read twice in the first block, in the second not at all, once in the third
proc 2 0 4 plain
set v1 0
add v1 v0
neg v1
mul v1 v0
write v1
jump 1
line
jump 2
push v0
call 1
return
= ...#####.... .... .#....
= ..########.. .... ......
# the last argument's cell is there, as a variable and in an address
proc 2 0 param 1
load v0 cell 1
jump 0
= ....
# the end
";

/// A mark for each layer of a block: `#` where the variable is live.
fn put_marks(
    text: &mut String,
    liveness: &Liveness,
    v: VarId,
    block: BlockId,
    layers: u32,
) -> Result<(), AllocError> {
    for layer in 0..layers {
        let mark = if liveness.at(v, block, layer) {
            "#"
        } else {
            "."
        };
        text.push_str(mark)?;
    }
    Ok(())
}

/// A line for each variable, in which the blocks stand beside one another.
fn drawn(alloc: Global, code: &VProc, liveness: &Liveness) -> Result<String, Fail> {
    let mut text = String::new(alloc);
    for v in 0..u32::try_from(code.vars.len())? {
        for (number, block) in code.blocks.as_slice().iter().enumerate() {
            text.push_str(if number == 0 { "" } else { " " })?;
            let layers = u32::try_from(block.code.len().saturating_mul(2).saturating_add(2))?;
            let number = BlockId(u32::try_from(number)?);
            put_marks(&mut text, liveness, VarId(v), number, layers)?;
        }
        text.push_str("\n")?;
    }
    Ok(text)
}

fn told(alloc: Global, code: &VProc) -> Result<String, Fail> {
    if !is_sized(code) {
        return Ok(String::from_str(alloc, "not sized\n")?);
    }
    let liveness = live(alloc, code)?;
    drawn(alloc, code, &liveness)
}

fn check(
    rt: &impl Abort,
    alloc: Global,
    sketch: Sketch,
    wanted: &str,
    name: &str,
) -> Result<(), Fail> {
    for code in sketch.module(0)?.procs.as_slice() {
        let text = told(alloc, code)?;
        assert_eq!(rt; text.as_str(), wanted, "{name}");
    }
    Ok(())
}

#[test]
fn each_row_is_live_where_it_says(rt: HostRuntime) -> Result<(), Fail> {
    let mut sketch = Sketch::new(rt.alloc());
    let mut wanted = String::new(rt.alloc());
    let mut name = "";
    for line in ROWS.lines() {
        if let Some(next) = line.strip_prefix("# ") {
            let done = mem::replace(&mut sketch, Sketch::new(rt.alloc()));
            check(&rt, rt.alloc(), done, &wanted, name)?;
            wanted = String::new(rt.alloc());
            name = next;
        } else if let Some(text) = line.strip_prefix("= ") {
            wanted.push_str(text)?;
            wanted.push_str("\n")?;
        } else {
            assert!(rt; sketch.line(line)?, "{line}");
        }
    }
    Ok(())
}

/// The first line of a procedure with so many plain variables.
fn heading(alloc: Global, vars: usize) -> Result<String, AllocError> {
    let mut line = String::from_str(alloc, "proc 2 0")?;
    for _ in 0..vars {
        line.push_str(" plain")?;
    }
    Ok(line)
}

/// The code of some lines, behind its first one.
fn read_code(rt: &impl Abort, alloc: Global, first: &str, rest: &str) -> Result<Sketch, Fail> {
    let mut sketch = Sketch::new(alloc);
    assert!(rt; sketch.line(first)?, "{first}");
    for line in rest.lines() {
        assert!(rt; sketch.line(line)?, "{line}");
    }
    Ok(sketch)
}

/// Variables whose bits stand at the ends of the words of a set are live at the exit of block 0, and
/// nothing is in blocks, at layers and of variables that are not there.
fn check_past_the_end(rt: &impl Abort, alloc: Global, code: &VProc) -> Result<(), Fail> {
    if !is_sized(code) {
        return Err(Fail::from("not sized"));
    }
    let liveness = live(alloc, code)?;
    for v in [63, 64, 129] {
        let mut marks = String::new(alloc);
        put_marks(&mut marks, &liveness, VarId(v), BlockId(0), 4)?;
        assert_eq!(rt; marks.as_str(), "##..", "variable {v}");
    }
    for (v, block, layer) in [
        (62, 0, 0),
        (65, 0, 0),
        (128, 0, 0),
        (130, 0, 0),
        (191, 0, 0),
        (192, 0, 0),
        (u32::MAX, 0, 0),
        (63, 2, 0),
        (63, u32::MAX, 0),
        (63, 0, u32::MAX),
    ] {
        assert!(rt;
            !liveness.at(VarId(v), BlockId(block), layer),
            "variable {v}, block {block}, layer {layer}"
        );
    }
    for (from, block, end, next) in [
        (0, 0, 130, Some(63)),
        (63, 1, 130, Some(63)),
        (64, 0, 130, Some(64)),
        (65, 0, 130, Some(129)),
        (65, 0, 129, None),
        (0, 2, 130, None),
    ] {
        assert_eq!(rt;
            liveness.next_at_entry(BlockId(block), from, end),
            next,
            "from {from}, block {block}"
        );
    }
    Ok(())
}

#[test]
fn nothing_is_live_past_the_end(rt: HostRuntime) -> Result<(), Fail> {
    let first = heading(rt.alloc(), 130)?;
    let rest = "jump 1\nwrite v63\nwrite v64\nwrite v129\nreturn";
    let sketch = read_code(&rt, rt.alloc(), &first, rest)?;
    for code in sketch.module(0)?.procs.as_slice() {
        check_past_the_end(&rt, rt.alloc(), code)?;
    }
    Ok(())
}
