// Networks written out: the two worked ones, a call with a parameter over it, a loop whose strands
// are tied, and blocks that are empty, that nothing reaches, or that lead to themselves.

use net_build::build;
use net_form::{Net, Strand};
use pra_base::{OutOfMemory, VProc};
use pra_list::Seq;
use sketch::Sketch;
use std::alloc::{AllocError, Global};
use std::process::Abort;
use std::test::Fail;
use vc_live::{is_sized, live};

// A strand on a line: variable, block, first and last layer, whether it is a constant, the groups
// of its ends, and its masks.
fn put_strand(alloc: Global, text: &mut String, strand: &Strand) -> Result<(), AllocError> {
    let run = format!(in alloc;
        "strand {} {} {} {} {}",
        strand.var.0, strand.block.0, strand.first, strand.last, strand.constant
    )?;
    text.push_str(&run)?;
    put_group(alloc, text, strand.entry_group)?;
    put_group(alloc, text, strand.exit_group)?;
    for mask in strand.masks.as_slice() {
        text.push_str(&format!(in alloc; " {mask:x}")?)?;
    }
    text.push_str("\n")
}

fn put_group(alloc: Global, text: &mut String, group: Option<u32>) -> Result<(), AllocError> {
    match group {
        None => text.push_str(" -"),
        Some(number) => text.push_str(&format!(in alloc; " {number}")?),
    }
}

fn put_lists(alloc: Global, text: &mut String, net: &Net) -> Result<(), AllocError> {
    for extra in net.extras.as_slice() {
        let line = format!(in alloc;
            "extra {} {} {} {:?}\n",
            extra.strand,
            extra.layer,
            extra.place.number(),
            extra.event
        )?;
        text.push_str(&line)?;
    }
    for pair in net.pairs.as_slice() {
        let line = format!(in alloc;
            "pair {} {} {} {}\n",
            pair.left, pair.left_layer, pair.right, pair.right_layer
        )?;
        text.push_str(&line)?;
    }
    for tie in net.ties.as_slice() {
        text.push_str(&format!(in alloc; "tie {} {}\n", tie.from, tie.to)?)?;
    }
    Ok(())
}

// Numbers behind a word.
fn put_numbers(
    alloc: Global,
    text: &mut String,
    word: &str,
    numbers: &Seq<u32>,
) -> Result<(), AllocError> {
    text.push_str(word)?;
    for number in numbers.as_slice() {
        text.push_str(&format!(in alloc; " {number}")?)?;
    }
    text.push_str("\n")
}

fn put_index(alloc: Global, text: &mut String, net: &Net) -> Result<(), AllocError> {
    let index = &net.index;
    put_numbers(alloc, text, "layers", &index.layers)?;
    put_numbers(alloc, text, "extras", &index.extras)?;
    put_numbers(alloc, text, "pairs", &index.pairs)?;
    text.push_str("ends")?;
    for end in index.ends.as_slice() {
        text.push_str(&format!(in alloc; " {}:{}", end.layer, end.pair)?)?;
    }
    text.push_str("\n")?;
    put_numbers(alloc, text, "exits", &index.exits)?;
    put_numbers(alloc, text, "entries", &index.entries)?;
    put_numbers(alloc, text, "arrivals", &index.arrivals)
}

fn text_of(alloc: Global, net: &Net) -> Result<String, AllocError> {
    let mut text = format!(in alloc; "near {}\n", net.near)?;
    for block in net.blocks.as_slice() {
        text.push_str(&format!(in alloc; "block {} {}\n", block.depth, block.layers)?)?;
    }
    for strand in net.strands.as_slice() {
        put_strand(alloc, &mut text, strand)?;
    }
    put_lists(alloc, &mut text, net)?;
    text.push_str(&format!(in alloc; "groups {}\n", net.groups)?)?;
    put_index(alloc, &mut text, net)?;
    Ok(text)
}

fn network(alloc: Global, code: &VProc) -> Result<String, OutOfMemory> {
    if !is_sized(code) {
        return Ok(String::new(alloc));
    }
    let live = live(alloc, code)?;
    let net = build(alloc, code, &live)?;
    Ok(text_of(alloc, &net)?)
}

// A constant is written.
const WRITE_CODE: &str = "proc 0 0 7
write v0
line
return
";

const WRITE: &str = "near true
block 0 6
strand 0 0 1 1 true - - 1
groups 0
layers 0 6
extras 0 0
pairs 0 0
ends
exits 0 0
entries 0 0
arrivals
";

// A constant is added.
const SUM_CODE: &str = "proc 0 0 plain 4
set v0 3
add v0 v1
write v0
return
";

const SUM: &str = "near true
block 0 8
strand 0 0 2 5 false - - 7f 7f 7f 101
strand 1 0 3 3 true - - bf
extra 0 2 6 E8
extra 0 3 6 E6
extra 1 3 7 E10
pair 0 3 1 3
groups 0
layers 0 8
extras 0 2 3
pairs 0 1 2
ends 3:0 3:0
exits 0 0 0
entries 0 0 0
arrivals
";

// A block that leads to itself, an empty one behind it, and one that nothing reaches.
const AROUND_CODE: &str = "proc 0 0 plain 1
set v0 5
jump 1
loops 1
sub v0 v1
cmp v0 v1
branch g 1 2
jump 4
set v0 5
jump 4
write v0
return
";

const AROUND: &str = "near true
block 0 4
block 1 6
block 0 2
block 0 4
block 0 4
strand 0 0 2 3 false - 0 7f 3f7f
strand 0 1 0 5 false 0 0 3f7f 7f 7f 3f7f 3f7f 3f7f
strand 1 1 1 3 true - - bf bf bf
strand 0 2 0 1 false 0 1 3f7f 3f7f
strand 0 3 2 3 false - 1 7f 3f7f
strand 0 4 0 1 false 1 - 3f7f 101
extra 0 2 6 E8
extra 1 1 6 E6
extra 1 3 6 E6
extra 2 1 7 E10
extra 2 3 7 E10
extra 4 2 6 E8
pair 1 1 2 1
pair 1 3 2 3
tie 0 1
tie 1 1
tie 1 3
tie 3 5
tie 4 5
groups 2
layers 0 4 10 12 16 20
extras 0 1 3 5 5 6 6
pairs 0 0 2 4 4 4 4
ends 1:0 3:1 1:0 3:1
exits 0 1 3 3 4 5 5
entries 0 0 2 2 3 3 5
arrivals 0 1 2 3 4
";

// A call with a parameter over it.
const CALL_CODE: &str = "proc 3 0 param 0 plain plain plain plain -128 127 -128
loops 1
read v1
read v1
push v1
push v1
call 2
cmp v0 v0
neg v0
store v7 global 0 v1
return
";

const CALL: &str = "near true
block 1 18
strand 0 0 0 14 false - - 40 3f7f 3f7f 3f7f 3f7f 3f7f 3f7f 3f7f 3f7f 3878 3878 3f3f 3f7f 7f 7f
strand 1 0 2 2 false - - 1
strand 1 0 4 15 false - - 1 3f7f 3f7f 3f7f 3f7f 3878 3878 3f7f 3f7f 3f7f 3f7f 3f3f
strand 7 0 15 15 true - - bf
extra 0 13 6 E6
extra 2 5 6 E8
extra 2 7 6 E8
extra 3 15 7 E11
groups 0
layers 0 18
extras 0 1 1 3 4
pairs 0 0 0 0 0
ends
exits 0 0 0 0 0
entries 0 0 0 0 0
arrivals
";

// A loop with calls behind it, and ties of each of its variables.
const REPEAT_CODE: &str = "proc 2 0 param 0 param 1 plain plain plain -129 -129 1
set v2 1
set v4 1
copy v3 v2
jump 1
loops 1
checkpos v3
jump 2
loops 1
sub v1 v4
addr v4 global 0 4
cmp v3 v1
branch b 3 1
push v6
call 2
write v1
return
";

const REPEAT: &str = "near true
block 0 8
block 1 4
block 1 8
block 0 8
strand 1 0 0 7 false - 0 40 3f7f 3f7f 3f7f 3f7f 3f7f 3f7f 3f7f
strand 2 0 2 5 false - - 7f 3f7f 3f7f 3f7f
strand 4 0 4 7 false - 1 7f 3f7f 3f7f 3f7f
strand 3 0 6 7 false - 2 7f 3f7f
strand 1 1 0 3 false 0 3 3f7f 3f7f 3f7f 3f7f
strand 3 1 0 3 false 2 4 3f7f 3f7f 3f7f 3f7f
strand 4 1 0 3 false 1 5 3f7f 3f7f 3f7f 3f7f
strand 1 2 0 7 false 3 0 3f7f 7f 7f 3f7f 3f7f 3f7f 3f7f 3f7f
strand 3 2 0 7 false 4 2 3f7f 3f7f 3f7f 3f7f 3f7f 3f7f 3f7f 3f7f
strand 4 2 0 1 false 5 - 3f7f 3f7f
strand 4 2 4 7 false - 1 3f 3f7f 3f7f 3f7f
strand 1 3 0 5 false 0 - 3f7f 3f7f 3f7f 3878 3878 101
strand 6 3 1 1 true - - bf
extra 1 2 6 E8
extra 1 5 6 E6
extra 2 4 6 E8
extra 3 6 6 E6
extra 5 1 6 E6
extra 7 1 6 E6
extra 7 5 6 E6
extra 8 5 6 E6
extra 9 1 6 E6
extra 12 1 7 E11
pair 1 5 3 6
pair 7 1 9 1
pair 8 5 7 5
tie 0 4
tie 2 6
tie 3 5
tie 4 7
tie 5 8
tie 6 9
tie 7 4
tie 7 11
tie 8 5
tie 10 6
groups 6
layers 0 8 12 20 28
extras 0 0 2 3 4 4 5 5 7 8 9 9 9 10
pairs 0 0 1 1 2 2 2 2 4 5 6 6 6 6
ends 5:0 6:0 1:1 5:2 5:2 1:1
exits 0 1 1 2 3 4 5 6 8 9 9 10 10 10
entries 0 0 0 0 0 2 4 6 7 8 9 9 10 10
arrivals 0 6 2 8 1 9 3 4 5 7
";

fn check(rt: &impl Abort, alloc: Global, lines: &str, expected: &str) -> Result<(), Fail> {
    let mut sketch = Sketch::new(alloc);
    for line in lines.lines() {
        let is_code = sketch.line(line)?;
        assert!(rt; is_code, "{line}");
    }
    let module = sketch.module(0)?;
    match module.procs.get(0) {
        Some(code) => assert_eq!(rt; network(alloc, code)?.as_str(), expected),
        None => assert!(rt; false, "no code"),
    }
    Ok(())
}

#[test]
fn networks_written_out(rt: HostRuntime) -> Result<(), Fail> {
    let alloc = rt.alloc();
    check(&rt, alloc, WRITE_CODE, WRITE)?;
    check(&rt, alloc, SUM_CODE, SUM)?;
    check(&rt, alloc, AROUND_CODE, AROUND)?;
    check(&rt, alloc, CALL_CODE, CALL)?;
    check(&rt, alloc, REPEAT_CODE, REPEAT)
}
