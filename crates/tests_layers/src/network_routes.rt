// Codes, their home routes and others, with what is said of them: what they cost, or the first rule
// that they break.

use crate::verdicts::{home_routes, verdict};
use net_form::Routes;
use pra_base::{OutOfMemory, Place, VModule, VProc};
use pra_list::Seq;
use pra_packed::Packed;
use sketch::{Sketch, path, place};
use std::alloc::{AllocError, Global};
use std::mem;
use std::process::Abort;
use std::test::Fail;

// A row begins with its name behind `#` and has a code. Behind `home` stands where home routes put
// its strands, a line each, and behind `by` where other routes do. Behind `=` stands what is said
// of these routes: what they cost by size and by speed, or the first rule that they break. Before
// `=` may stand what is changed in them: a strand, which of its places, and the new one.
const COSTS: &str = "# a constant is written
proc 0 0 7
write v0
line
return
home
eax
= 5 1
by
eaxm
= Mask(0, 1)
# a constant is added
proc 0 0 plain 4
set v0 3
add v0 v1
write v0
return
home
mem mem mem eax
const
= 7 7
by
eax eax eax eax
const
= 1 0
by
ecx ecx ecx eaxm
edi
= 10 5
# a call, with a parameter and a word of the input over it
proc 1 0 param 0 plain
read v1
push v0
call 1
write v1
write v0
return
home
mem mem mem mem mem mem mem mem mem eax
eax mem mem mem mem eax
= 11 11
by
mem mem mem mem mem mem mem mem mem eax
eax ebx ebx ebx ebx eax
= 9 7
by
mem esim esim esim esim esim esim esim esim eaxm
eax eax eax ebxm ebxm eaxm
= 12 9
# a loop
proc 0 0 plain plain 1
set v0 5
set v1 0
jump 1
loops 1
add v1 v0
sub v0 v2
cmp v0 v2
branch ge 1 2
write v1
return
home
mem mem mem mem
mem mem
mem eax eax mem mem mem mem mem
mem mem mem mem mem mem mem mem
const const const
mem eax
= 18 103
by
ecx ecx ecx ecx
eax eax
ecx ecx ecx ecx ecx ecx ecx ecx
eax eax eax eax eax eax eax eax
const const const
eax eax
= 2 0
by
ecx ecx ecx ecx
eax eax
ecx ecx ecx ecx ecx ecx ecx ecx
eax eax eax eax eax eax eax eax
edx edx const
eax eaxm
= 9 11
# a division
proc 0 0 plain plain plain plain
set v0 100
set v1 7
divmod v2 v3 v0 v1
write v2
write v3
write v1
return
home
mem mem mem eax
mem mem mem mem mem mem mem eax
eax eax
edx mem mem eax
= 17 18
by
eax eax eax eax
ecx ecx ecx ecx ecx ecx ecx eax
eax eax
edx edx edx eax
= 4 2
by
eax eax eax eaxm
ecx ecxm ecxm ecxm ecxm ecxm ecxm eaxm
eax eax
edx ecx ecx eax
= Bundle(7, Ecx)
# many variables, so that none has a slot within 8 bits
proc 0 0 plain plain plain plain plain plain plain plain plain plain plain plain plain plain plain plain plain plain plain plain plain plain plain plain plain plain plain plain plain plain 1000
set v29 300
mul v29 v30
add v29 v30
write v29
return
home
mem eax eax mem mem eax
const const const
= 34 13
by
eax eax eax eax eax eax
const const const
= 7 0
by
eax eax eax eax eax eax
ecx ecx ecx
= 5 1
";

const RULES: &str =
    "# a block that leads to itself, an empty one behind it, and one that nothing reaches
proc 0 0 plain 1
set v0 5
jump 1
loops 1
sub v0 v1
cmp v0 v1
branch g 1 2
jump 4
set v0 5
jump 4
write v0
return
home
mem mem
mem mem mem mem mem mem
const const const
mem mem
mem mem
mem eax
= 11 39
by
eax eax
eax eax eax eax eax eax
const const const
eax eax
eax eax
eax eax
= 2 0
0 0 const = Mask(0, 2)
5 1 ecx = Mask(5, 1)
5 1 ecx, 0 0 const = Mask(0, 2)
1 2 edx = Edge(1, 2)
2 1 ecx = Edge(2, 2)
1 4 edx, 1 2 edx = Edge(1, 2)
1 2 edx, 5 1 ecx = Mask(5, 1)
2 0 eax, 2 1 eax, 2 2 eax = Bundle(5, Eax)
2 2 eax = Bundle(7, Eax)
0 1 ecx = Tie(0)
0 1 eaxm = Tie(0)
1 0 mem = Tie(0)
1 5 mem = Tie(1)
4 1 mem = Tie(4)
4 1 mem, 0 1 ecx = Tie(0)
0 1 ecx, 2 2 eax = Bundle(7, Eax)
# two pairs of operands that may be in memory
proc 0 0 plain plain
set v0 1
set v1 2
add v0 v1
sub v0 v1
write v0
return
home
mem mem mem mem mem mem mem eax
mem eax eax eax
= 12 14
by
mem mem mem mem mem mem mem eax
ecx ecx ecx ecx
= 7 9
1 1 mem, 1 2 mem = Memory(0)
1 3 mem = Memory(1)
1 1 mem, 1 2 mem, 1 3 mem = Memory(0)
1 1 ecxm, 1 2 ecxm, 1 3 ecxm = 10 12
# a loop, whose routes break two rules of two kinds
proc 0 0 plain plain 1
set v0 5
set v1 0
jump 1
add v1 v0
sub v0 v2
cmp v0 v2
branch ge 1 2
write v1
return
home
mem mem mem mem
mem mem
mem eax eax mem mem mem mem mem
mem mem mem mem mem mem mem mem
const const const
mem eax
= 18 19
2 2 ecx, 0 3 eax, 1 1 eax = Edge(2, 2)
2 1 mem, 2 2 mem, 0 3 eax, 1 1 eax = Bundle(5, Eax)
0 3 eaxm, 1 1 eax = Bundle(5, Eax)
0 3 eaxm, 1 1 eaxm = Bundle(5, Eax)
2 1 mem, 2 2 mem, 2 7 edx = Memory(0)
2 7 edx = Tie(2)
3 7 edx = Tie(3)
5 0 eax = Tie(4)
# two registers, each of them twice
proc 0 0 plain plain plain plain
set v0 1
set v1 2
set v2 3
set v3 4
line
write v0
write v1
write v2
write v3
return
home
mem mem mem mem mem mem mem mem mem eax
mem mem mem mem mem mem mem mem mem eax
mem mem mem mem mem mem mem mem mem eax
mem mem mem mem mem mem mem mem mem eax
= 20 20
by
mem mem mem mem mem mem mem mem mem eax
mem mem mem mem mem mem mem mem mem eax
mem mem mem mem mem mem mem mem mem eax
mem mem mem mem mem mem mem mem mem eax
0 7 ecx, 1 5 ecxm, 0 8 ecx, 1 6 ecxm, 2 3 eax, 3 1 eax, 2 4 eax, 3 2 eax = Bundle(9, Eax)
0 7 eax, 1 5 eaxm, 0 8 eax, 1 6 eaxm, 2 3 ecx, 3 1 ecxm, 2 4 ecx, 3 2 ecxm = Bundle(9, Eax)
0 7 ecx, 1 5 ecxm, 0 8 ecx, 1 6 ecxm = Bundle(9, Ecx)
0 5 edi, 1 3 edi, 0 6 edi, 1 4 edi, 2 3 eax, 3 1 eax, 2 4 eax, 3 2 eax = Bundle(7, Edi)
";

#[derive(Clone, Copy)]
struct Change {
    strand: usize,
    at: usize,
    place: Place,
}

// What `strand at place` says.
fn change_of(text: &str) -> Option<Change> {
    let mut words = text.split_whitespace();
    Some(Change {
        strand: words.next()?.parse::<usize>().ok()?,
        at: words.next()?.parse::<usize>().ok()?,
        place: place(words.next()?)?,
    })
}

fn changed(changes: &[Change], strand: usize, at: usize, place: Place) -> Place {
    for change in changes {
        if change.strand == strand && change.at == at {
            return change.place;
        }
    }
    place
}

// Routes of these paths, with what the text changes in them.
fn routes(alloc: Global, paths: &[Seq<Place>], text: &str) -> Result<Routes, AllocError> {
    let mut changes = Vec::new(alloc);
    for part in text.split(',') {
        if let Some(change) = change_of(part) {
            changes.push(change)?;
        }
    }
    let mut places = Packed::new(alloc);
    for (strand, path) in paths.iter().enumerate() {
        let mut new = Vec::new(alloc);
        for (at, place) in path.as_slice().iter().enumerate() {
            new.push(changed(&changes, strand, at, *place))?;
        }
        places.push(&new)?;
    }
    Ok(Routes { places })
}

/// A row that is read: its code, and the routes that were given last.
#[derive(Drop)]
struct Row {
    name: String,
    sketch: Sketch,
    procs: Seq<VProc>,
    is_home: bool,
    paths: Vec<Seq<Place>>,
}

impl Row {
    fn new(alloc: Global, name: &str) -> Result<Row, AllocError> {
        Ok(Row {
            name: String::from_str(alloc, name)?,
            sketch: Sketch::new(alloc),
            procs: Seq::new(alloc),
            is_home: false,
            paths: Vec::new(alloc),
        })
    }

    // Takes a line of code or of routes. Answers whether it is one.
    fn line(&mut self, alloc: Global, line: &str) -> Result<bool, OutOfMemory> {
        if line == "home" {
            let sketch = mem::replace(&mut self.sketch, Sketch::new(alloc));
            let VModule { procs, .. } = sketch.module(0)?;
            self.procs = procs;
        }
        if line == "home" || line == "by" {
            self.is_home = line == "home";
            self.paths = Vec::new(alloc);
            return Ok(true);
        }
        match path(alloc, line)? {
            Some(path) => {
                self.paths.push(path)?;
                Ok(true)
            }
            None => self.sketch.line(line),
        }
    }
}

fn check_home(
    rt: &impl Abort,
    alloc: Global,
    name: &str,
    code: &VProc,
    routes: &Routes,
) -> Result<(), Fail> {
    match home_routes(alloc, code)? {
        Some(found) => assert_eq!(rt; &found, routes, "{name}"),
        None => assert!(rt; false, "{name}: not valid"),
    }
    Ok(())
}

// What is said of the row's routes with these changes.
fn check(
    rt: &impl Abort,
    alloc: Global,
    row: &Row,
    changes: &str,
    expected: &str,
) -> Result<(), Fail> {
    let name = row.name.as_str();
    let Some(code) = row.procs.get(0) else {
        assert!(rt; false, "{name}: no code");
        return Ok(());
    };
    let routes = routes(alloc, &row.paths, changes)?;
    if row.is_home && changes.is_empty() {
        check_home(rt, alloc, name, code, &routes)?;
    }
    let found = verdict(alloc, code, &routes)?;
    assert_eq!(rt; found.as_str(), expected, "{name}: {changes}");
    Ok(())
}

fn check_rows(rt: &impl Abort, alloc: Global, table: &str) -> Result<(), Fail> {
    let mut row = Row::new(alloc, "")?;
    for line in table.lines() {
        if let Some(name) = line.strip_prefix("# ") {
            row = Row::new(alloc, name)?;
        } else if let Some((changes, expected)) = line.split_once("= ") {
            check(rt, alloc, &row, changes, expected)?;
        } else {
            let is_read = row.line(alloc, line)?;
            assert!(rt; is_read, "{line}");
        }
    }
    Ok(())
}

#[test]
fn costs_of_routes(rt: HostRuntime) -> Result<(), Fail> {
    check_rows(&rt, rt.alloc(), COSTS)
}

#[test]
fn rules_that_routes_break(rt: HostRuntime) -> Result<(), Fail> {
    check_rows(&rt, rt.alloc(), RULES)
}
