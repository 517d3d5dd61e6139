// Calls of the tool over objects in memory that move few bytes at once, or fail in mid-stream.
//
// A row begins with its name behind `#`, and then has the text that M.ob holds. `words` and `<`
// (the input) are said for all further calls of the row. For the next call alone `fails` says which
// call of an object of the outside fails, `pieces` how many bytes the streams move at once, and
// `room` how many bytes out takes.
//
// What a call leaves stands behind `=`, between `|`: the status, how many bytes the image file has
// (`-` where none is written, `..` for any number), out, notes, and what is left of the input. `$`
// is the end of a line, and `'` a quotation mark.

mod rows;

use pra_base::OutOfMemory;
use pra_io::{MemFolder, MemSink, MemSource};
use pra_tool::run_tool;
use std::alloc::Global;
use std::process::Abort;
use std::str::Split;

/// What a call left.
#[derive(Drop)]
struct Left {
    status: u8,
    input: MemSource,
    out: MemSink,
    notes: MemSink,
    folder: MemFolder,
}

/// How the outside of a call is made: which call of each object fails, none where it is 0, how many
/// bytes streams move at once, and how many out takes.
#[derive(Clone, Copy, Drop)]
struct Outside {
    folder_fails: u64,
    input_fails: u64,
    out_fails: u64,
    notes_fails: u64,
    piece: usize,
    room: usize,
}

const ALL_WELL: Outside = Outside {
    folder_fails: 0,
    input_fails: 0,
    out_fails: 0,
    notes_fails: 0,
    piece: 4096,
    room: 200_000,
};

/// A row as far as it was read.
#[derive(Drop)]
struct Row<'a> {
    name: &'a str,
    source: Vec<u8>,
    words: &'a str,
    input: &'a str,
    outside: Outside,
}

fn number(word: &str) -> usize {
    word.parse::<usize>().unwrap_or(0)
}

impl<'a> Row<'a> {
    fn begin(alloc: Global, name: &'a str) -> Row<'a> {
        Row {
            name,
            source: Vec::new(alloc),
            words: "run M.ob",
            input: "",
            outside: ALL_WELL,
        }
    }

    // The call of this number of the object fails.
    fn fails(&mut self, object: &str, call: u64) {
        match object {
            "folder" => self.outside.folder_fails = call,
            "input" => self.outside.input_fails = call,
            "out" => self.outside.out_fails = call,
            _ => self.outside.notes_fails = call,
        }
    }

    // Takes a line of the row.
    fn take(&mut self, line: &'a str) -> Result<(), OutOfMemory> {
        let (key, rest) = line.split_once(' ').unwrap_or((line, ""));
        match key {
            "words" => self.words = rest,
            "<" => self.input = rest,
            "pieces" => self.outside.piece = number(rest),
            "room" => self.outside.room = number(rest),
            "fails" => {
                let (object, call) = rest.split_once(' ').unwrap_or((rest, ""));
                self.fails(object, number(call) as u64);
            }
            _ => {
                if !self.source.is_empty() {
                    self.source.push(b'\n')?;
                }
                self.source.extend_from_slice(line.as_bytes())?;
            }
        }
        Ok(())
    }
}

// The words of a line, between which one blank stands each.
fn words(alloc: Global, line: &str) -> Result<Vec<String>, OutOfMemory> {
    let mut words = Vec::new(alloc);
    for word in line.split(' ') {
        words.push(String::from_str(alloc, word)?)?;
    }
    Ok(words)
}

fn one(alloc: Global, number: u64) -> Result<Vec<u64>, OutOfMemory> {
    let mut numbers = Vec::new(alloc);
    numbers.push(number)?;
    Ok(numbers)
}

// Calls the tool with the words of the row, where the file M.ob holds its source.
fn call(alloc: Global, row: &Row, input: &[u8]) -> Result<Left, OutOfMemory> {
    let outside = row.outside;
    let words = words(alloc, row.words)?;
    let piece = outside.piece.max(1);
    let mut files = Vec::new(alloc);
    files.push((
        String::from_str(alloc, "M.ob")?,
        Vec::from_slice(alloc, &row.source)?,
    ))?;
    let mut folder = MemFolder::new(files, one(alloc, outside.folder_fails)?);
    let input = Vec::from_slice(alloc, input)?;
    let mut input = MemSource::new(input, piece, one(alloc, outside.input_fails)?);
    let fails = one(alloc, outside.out_fails)?;
    let mut out = MemSink::new(alloc, outside.room, piece, fails)?;
    let fails = one(alloc, outside.notes_fails)?;
    let mut notes = MemSink::new(alloc, 600_000, piece, fails)?;
    let status = run_tool(alloc, &words, &mut folder, &mut input, &mut out, &mut notes);
    Ok(Left {
        status,
        input,
        out,
        notes,
        folder,
    })
}

// The next field of a line, which is empty past its end.
fn field<'a>(fields: &mut Split<'a, char>) -> &'a str {
    fields.next().unwrap_or("")
}

// The bytes that a field stands for.
fn unfolded(alloc: Global, field: &str) -> Result<Vec<u8>, OutOfMemory> {
    let mut bytes = Vec::new(alloc);
    for byte in field.as_bytes() {
        bytes.push(match *byte {
            b'$' => b'\n',
            b'\'' => b'"',
            other => other,
        })?;
    }
    Ok(bytes)
}

// Makes the row's next call, and compares what it leaves.
fn check(rt: &impl Abort, alloc: Global, row: &Row, expected: &str) -> Result<(), OutOfMemory> {
    let (name, words) = (row.name, row.words);
    let given = unfolded(alloc, row.input)?;
    let left = call(alloc, row, &given)?;
    let mut fields = expected.split('|');
    let status = field(&mut fields);
    assert_eq!(rt;
        Some(left.status),
        status.parse::<u8>().ok(),
        "{name}: {words}"
    );
    let length = field(&mut fields);
    let image = left.folder.file("out.pri");
    assert_eq!(rt; image.is_some(), length != "-", "{name}: {words}");
    if let (Some(bytes), Ok(length)) = (image, length.parse::<usize>()) {
        assert_eq!(rt; bytes.len(), length, "{name}: {words}");
    }
    let out = unfolded(alloc, field(&mut fields))?;
    assert_eq!(rt; left.out.bytes(), out.as_slice(), "{name}: {words}");
    let notes = unfolded(alloc, field(&mut fields))?;
    assert_eq!(rt; left.notes.bytes(), notes.as_slice(), "{name}: {words}");
    let rest = unfolded(alloc, field(&mut fields))?;
    assert_eq!(rt; left.input.left(), rest.as_slice(), "{name}: {words}");
    Ok(())
}

fn check_rows(rt: &impl Abort, alloc: Global, table: &str) -> Result<(), OutOfMemory> {
    let mut row = Row::begin(alloc, "");
    for line in table.lines() {
        if let Some(name) = line.strip_prefix("# ") {
            row = Row::begin(alloc, name);
        } else if let Some(expected) = line.strip_prefix("= ") {
            check(rt, alloc, &row, expected)?;
            row.outside = ALL_WELL;
        } else {
            row.take(line)?;
        }
    }
    Ok(())
}

#[test]
fn calls_of_which_one_fails(rt: HostRuntime) -> Result<(), OutOfMemory> {
    check_rows(&rt, rt.alloc(), rows::ROWS)
}
