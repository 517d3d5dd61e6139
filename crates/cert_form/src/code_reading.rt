// Code files, read of a text.

ghost use Rattle.std.specs.Prelude.{◌≡◌, ◌↔◌, ◌<◌, ⊤, ℕ, Option, IsTrue, length, codes};
ghost use Rattle.serde_json.specs.Data.{Data, string, object};
ghost use Rattle.cert_form.specs.CodeForm.{code_data, file_data};
ghost use Rattle.cert_form.specs.CodeWhole.{BodyTakesNone, IsWholeCode};
ghost use Rattle.cert_form.specs.Streams.{IsAnswer, IsText, laid};
ghost use Rattle.cert_form.specs.Found.{CodeFitsAt, CodeHeld, code_keys, FileHeld, file_keys};
ghost use Rattle.cert_form.specs.Found.{IsNameTold};

use crate::cells::word;
use crate::codes::{CodeFile, NamedCode};
use crate::lists::Part;
use crate::names::is_name;
use crate::objects::{Fields, object};
use crate::passing::Unread;
use crate::reading::Version;
use ia_code::image::MAX_DATA_WORDS;
use json::Reader;
use pra_base::{Block, ProcId, VProc, VarKind};
use pra_list::Seq;
use std::alloc::Global;

/// The name of a procedure.
#[derive(Drop)]
struct Name(Seq<u8>);

fn named(alloc: Global, word: &str) -> Result<Option<Name>, Unread>
    ensures { IsNameTold word.now result }
{
    if !is_name(word.as_bytes()) {
        return Ok(None);
    }
    let bytes = Seq::from_slice(alloc, word.as_bytes())?;
    Ok(Some(Name(bytes)))
}

impl Part for Name {
    ghost use Rattle.cert_form.specs.CodeForm.{name_data};
    ghost use Rattle.std.specs.Prelude.{IsTrue};
    ghost use Rattle.cert_form.specs.CodeForm.{is_name};

    ghost form = { λ n. name_data n.0 };

    ghost fits = { λ n x. IsTrue (is_name x.0) };

    fn part(
        alloc: Global,
        _number: usize,
        reader: &mut Reader<'_>,
        depth: usize,
    ) -> Result<Option<Name>, Unread> {
        match word(reader, depth)? {
            Some(word) => named(alloc, word),
            None => Ok(None),
        }
    }
}

/// What was found of a procedure.
#[derive(Drop)]
struct CodeFound {
    aggregates: Option<u32>,
    args: Option<u32>,
    blocks: Option<Seq<Block>>,
    name: Option<Name>,
    vars: Option<Seq<VarKind>>,
}

impl Fields for CodeFound {
    ghost use Rattle.std.specs.Prelude.{refl};
    ghost use Rattle.cert_form.specs.Found.{code_keys, CodeHeld};

    ghost keys = { code_keys };

    ghost held = { CodeHeld };

    fn names() -> &'static [&'static str] {
        &["aggregates", "args", "blocks", "name", "vars"]
    }

    fn read(
        &mut self,
        alloc: Global,
        index: usize,
        reader: &mut Reader<'_>,
        depth: usize,
    ) -> Result<(), Unread> {
        if index == 0 {
            self.aggregates = Part::part(alloc, 0, reader, depth)?;
            return Ok(());
        }
        if index == 1 {
            self.args = Part::part(alloc, 0, reader, depth)?;
            return Ok(());
        }
        if index == 2 {
            self.blocks = Part::part(alloc, 0, reader, depth)?;
            return Ok(());
        }
        if index == 3 {
            self.name = Part::part(alloc, 0, reader, depth)?;
            return Ok(());
        }
        self.vars = Part::part(alloc, 0, reader, depth)?;
        Ok(())
    }

    ghost ordered = { refl };
}

impl CodeFound {
    /// The procedure of a number, if all of it was found.
    #[tactic(auto, using(crate::proofs::CodesHeld::no_aggregates, crate::proofs::CodesHeld::no_args, crate::proofs::CodesHeld::no_blocks, crate::proofs::CodesHeld::no_name, crate::proofs::CodesHeld::no_vars, crate::proofs::CodesHeld::code_found))]
    fn whole(self, number: u32) -> Option<NamedCode>
        ensures { (os : ℕ → Option Data) → CodeHeld self os → IsAnswer code_data
            (CodeFitsAt number) result (object (laid 0 code_keys os)) }
    {
        let CodeFound {
            aggregates,
            args,
            blocks,
            name,
            vars,
        } = self;
        let name = name?;
        Some(NamedCode {
            name: name.0,
            code: VProc {
                id: ProcId(number),
                args: args?,
                aggregates: aggregates?,
                vars: vars?,
                blocks: blocks?,
            },
        })
    }
}

impl Part for NamedCode {
    ghost use Rattle.cert_form.specs.CodeForm.{code_data};
    ghost use Rattle.cert_form.specs.Found.{CodeFitsAt};

    ghost form = { code_data };

    ghost fits = { CodeFitsAt };

    fn part(
        alloc: Global,
        number: usize,
        reader: &mut Reader<'_>,
        depth: usize,
    ) -> Result<Option<NamedCode>, Unread> {
        let mut found = CodeFound {
            aggregates: None,
            args: None,
            blocks: None,
            name: None,
            vars: None,
        };
        let all = object(alloc, &mut found, reader, depth)?;
        if !all {
            return Ok(None);
        }
        if 4294967295 < number {
            return Ok(None);
        }
        Ok(found.whole(number as u32))
    }
}

/// That a file is a code file.
#[derive(Clone, Copy, Drop)]
struct CodeKind;

fn code_kind_in(found: Option<&str>) -> Option<CodeKind>
    ensures { (d : Data) → IsText found.entry d →
        IsAnswer (λ k. string (codes "pra-code")) (λ k. ⊤) result d }
{
    match found {
        Some(word) => if word == "pra-code" {
            Some(CodeKind)
        } else {
            None
        },
        None => None,
    }
}

impl Part for CodeKind {
    ghost use Rattle.std.specs.Prelude.{⊤, codes};
    ghost use Rattle.serde_json.specs.Data.{string};

    ghost form = { λ k. string (codes "pra-code") };

    ghost fits = { λ n k. ⊤ };

    fn part(
        _alloc: Global,
        _number: usize,
        reader: &mut Reader<'_>,
        depth: usize,
    ) -> Result<Option<CodeKind>, Unread> {
        let found = word(reader, depth)?;
        Ok(code_kind_in(found))
    }
}

/// What was found of a code file.
#[derive(Drop)]
struct FileFound {
    data_words: Option<u32>,
    kind: Option<CodeKind>,
    procs: Option<Seq<NamedCode>>,
    version: Option<Version>,
}

impl Fields for FileFound {
    ghost use Rattle.std.specs.Prelude.{refl};
    ghost use Rattle.cert_form.specs.Found.{file_keys, FileHeld};

    ghost keys = { file_keys };

    ghost held = { FileHeld };

    fn names() -> &'static [&'static str] {
        &["data_words", "kind", "procs", "version"]
    }

    #[tactic(auto, using(crate::proofs::Held::held))]
    fn read(
        &mut self,
        alloc: Global,
        index: usize,
        reader: &mut Reader<'_>,
        depth: usize,
    ) -> Result<(), Unread> {
        if index == 0 {
            self.data_words = Part::part(alloc, 0, reader, depth)?;
            return Ok(());
        }
        if index == 1 {
            self.kind = Part::part(alloc, 0, reader, depth)?;
            return Ok(());
        }
        if index == 2 {
            self.procs = Part::part(alloc, 0, reader, depth)?;
            return Ok(());
        }
        self.version = Part::part(alloc, 0, reader, depth)?;
        Ok(())
    }

    ghost ordered = { refl };
}

/// Whether there is a procedure 0, and it takes no arguments.
fn begins_a_run(procs: &[NamedCode]) -> bool
    ensures { IsTrue result ↔ ((0 < length procs.now) × BodyTakesNone procs.now) }
{
    match procs {
        [body, ..] => body.code.args == 0,
        [] => false,
    }
}

impl FileFound {
    #[tactic(auto, using(crate::proofs::CodesHeld::no_words, crate::proofs::CodesHeld::no_kind, crate::proofs::CodesHeld::no_procs, crate::proofs::CodesHeld::no_version, crate::proofs::CodesHeld::too_many_words, crate::proofs::CodesHeld::no_run, crate::proofs::CodesHeld::file_found))]
    fn whole(self) -> Option<CodeFile>
        ensures { (os : ℕ → Option Data) → FileHeld self os → IsAnswer file_data IsWholeCode result
            (object (laid 0 file_keys os)) }
    {
        let FileFound {
            data_words,
            kind,
            procs,
            version,
        } = self;
        let data_words = data_words?;
        let _kind = kind?;
        let procs = procs?;
        let _version = version?;
        if MAX_DATA_WORDS < data_words {
            return None;
        }
        if !begins_a_run(procs.as_slice()) {
            return None;
        }
        Some(CodeFile { data_words, procs })
    }
}

impl Part for CodeFile {
    ghost use Rattle.cert_form.specs.CodeForm.{file_data};
    ghost use Rattle.cert_form.specs.CodeWhole.{IsWholeCode};

    ghost form = { file_data };

    ghost fits = { λ n f. IsWholeCode f };

    fn part(
        alloc: Global,
        _number: usize,
        reader: &mut Reader<'_>,
        depth: usize,
    ) -> Result<Option<CodeFile>, Unread> {
        let mut found = FileFound {
            data_words: None,
            kind: None,
            procs: None,
            version: None,
        };
        if !object(alloc, &mut found, reader, depth)? {
            return Ok(None);
        }
        Ok(found.whole())
    }
}
