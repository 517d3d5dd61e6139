// The JSON value of a code file.

ghost use Rattle.std.specs.Prelude.{◌≡◌, IfOk};
ghost use Rattle.serde_json.specs.View.{view};
ghost use Rattle.pra_list.specs.Each.{Each};
ghost use Rattle.cert_form.specs.CodeForm.{name_data, code_data, file_data};
ghost use Rattle.cert_form.specs.CodeWhole.{NamedFits};

use crate::codes::{CodeFile, NamedCode};
use crate::names::is_name;
use crate::writing::{Written, put_code, put_file};
use serde_json::{Map, Value, put};
use std::alloc::{AllocError, Global};

fn name_value(alloc: Global, name: &[u8]) -> Result<Value, AllocError>
    ensures { IfOk result (λ v. view v ≡ name_data name.now) }
{
    if !is_name(name) {
        return Ok(Value::Null);
    }
    match str::from_utf8(name) {
        Ok(text) => Value::try_from_str(alloc, text),
        Err(_) => Ok(Value::Null),
    }
}

impl Written for NamedCode {
    ghost form = { code_data };

    ghost fits = { NamedFits };

    fn value(&self, alloc: Global) -> Result<Value, AllocError> {
        let mut map = Map::new(alloc);
        put_code(&mut map, alloc, &self.code)?;
        let name = name_value(alloc, self.name.as_slice())?;
        put(&mut map, alloc, "name", name)?;
        Ok(Value::Object(map))
    }
}

impl Written for CodeFile {
    ghost form = { file_data };

    ghost fits = { λ f. Each NamedFits f.procs };

    fn value(&self, alloc: Global) -> Result<Value, AllocError> {
        let mut map = Map::new(alloc);
        put(&mut map, alloc, "data_words", Value::from(self.data_words))?;
        put_file(&mut map, alloc, "pra-code", self.procs.as_slice())?;
        Ok(Value::Object(map))
    }
}
