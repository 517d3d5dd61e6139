// The JSON value of each part of a certificate.

ghost use Rattle.std.specs.Prelude.{◌≡◌, ◌++◌, ⊤, IfOk, OnOk, map};
ghost use Rattle.serde_json.specs.Data.{object, no_members};
ghost use Rattle.serde_json.specs.View.{view, members_view};
ghost use Rattle.pra_list.specs.Each.{Each};
ghost use Rattle.ia_code.specs.DecodeTable.{cond_number};
ghost use Rattle.cert_form.specs.Form.{natural, row, kind_data, base_name, base_number, index_data};
ghost use Rattle.cert_form.specs.Form.{address_data, operand_data, instruction_data, end_data};
ghost use Rattle.cert_form.specs.Form.{block_data, place_data, path_data, cap_data, tie_data};
ghost use Rattle.cert_form.specs.Form.{cert_data, cost_name, certificate_data, list};
ghost use Rattle.cert_form.specs.Whole.{IsNatural, IsLong, KindFits, AddressFits, OperandFits};
ghost use Rattle.cert_form.specs.Whole.{InstructionFits, EndFits};
ghost use Rattle.cert_form.specs.Whole.{BlockFits, CapFits, TieFits, CodeFits, CertFits};
ghost use Rattle.cert_form.specs.Building.{with_code, with_claims, with_prices, with_file};
ghost use Rattle.cert_form.specs.Building.{ClaimsFit, PricesFit};

use crate::certificate::{CapAt, Cert, Certificate, CostWord, TieAt};
use crate::table::{Operand, name, row};
use pra_base::{Addr, Base, Block, Cond, End, Place, VInstr, VProc, VarId, VarKind};
use pra_packed::Packed;
use serde_json::{Map, Value, json, put};
use std::alloc::{AllocError, Global};

/// A part that has a JSON value.
pub(crate) trait Written {
    ghost use Rattle.serde_json.specs.Data.{Data};

    ghost form: { Self → Data };

    /// Its numbers are in their types.
    ghost fits: { Self → Type 0 };

    fn value(&self, alloc: Global) -> Result<Value, AllocError>
        ensures is { IfOk result (λ v. view v ≡ form self.now) }
        ensures range { OnOk result (fits self.now) };
}

/// The list of some parts.
fn list_value<T: Written>(alloc: Global, parts: &[T]) -> Result<Value, AllocError>
    ensures is { IfOk result (λ v. view v ≡ list T.form parts.now) }
    ensures range { OnOk result (Each T.fits parts.now) }
{
    let mut values = Vec::with_capacity(alloc, parts.len())?;
    for part in parts {
        values.push(part.value(alloc)?)?;
    }
    Ok(Value::from(values))
}

/// A condition's number in the instructions of the machine.
pub(crate) fn condition_number(k: Cond) -> u32
    ensures { result ≡ cond_number k }
{
    match k {
        Cond::B => 2,
        Cond::Ae => 3,
        Cond::E => 4,
        Cond::Ne => 5,
        Cond::Be => 6,
        Cond::A => 7,
        Cond::S => 8,
        Cond::Ns => 9,
        Cond::L => 12,
        Cond::Ge => 13,
        Cond::Le => 14,
        Cond::G => 15,
    }
}

impl Written for VarKind {
    ghost form = { kind_data };

    ghost fits = { KindFits };

    fn value(&self, alloc: Global) -> Result<Value, AllocError> {
        match *self {
            VarKind::Param(i) => json!(in alloc; ["param", i]),
            VarKind::Plain => json!(in alloc; ["plain"]),
            VarKind::Constant(c) => json!(in alloc; ["constant", c]),
        }
    }
}

pub(crate) fn base_name(base: Base) -> &'static str
    ensures { result.now ≡ base_name base }
{
    match base {
        Base::Global(_) => "global",
        Base::Frame(_) => "frame",
        Base::Cell(_) => "cell",
        Base::Via(_) => "via",
    }
}

pub(crate) fn base_number(base: Base) -> u32
    ensures { result ≡ base_number base }
{
    match base {
        Base::Global(n) | Base::Frame(n) | Base::Cell(n) => n,
        Base::Via(v) => v.0,
    }
}

fn index_value(index: Option<VarId>) -> Value
    ensures { view result ≡ index_data index }
{
    match index {
        Some(v) => Value::from(v.0),
        None => Value::Null,
    }
}

fn address_value(alloc: Global, a: Addr) -> Result<Value, AllocError>
    ensures is { IfOk result (λ v. view v ≡ address_data a) }
    ensures range { OnOk result (AddressFits a) }
{
    let name = base_name(a.base);
    let number = base_number(a.base);
    let index = index_value(a.index);
    json!(in alloc; [name, number, (a.offset), index])
}

fn operand_value(alloc: Global, operand: Operand) -> Result<Value, AllocError>
    ensures is { IfOk result (λ v. view v ≡ operand_data operand) }
    ensures range { OnOk result (OperandFits operand) }
{
    match operand {
        Operand::Variable(v) => Ok(Value::from(v.0)),
        Operand::Number(n) => Ok(Value::from(n)),
        Operand::Address(a) => address_value(alloc, a),
        Operand::Condition(k) => Ok(Value::from(condition_number(k))),
        Operand::Procedure(p) => Ok(Value::from(p.0)),
    }
}

// Adds the values of operands to a list.
fn push_operands(
    alloc: Global,
    values: &mut Vec<Value>,
    operands: &[Operand],
) -> Result<(), AllocError>
    ensures is { OnOk result (map view values.new.items
        ≡ map view values.old.items ++ map operand_data operands.now) }
    ensures range { OnOk result (Each OperandFits operands.now) }
{
    for operand in operands {
        values.push(operand_value(alloc, *operand)?)?;
    }
    Ok(())
}

fn instruction_value(alloc: Global, i: VInstr) -> Result<Value, AllocError>
    ensures is { IfOk result (λ v. view v ≡ instruction_data i) }
    ensures range { OnOk result (InstructionFits i) }
{
    let spelled = row(i);
    let mut values = Vec::with_capacity(alloc, 5)?;
    values.push(Value::try_from_str(alloc, name(spelled.form))?)?;
    push_operands(alloc, &mut values, spelled.operands.as_slice())?;
    Ok(Value::from(values))
}

impl Written for VInstr {
    ghost form = { instruction_data };

    ghost fits = { InstructionFits };

    fn value(&self, alloc: Global) -> Result<Value, AllocError> {
        instruction_value(alloc, *self)
    }
}

fn end_value(alloc: Global, end: End) -> Result<Value, AllocError>
    ensures is { IfOk result (λ v. view v ≡ end_data end) }
    ensures range { OnOk result (EndFits end) }
{
    match end {
        End::Jump(b) => json!(in alloc; ["jump", (b.0)]),
        End::Branch(k, yes, no) => {
            let condition = condition_number(k);
            json!(in alloc; ["branch", condition, (yes.0), (no.0)])
        }
        End::Return => json!(in alloc; ["return"]),
    }
}

impl Written for Block {
    ghost form = { block_data };

    ghost fits = { BlockFits };

    fn value(&self, alloc: Global) -> Result<Value, AllocError> {
        let code = list_value(alloc, self.code.as_slice())?;
        let end = end_value(alloc, self.end)?;
        json!(in alloc; [(self.depth), code, end])
    }
}

impl Written for Place {
    ghost form = { place_data };

    ghost fits = { λ p. ⊤ };

    fn value(&self, _alloc: Global) -> Result<Value, AllocError> {
        Ok(Value::from(self.number()))
    }
}

impl Written for CapAt {
    ghost form = { cap_data };

    ghost fits = { CapFits };

    fn value(&self, alloc: Global) -> Result<Value, AllocError> {
        json!(in alloc; [(self.at), (self.price)])
    }
}

impl Written for TieAt {
    ghost form = { tie_data };

    ghost fits = { TieFits };

    fn value(&self, alloc: Global) -> Result<Value, AllocError> {
        json!(in alloc; [(self.at), (self.number)])
    }
}

fn natural_value(n: u32) -> Value
    ensures is { view result ≡ natural n }
    ensures range { IsNatural n }
{
    Value::from(n)
}

fn long_value(n: u64) -> Value
    ensures is { view result ≡ natural n }
    ensures range { IsLong n }
{
    Value::from(n)
}

/// Adds the members of code to an object.
pub(crate) fn put_code(
    map: &mut Map<String, Value>,
    alloc: Global,
    code: &VProc,
) -> Result<(), AllocError>
    ensures is { OnOk result (members_view map.new.entries
        ≡ with_code code.now (members_view map.old.entries)) }
    ensures range { OnOk result (CodeFits code.now) }
{
    put(map, alloc, "aggregates", natural_value(code.aggregates))?;
    put(map, alloc, "args", natural_value(code.args))?;
    let blocks = list_value(alloc, code.blocks.as_slice())?;
    put(map, alloc, "blocks", blocks)?;
    let vars = list_value(alloc, code.vars.as_slice())?;
    put(map, alloc, "vars", vars)?;
    Ok(())
}

// The list of the lists of places.
fn paths_value(alloc: Global, paths: &Packed<Place>) -> Result<Value, AllocError>
    ensures { IfOk result (λ v. view v ≡ list path_data paths.now) }
{
    let mut values = Vec::with_capacity(alloc, paths.len())?;
    for at in 0..paths.len() {
        values.push(list_value(alloc, paths.at(at))?)?;
    }
    Ok(Value::from(values))
}

// Adds what is claimed of a procedure: its routes, and what they and all others cost.
fn put_claims(map: &mut Map<String, Value>, alloc: Global, c: &Cert) -> Result<(), AllocError>
    ensures is { OnOk result (members_view map.new.entries
        ≡ with_claims c.now (members_view map.old.entries)) }
    ensures range { OnOk result (ClaimsFit c.now) }
{
    put(map, alloc, "bound", long_value(c.bound))?;
    let routes = paths_value(alloc, &c.routes.places)?;
    put(map, alloc, "routes", routes)?;
    put(map, alloc, "total", long_value(c.total))?;
    Ok(())
}

// Adds its prices.
fn put_prices(map: &mut Map<String, Value>, alloc: Global, c: &Cert) -> Result<(), AllocError>
    ensures is { OnOk result (members_view map.new.entries
        ≡ with_prices c.now (members_view map.old.entries)) }
    ensures range { OnOk result (PricesFit c.now) }
{
    let caps = list_value(alloc, c.caps.as_slice())?;
    put(map, alloc, "caps", caps)?;
    let mems = list_value(alloc, c.mems.as_slice())?;
    put(map, alloc, "mems", mems)?;
    let ties = list_value(alloc, c.ties.as_slice())?;
    put(map, alloc, "ties", ties)?;
    Ok(())
}

fn cert_value(alloc: Global, c: &Cert) -> Result<Value, AllocError>
    ensures is { IfOk result (λ v. view v
        ≡ object (with_prices c.now (with_claims c.now (with_code c.now.code no_members)))) }
    ensures range { OnOk result (CertFits c.now) }
{
    let mut map = Map::new(alloc);
    put_code(&mut map, alloc, &c.code)?;
    put_claims(&mut map, alloc, c)?;
    put_prices(&mut map, alloc, c)?;
    Ok(Value::Object(map))
}

impl Written for Cert {
    ghost form = { cert_data };

    ghost fits = { CertFits };

    fn value(&self, alloc: Global) -> Result<Value, AllocError> {
        cert_value(alloc, self)
    }
}

fn cost_name(cost: CostWord) -> &'static str
    ensures { result.now ≡ cost_name cost }
{
    match cost {
        CostWord::Size => "size",
        CostWord::Speed => "speed",
    }
}

/// Adds the last members of a whole to an object: its kind, its procedures and the version.
pub(crate) fn put_file<T: Written>(
    map: &mut Map<String, Value>,
    alloc: Global,
    kind: &str,
    procs: &[T],
) -> Result<(), AllocError>
    ensures is { OnOk result (members_view map.new.entries
        ≡ with_file kind.now T.form procs.now (members_view map.old.entries)) }
    ensures range { OnOk result (Each T.fits procs.now) }
{
    put(map, alloc, "kind", Value::try_from_str(alloc, kind)?)?;
    let procs = list_value(alloc, procs)?;
    put(map, alloc, "procs", procs)?;
    put(map, alloc, "version", Value::from(1u32))?;
    Ok(())
}

impl Written for Certificate {
    ghost form = { certificate_data };

    ghost fits = { λ c. Each CertFits c.procs };

    fn value(&self, alloc: Global) -> Result<Value, AllocError> {
        let mut map = Map::new(alloc);
        let cost = Value::try_from_str(alloc, cost_name(self.cost))?;
        put(&mut map, alloc, "cost", cost)?;
        put_file(&mut map, alloc, "pra-certificate", self.procs.as_slice())?;
        Ok(Value::Object(map))
    }
}
