// Extras: what an operand costs more at a place than in a register.

ghost use Rattle.std.specs.Prelude.{◌≡◌, ◌++◌, ◌<◌, ◌+◌, ◌^◌, length, All, map, IfOk, OnOk};
ghost use Rattle.std.specs.Prelude.{option_to_list};
ghost use Rattle.std.specs.List.{filter_map, flat_map, enumerate_from};
ghost use Rattle.pra_base.specs.Code.{kind_of};
ghost use Rattle.pra_base.specs.Valid.{IsSized, near as near_code};
ghost use Rattle.net_form.specs.Formed.{IsStrandOf};
ghost use Rattle.net_form.specs.Network.{event_at, extras, net_block};
ghost use Rattle.net_form.specs.Tables.{all_tables};
ghost use Rattle.net_build.specs.Extras.{allowed_extra, layer_extras, operand_extras};
ghost use Rattle.net_build.specs.Extras.{strand_extras};

use crate::beside::beside;
use crate::extra_columns::{constant_event, extra_columns_of, memory_event, plays};
use net_cost::Event;
use net_form::{Extra, Strand};
use pra_base::places::allows;
use pra_base::{Mask, Place, VInstr, VProc, VarKind};
use pra_list::Seq;
use std::alloc::{AllocError, Global};

// What the variable is; Plain where there is none of this number.
fn kind_of(code: &VProc, var: u32) -> VarKind
    ensures { result ≡ kind_of code.now var }
{
    if (var as usize) < code.vars.len() {
        code.vars[var as usize]
    } else {
        VarKind::Plain
    }
}

// What a variable costs at a place, as an operand of an instruction.
fn event_at(code: &VProc, near: bool, var: u32, instr: &VInstr, place: Place) -> Option<Event>
    requires { near ≡ near_code code.now.vars code.now.args }
    ensures { result ≡ event_at all_tables code.now var instr.now place }
{
    let extra = extra_columns_of(instr);
    match place {
        Place::Mem => memory_event(near, extra),
        Place::Const => constant_event(kind_of(code, var), extra),
        _ => None,
    }
}

// Adds the extra of a strand at a layer and a place, if there is an event and the place is allowed.
fn add_extra(
    number: u32,
    layer: u32,
    mask: Mask,
    place: Place,
    event: Option<Event>,
    out: &mut Seq<Extra>,
) -> Result<(), AllocError>
    ensures { OnOk result (out.new ≡ out.old ++
        option_to_list (allowed_extra number layer mask place event)) }
{
    if !allows(mask, place) {
        return Ok(());
    }
    if let Some(event) = event {
        out.push(Extra {
            strand: number,
            layer,
            place,
            event,
        })?;
    }
    Ok(())
}

// Adds the extras of a strand at the layer, of whose instruction its variable is an operand there.
fn add_operand(
    code: &VProc,
    near: bool,
    number: u32,
    var: u32,
    layer: u32,
    mask: Mask,
    instr: &VInstr,
    out: &mut Seq<Extra>,
) -> Result<(), AllocError>
    requires near { near ≡ near_code code.now.vars code.now.args }
    ensures { OnOk result (out.new ≡ out.old ++
        operand_extras code.now number var layer mask instr.now) }
{
    let event = event_at(code, near, var, instr, Place::Mem);
    add_extra(number, layer, mask, Place::Mem, event, out)?;
    let event = event_at(code, near, var, instr, Place::Const);
    add_extra(number, layer, mask, Place::Const, event, out)?;
    Ok(())
}

// Adds the extras of a strand at a layer. At most layers its variable is no operand.
fn add_layer(
    code: &VProc,
    near: bool,
    number: u32,
    strand: &Strand,
    layer: u32,
    mask: Mask,
    out: &mut Seq<Extra>,
) -> Result<(), AllocError>
    requires near { near ≡ near_code code.now.vars code.now.args }
    requires block { strand.now.block.0 < length code.now.blocks }
    ensures { OnOk result
        (out.new ≡ out.old ++ layer_extras code.now number strand.now (layer, mask)) }
{
    let Some(instr) = beside(code, strand.block.0, layer) else {
        return Ok(());
    };
    if !plays(instr, layer, strand.var.0) {
        return Ok(());
    }
    add_operand(code, near, number, strand.var.0, layer, mask, instr, out)?;
    Ok(())
}

// Adds the extras of a strand.
fn add_strand(
    code: &VProc,
    near: bool,
    number: u32,
    strand: &Strand,
    out: &mut Seq<Extra>,
) -> Result<(), AllocError>
    requires near { near ≡ near_code code.now.vars code.now.args }
    requires block { strand.now.block.0 < length code.now.blocks }
    requires few { strand.now.first + length strand.now.masks < 100001 }
    ensures { OnOk result (out.new ≡ out.old ++ strand_extras code.now (number, strand.now)) }
{
    let mut layer = strand.first;
    let mut rest = strand.masks.as_slice();
    while let [mask, others @ ..] = rest {
        add_layer(code, near, number, strand, layer, *mask, out)?;
        layer += 1;
        rest = others;
    }
    Ok(())
}

/// The extras of strands, each of a block of the code.
///
/// # Errors
///
/// Where there is no memory for them.
pub fn extras_of(
    alloc: Global,
    code: &VProc,
    near: bool,
    strands: &Seq<Strand>,
) -> Result<Seq<Extra>, AllocError>
    requires sized { IsSized code.now }
    requires near { near ≡ near_code code.now.vars code.now.args }
    requires few { length strands.now < 2 ^ 32 }
    requires strands { All (IsStrandOf (map net_block code.now.blocks)) strands.now }
    ensures { IfOk result (λ made. made ≡ extras all_tables code.now strands.now) }
{
    let mut out = Seq::new(alloc);
    for number in 0..strands.len() as u32 {
        add_strand(code, near, number, &strands[number as usize], &mut out)?;
    }
    Ok(out)
}
