// Costs that no module has, a certificate with each kind of part, and drawn numbers.

ghost use Rattle.std.specs.Prelude.{◌≡◌, [], ◌∷◌, IfOk};

use cert_form::{CostWord, cert_read, cert_text};
use net_form::{Line, Prices, Routes, TieNumbers};
use net_kept::KeptPrices;
use pra_base::{OutOfMemory, ProcId, VProc};
use pra_gen::Draws;
use pra_list::Seq;
use pra_packed::Packed;
use pra_report::{ProcOut, generated_line, report_text};
use std::alloc::{AllocError, Global};
use std::test::Fail;

/// All kinds of variables, instructions, addresses, conditions, ends and places, and each number at
/// an end of its type, in two procedures that no module has.
/// `'` is a quotation mark, and `$` the end of a line.
const EVERY_PART: &str = "{'cost':'speed','kind':'pra-certificate','procs':[{'aggregates':3,\
    'args':4294967295,'blocks':[[4294967295,[['set',0,-2147483648],['copy',1,2],['add',1,2],\
    ['sub',1,2],['and',1,2],['or',1,2],['xor',1,2],['mul',1,2],['neg',4294967295],['cmp',1,2],\
    ['cmpset',2,1,2,3],['cmpset',3,1,2,3],['cmpset',4,1,2,3],['cmpset',5,1,2,3],\
    ['cmpset',6,1,2,3],['cmpset',7,1,2,3],['cmpset',8,1,2,3],['cmpset',9,1,2,3],\
    ['cmpset',12,1,2,3],['cmpset',13,1,2,3],['cmpset',14,1,2,3],['divmod',1,2,3,4],\
    ['check',1,2147483647],['checkpos',1],['load',1,['global',4294967295,2147483647,null]],\
    ['store',['frame',2,-2147483648,4294967295],3],['addr',1,['cell',0,0,0]],\
    ['addr',1,['via',5,4,null]],['push',1],['call',4294967295],['read',1],['write',1],['line'],\
    ['clear']],['jump',4294967295]],[0,[],['branch',15,4294967295,0]]],\
    'bound':18446744073709551615,'caps':[[4294967295,18446744073709551615]],'mems':[[1,0],[0,1]],\
    'routes':[[0,1,2,3,4,5,6,7,8,9,10,11,12,13],[]],\
    'ties':[[0,-9223372036854775808],[1,9223372036854775807]],'total':18446744073709551615,\
    'vars':[['param',4294967295],['plain'],['constant',-2147483648]]},{'aggregates':0,'args':0,\
    'blocks':[],'bound':0,'caps':[],'mems':[],'routes':[],'ties':[],'total':0,'vars':[]}],\
    'version':1}$";

// The text that a constant stands for.
fn text_of(alloc: Global, row: &str) -> Result<Vec<u8>, AllocError> {
    let mut bytes = Vec::with_capacity(alloc, row.len())?;
    for b in row.bytes() {
        bytes.push(match b {
            b'\'' => b'"',
            b'$' => b'\n',
            other => other,
        })?;
    }
    Ok(bytes)
}

// A procedure of which a line is told.
fn proc(alloc: Global, name: u8, line: Line) -> Result<ProcOut, OutOfMemory>
    ensures { IfOk result (λ p. p.lines ≡ line ∷ []) }
{
    let mut bytes = Vec::new(alloc);
    bytes.push(name)?;
    let mut lines = Vec::new(alloc);
    lines.push(line)?;
    let prices = Prices {
        caps: Seq::new(alloc),
        mems: Seq::new(alloc),
        ties: TieNumbers::new(alloc),
    };
    Ok(ProcOut {
        name: Seq::from_vec(bytes),
        frame: 20,
        code: no_code(alloc),
        routes: Routes {
            places: Packed::new(alloc),
        },
        prices: KeptPrices::of(alloc, prices)?,
        lines: Seq::from_vec(lines),
    })
}

fn no_code(alloc: Global) -> VProc {
    VProc {
        id: ProcId(0),
        args: 0,
        aggregates: 0,
        vars: Seq::new(alloc),
        blocks: Seq::new(alloc),
    }
}

fn line(round: u32, cost: u128, bound: u128) -> Line
    ensures { result ≡ record { round = round; cost = cost; bound = bound } }
{
    Line { round, cost, bound }
}

#[test]
fn rounds(rt: HostRuntime) -> Result<(), OutOfMemory> {
    let alloc = rt.alloc();
    let mut lines = Vec::new(alloc);
    lines.push(line(0, 340_282_366_920_938_463_463_374_607_431_768_211_455, 1))?;
    lines.push(line(1, 9, 3))?;
    let ProcOut {
        name,
        frame,
        code,
        routes,
        prices,
        ..
    } = proc(alloc, b'M', line(0, 0, 0))?;
    let told = [ProcOut {
        name,
        frame,
        code,
        routes,
        prices,
        lines: Seq::from_vec(lines),
    }];
    let text = report_text(alloc, &told, 4_294_967_295)?;
    assert_eq!(rt;
        text.as_slice(),
        b"procedure 0 M frame 20\n\
          round 0 cost 340282366920938463463374607431768211455 bound 1\n\
          round 1 cost 9 bound 3\n\
          total cost 9 bound 3 code 4294967295\n"
            .as_slice()
    );
    Ok(())
}

#[test]
fn generated(rt: HostRuntime) -> Result<(), OutOfMemory> {
    let line = generated_line(rt.alloc(), 1, 200, 987_654)?;
    assert_eq!(rt;
        line.as_slice(),
        b"generated seed 1 size 200 bytes 987654\n".as_slice()
    );
    Ok(())
}

#[test]
fn what_is_written_is_read(rt: HostRuntime) -> Result<(), Fail> {
    let text = text_of(rt.alloc(), EVERY_PART)?;
    let certificate = cert_read(rt.alloc(), &text)?;
    assert_eq!(rt; certificate.cost, CostWord::Speed);
    assert_eq!(rt; cert_text(rt.alloc(), &certificate)?, text);
    Ok(())
}

#[test]
fn first_draws(rt: HostRuntime) {
    let mut draws = Draws { state: 1 };
    for drawn in [16838, 5758, 10113, 17515, 31051, 5627, 23010, 7419] {
        assert_eq!(rt; draws.draw(), drawn);
    }
}
