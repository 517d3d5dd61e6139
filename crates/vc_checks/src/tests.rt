// Codes of a procedure, and what is left of them.

use crate::leave::blocks_left;
use pra_base::VInstr::{Add, And, Call, Check, CheckPos, Cmp, Copy, DivMod, Read, Set, Sub, Write};
use pra_base::{Block, BlockId, Cond, End, OutOfMemory, ProcId, VInstr, VProc, VarId, VarKind};
use pra_list::Seq;
use std::alloc::{AllocError, Global};
use std::process::Abort;

const X: VarId = VarId(0);

const Y: VarId = VarId(1);

const Z: VarId = VarId(2);

const W: VarId = VarId(3);
/// A constant.
const FIVE: VarId = VarId(4);

const VARS: &[VarKind] = &[
    VarKind::Plain,
    VarKind::Plain,
    VarKind::Param(0),
    VarKind::Plain,
    VarKind::Constant(5),
];

const RETURN: End = End::Return;

/// To block 1 or to block 2.
const EITHER: End = End::Branch(Cond::L, BlockId(1), BlockId(2));

/// From the head of a loop, block 1, to its body or to the last block.
const AROUND: End = End::Branch(Cond::L, BlockId(2), BlockId(3));

const TO_HEAD: End = End::Jump(BlockId(1));

const TO_LAST: End = End::Jump(BlockId(3));

struct Row {
    name: &'static str,
    blocks: &'static [(&'static [VInstr], End)],
    /// The numbers of the instructions that are left of each block.
    left: &'static [&'static [usize]],
}

const ROWS: &[Row] = &[
    Row {
        name: "a check again",
        blocks: &[(
            &[Check(X, 10), Write(X), Check(X, 10), Check(X, 20)],
            RETURN,
        )],
        left: &[&[0, 1]],
    },
    Row {
        name: "a check of less stays",
        blocks: &[(&[Check(X, 20), Check(X, 10), Check(X, 20)], RETURN)],
        left: &[&[0, 1]],
    },
    Row {
        name: "behind what writes the index",
        blocks: &[(
            &[Check(X, 10), Add(X, Y), Check(X, 10), Read(X), Check(X, 10)],
            RETURN,
        )],
        left: &[&[0, 1, 2, 3, 4]],
    },
    Row {
        name: "a copy has the value of its source, and keeps it",
        blocks: &[(
            &[
                Check(X, 10),
                Copy(Y, X),
                Read(X),
                Check(Y, 10),
                Check(X, 10),
            ],
            RETURN,
        )],
        left: &[&[0, 1, 2, 4]],
    },
    Row {
        name: "numbers that are set",
        blocks: &[(
            &[Set(X, 3), Check(X, 4), Check(X, 3), Set(Y, -1), Check(Y, 4)],
            RETURN,
        )],
        left: &[&[0, 2, 3, 4]],
    },
    Row {
        name: "constants",
        blocks: &[(&[Check(FIVE, 6), Check(FIVE, 5), CheckPos(FIVE)], RETURN)],
        left: &[&[1]],
    },
    Row {
        name: "constants, and another variable behind them",
        blocks: &[
            (&[Check(FIVE, 6), CheckPos(FIVE), Check(X, 10)], TO_HEAD),
            (&[Check(X, 10), Check(FIVE, 6)], RETURN),
        ],
        left: &[&[2], &[]],
    },
    Row {
        name: "divisors; a division writes its results",
        blocks: &[(
            &[
                CheckPos(X),
                CheckPos(X),
                CheckPos(W),
                DivMod(W, Y, Z, X),
                CheckPos(X),
                CheckPos(W),
            ],
            RETURN,
        )],
        left: &[&[0, 2, 3, 5]],
    },
    Row {
        name: "a divisor that was an index may be 0",
        blocks: &[(
            &[Check(X, 9), CheckPos(X), Check(X, 9), Check(X, 8)],
            RETURN,
        )],
        left: &[&[0, 1, 3]],
    },
    Row {
        name: "a callee does not change variables",
        blocks: &[(&[Check(X, 10), Call(ProcId(1)), Check(X, 10)], RETURN)],
        left: &[&[0, 1]],
    },
    Row {
        name: "checked on both ways",
        blocks: &[
            (&[Cmp(Y, Z)], EITHER),
            (&[Check(X, 10)], TO_LAST),
            (&[Check(X, 20)], TO_LAST),
            (&[Check(X, 20), Check(X, 19)], RETURN),
        ],
        left: &[&[0], &[0], &[0], &[1]],
    },
    Row {
        name: "checked on one way alone",
        blocks: &[
            (&[Cmp(Y, Z)], EITHER),
            (&[Check(X, 10)], TO_LAST),
            (&[Write(X)], TO_LAST),
            (&[Check(X, 10)], RETURN),
        ],
        left: &[&[0], &[0], &[0], &[0]],
    },
    Row {
        name: "a way that control never takes",
        blocks: &[
            (&[Check(X, 10), Check(X, 10)], TO_LAST),
            (&[Check(X, 10)], TO_HEAD),
            (&[Write(X)], TO_LAST),
            (&[Check(X, 10), Check(X, 10)], RETURN),
        ],
        left: &[&[0], &[0], &[0], &[0]],
    },
    Row {
        name: "checked before a loop",
        blocks: &[
            (&[Check(X, 10)], TO_HEAD),
            (&[Cmp(Y, Z)], AROUND),
            (&[Check(X, 10), Add(Y, X)], TO_HEAD),
            (&[Check(X, 10)], RETURN),
        ],
        left: &[&[0], &[0], &[1], &[]],
    },
    Row {
        name: "a loop that writes the index",
        blocks: &[
            (&[Set(X, 0), Set(Y, 0)], TO_HEAD),
            (&[Cmp(X, Z)], AROUND),
            (
                &[Check(X, 10), Check(Y, 10), Add(X, FIVE), Check(Y, 1)],
                TO_HEAD,
            ),
            (&[Check(Y, 10)], RETURN),
        ],
        left: &[&[0, 1], &[0], &[0, 2], &[]],
    },
    Row {
        name: "a loop up to a limit, and what is known behind it",
        blocks: &[
            (&[Set(X, 0)], TO_HEAD),
            (&[Cmp(X, FIVE)], AROUND),
            (&[Check(X, 5), Check(X, 4), Add(X, FIVE)], TO_HEAD),
            (&[CheckPos(X), Check(X, 9), Check(X, 8)], RETURN),
        ],
        left: &[&[0], &[0], &[1, 2], &[2]],
    },
    Row {
        name: "on the arm where it is no less",
        blocks: &[
            (&[Cmp(FIVE, X)], EITHER),
            (&[CheckPos(X), Check(X, 10)], TO_LAST),
            (&[CheckPos(X), Check(X, 6)], TO_LAST),
            (&[Write(X)], RETURN),
        ],
        left: &[&[0], &[1], &[0, 1], &[0]],
    },
    Row {
        name: "a limit alone tells nothing of what may be no word",
        blocks: &[
            (&[Cmp(X, FIVE)], EITHER),
            (&[Check(X, 10)], TO_LAST),
            (&[CheckPos(X)], TO_LAST),
            (&[Write(X)], RETURN),
        ],
        left: &[&[0], &[0], &[], &[0]],
    },
    Row {
        name: "sums and differences",
        blocks: &[(
            &[
                Check(X, 10),
                Add(X, FIVE),
                Check(X, 15),
                Check(X, 14),
                Sub(X, FIVE),
                Check(X, 9),
                Sub(X, FIVE),
                Check(X, 9),
            ],
            RETURN,
        )],
        left: &[&[0, 1, 3, 4, 6, 7]],
    },
    Row {
        name: "a sum that may wrap",
        blocks: &[(&[CheckPos(X), Add(X, FIVE), CheckPos(X)], RETURN)],
        left: &[&[0, 1, 2]],
    },
    Row {
        name: "bits in common",
        blocks: &[(
            &[
                Read(X),
                And(X, FIVE),
                Check(X, 6),
                Check(X, 5),
                And(X, Y),
                CheckPos(X),
            ],
            RETURN,
        )],
        left: &[&[0, 1, 3, 4, 5]],
    },
];

fn code_of(alloc: Global, row: &Row) -> Result<VProc, AllocError> {
    let mut blocks = Vec::new(alloc);
    for (code, end) in row.blocks {
        blocks.push(Block {
            depth: 0,
            code: Seq::from_slice(alloc, *code)?,
            end: *end,
        })?;
    }
    Ok(VProc {
        id: ProcId(0),
        args: 1,
        aggregates: 0,
        vars: Seq::from_slice(alloc, VARS)?,
        blocks: Seq::from_vec(blocks),
    })
}

fn is_left(block: &Block, code: &[VInstr], left: &[usize]) -> bool {
    if block.code.len() != left.len() {
        return false;
    }
    for (instr, at) in block.code.as_slice().iter().zip(left) {
        match code.get(*at) {
            Some(same) => {
                if *instr != *same {
                    return false;
                }
            }
            None => return false,
        }
    }
    true
}

#[test]
fn checks_that_cannot_fail_are_left_out(rt: HostRuntime) -> Result<(), OutOfMemory> {
    for row in ROWS {
        let name = row.name;
        let code = code_of(rt.alloc(), row)?;
        let Some(blocks) = blocks_left(rt.alloc(), &code)? else {
            panic!(rt; "{name}");
        };
        assert_eq!(rt; blocks.len(), row.left.len(), "{name}");
        for (b, left) in row.left.iter().enumerate() {
            let (Some(block), Some((old, _))) = (blocks.get(b), row.blocks.get(b)) else {
                panic!(rt; "{name}");
            };
            assert!(rt; is_left(block, *old, *left), "{name} {b}");
        }
    }
    Ok(())
}
