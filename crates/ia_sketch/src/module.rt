// A module whose procedures are placed one after the other.

ghost use Rattle.std.specs.Prelude.{◌≡◌, ◌≤◌, IfOk, OnErr, OnOk, []};
ghost use Rattle.ia_asm.specs.Assembly.{IsImageOf};
ghost use Rattle.ia_code.specs.Image.{IsImage, max_data_words};
ghost use Rattle.ia_sketch.specs.Added.{IsAdded};
ghost use Rattle.net_form.specs.Admitted.{IsAdmitted};
ghost use Rattle.net_form.specs.Flow.{flow, AreRoutes};
ghost use Rattle.net_form.specs.Network.{IsNet};
ghost use Rattle.pra_base.specs.Valid.{IsSized, IsValid, instruction_count as count_of};

use crate::refusal::Refusal;
use crate::routing::network;
use al_edge::home;
use ia_asm::assemble;
use ia_code::Image;
use net_form::{Net, Routes};
use pl_build::place;
use pl_place::LProc;
use pra_base::{Block, OutOfMemory, VProc};
use std::alloc::Global;
use std::marker::Model;

/// So many instructions and blocks, moves left out, are code that an image holds.
const MAX_INSTRUCTIONS: usize = 262_401;

const MAX_BLOCKS: usize = 131_586;

/// Placed procedures, which can be assembled. Procedure 0 is the body.
#[derive(Drop)]
pub struct PlacedModule {
    procs: Vec<LProc>,
    // How many instructions and blocks they have together.
    instructions: usize,
    blocks: usize,
}

impl Model for PlacedModule {
    ghost use Rattle.std.specs.Prelude.{List};
    ghost use Rattle.ia_sketch.specs.Added.{AreAdded};
    ghost use Rattle.pl_place.specs.declared.placed.LProc.{LProc};

    ghost Value = { List LProc };

    ghost view = { λ m. m.procs.items };

    ghost invariant = { λ m. AreAdded m.procs.items m.instructions m.blocks };
}

// How many instructions the blocks have.
fn instructions_of(blocks: &[Block]) -> usize
    requires { count_of blocks.now ≤ 8321 }
    ensures { result ≡ count_of blocks.now }
{
    let mut count = 0usize;
    for block in blocks {
        count += block.code.len();
    }
    count
}

impl PlacedModule {
    /// No procedure yet.
    pub fn new(alloc: Global) -> PlacedModule
        ensures { result ≡ [] }
    {
        PlacedModule {
            procs: Vec::new(alloc),
            instructions: 0,
            blocks: 0,
        }
    }

    /// Places the next procedure by home routes.
    ///
    /// # Errors
    ///
    /// The first rule that the code breaks; nothing has changed then.
    pub fn add_at_home(&mut self, alloc: Global, code: &VProc) -> Result<(), Refusal>
        ensures added { OnOk result (IsAdded code.now self.old self.new) }
        ensures refused { OnErr result (self.new ≡ self.old) }
    {
        let net = network(alloc, code)?;
        let routes = home(alloc, &net)?;
        self.put(alloc, code, &net, &routes)
    }

    fn put(
        &mut self,
        alloc: Global,
        code: &VProc,
        net: &Net,
        routes: &Routes,
    ) -> Result<(), Refusal>
        requires sized { IsSized code.now }
        requires valid { IsValid code.now }
        requires net { IsNet net.now code.now }
        requires routes { AreRoutes net.now routes.now }
        requires admitted { IsAdmitted net.now (flow net.now routes.now) }
        ensures added { OnOk result (IsAdded code.now self.old self.new) }
        ensures refused { OnErr result (self.new ≡ self.old) }
    {
        let instructions = self.instructions + instructions_of(code.blocks.as_slice());
        let blocks = self.blocks + code.blocks.len();
        if instructions > MAX_INSTRUCTIONS || blocks > MAX_BLOCKS {
            return Err(Refusal::Room);
        }
        let proc = place(alloc, code, net, routes)?;
        self.procs.push(proc)?;
        self.instructions = instructions;
        self.blocks = blocks;
        Ok(())
    }

    /// The procedures so far, the body first.
    pub fn procs(&self) -> &[LProc]
        ensures { result.now ≡ self.now }
    {
        self.procs.as_slice()
    }

    /// The image of the procedures so far, with so many words of data.
    ///
    /// # Errors
    ///
    /// Where there is no memory for it.
    pub fn assemble(&self, alloc: Global, data_words: u32) -> Result<Image, OutOfMemory>
        requires { data_words ≤ max_data_words }
        ensures image { IfOk result (IsImageOf self.now data_words) }
        ensures valid { IfOk result IsImage }
    {
        assemble(alloc, self.procs.as_slice(), data_words)
    }
}
