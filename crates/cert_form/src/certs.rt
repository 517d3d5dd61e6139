// Certificates and code files, read of a text.

ghost use Rattle.std.specs.Prelude.{◌≡◌, ⊤, ℕ, Option, codes};
ghost use Rattle.serde_json.specs.Data.{Data, string, object};
ghost use Rattle.cert_form.specs.Form.{cert_data, certificate_data};
ghost use Rattle.cert_form.specs.Whole.{IsWhole};
ghost use Rattle.cert_form.specs.Streams.{IsAnswer, IsText, laid, nothing};
ghost use Rattle.cert_form.specs.Found.{CertFitsAt, CertHeld, cert_keys, CertificateHeld};
ghost use Rattle.cert_form.specs.Found.{certificate_keys};

use crate::cells::word;
use crate::certificate::{CapAt, Cert, Certificate, CostWord, TieAt};
use crate::lists::Part;
use crate::objects::{Fields, object};
use crate::passing::Unread;
use crate::reading::Version;
use json::Reader;
use net_form::Routes;
use pra_base::{Block, Place, ProcId, VProc, VarKind};
use pra_list::Seq;
use pra_packed::Packed;
use std::alloc::Global;

/// What was found of a procedure.
#[derive(Drop)]
struct CertFound {
    aggregates: Option<u32>,
    args: Option<u32>,
    blocks: Option<Seq<Block>>,
    bound: Option<u64>,
    caps: Option<Seq<CapAt>>,
    mems: Option<Seq<CapAt>>,
    routes: Option<Packed<Place>>,
    ties: Option<Seq<TieAt>>,
    total: Option<u64>,
    vars: Option<Seq<VarKind>>,
}

impl Fields for CertFound {
    ghost use Rattle.std.specs.Prelude.{refl};
    ghost use Rattle.cert_form.specs.Found.{cert_keys, CertHeld};

    ghost keys = { cert_keys };

    ghost held = { CertHeld };

    fn names() -> &'static [&'static str] {
        &[
            "aggregates",
            "args",
            "blocks",
            "bound",
            "caps",
            "mems",
            "routes",
            "ties",
            "total",
            "vars",
        ]
    }

    fn read(
        &mut self,
        alloc: Global,
        index: usize,
        reader: &mut Reader<'_>,
        depth: usize,
    ) -> Result<(), Unread> {
        if index == 0 {
            self.aggregates = Part::part(alloc, 0, reader, depth)?;
            return Ok(());
        }
        if index == 1 {
            self.args = Part::part(alloc, 0, reader, depth)?;
            return Ok(());
        }
        if index == 2 {
            self.blocks = Part::part(alloc, 0, reader, depth)?;
            return Ok(());
        }
        if index == 3 {
            self.bound = Part::part(alloc, 0, reader, depth)?;
            return Ok(());
        }
        if index == 4 {
            self.caps = Part::part(alloc, 0, reader, depth)?;
            return Ok(());
        }
        if index == 5 {
            self.mems = Part::part(alloc, 0, reader, depth)?;
            return Ok(());
        }
        if index == 6 {
            self.routes = Part::part(alloc, 0, reader, depth)?;
            return Ok(());
        }
        if index == 7 {
            self.ties = Part::part(alloc, 0, reader, depth)?;
            return Ok(());
        }
        if index == 8 {
            self.total = Part::part(alloc, 0, reader, depth)?;
            return Ok(());
        }
        self.vars = Part::part(alloc, 0, reader, depth)?;
        Ok(())
    }

    ghost ordered = { refl };
}

impl CertFound {
    fn new() -> CertFound
        ensures { CertHeld result nothing }
    {
        CertFound {
            aggregates: None,
            args: None,
            blocks: None,
            bound: None,
            caps: None,
            mems: None,
            routes: None,
            ties: None,
            total: None,
            vars: None,
        }
    }

    /// The procedure of a number, if all of it was found.
    #[tactic(auto, using(crate::proofs::Held::no_aggregates, crate::proofs::Held::no_args, crate::proofs::Held::no_blocks, crate::proofs::Held::no_bound, crate::proofs::Held::no_caps, crate::proofs::Held::no_mems, crate::proofs::Held::no_routes, crate::proofs::Held::no_ties, crate::proofs::Held::no_total, crate::proofs::Held::no_vars, crate::proofs::Held::cert_found))]
    fn whole(self, number: u32) -> Option<Cert>
        ensures { (os : ℕ → Option Data) → CertHeld self os → IsAnswer cert_data
            (CertFitsAt number) result (object (laid 0 cert_keys os)) }
    {
        let CertFound {
            aggregates,
            args,
            blocks,
            bound,
            caps,
            mems,
            routes,
            ties,
            total,
            vars,
        } = self;
        let code = VProc {
            id: ProcId(number),
            args: args?,
            aggregates: aggregates?,
            vars: vars?,
            blocks: blocks?,
        };
        Some(Cert {
            code,
            routes: Routes { places: routes? },
            caps: caps?,
            mems: mems?,
            ties: ties?,
            total: total?,
            bound: bound?,
        })
    }
}

impl Part for Cert {
    ghost use Rattle.cert_form.specs.Form.{cert_data};
    ghost use Rattle.cert_form.specs.Found.{CertFitsAt};

    ghost form = { cert_data };

    ghost fits = { CertFitsAt };

    fn part(
        alloc: Global,
        number: usize,
        reader: &mut Reader<'_>,
        depth: usize,
    ) -> Result<Option<Cert>, Unread> {
        let mut found = CertFound::new();
        let all = object(alloc, &mut found, reader, depth)?;
        if !all {
            return Ok(None);
        }
        if 4294967295 < number {
            return Ok(None);
        }
        Ok(found.whole(number as u32))
    }
}

/// That a file is a certificate.
#[derive(Clone, Copy, Drop)]
struct CertKind;

fn cert_kind_in(found: Option<&str>) -> Option<CertKind>
    ensures { (d : Data) → IsText found.entry d →
        IsAnswer (λ k. string (codes "pra-certificate")) (λ k. ⊤) result d }
{
    match found {
        Some(word) => if word == "pra-certificate" {
            Some(CertKind)
        } else {
            None
        },
        None => None,
    }
}

impl Part for CertKind {
    ghost use Rattle.std.specs.Prelude.{⊤, codes};
    ghost use Rattle.serde_json.specs.Data.{string};

    ghost form = { λ k. string (codes "pra-certificate") };

    ghost fits = { λ n k. ⊤ };

    fn part(
        _alloc: Global,
        _number: usize,
        reader: &mut Reader<'_>,
        depth: usize,
    ) -> Result<Option<CertKind>, Unread> {
        let found = word(reader, depth)?;
        Ok(cert_kind_in(found))
    }
}

/// What was found of a certificate.
#[derive(Drop)]
struct CertificateFound {
    cost: Option<CostWord>,
    kind: Option<CertKind>,
    procs: Option<Seq<Cert>>,
    version: Option<Version>,
}

impl Fields for CertificateFound {
    ghost use Rattle.std.specs.Prelude.{refl};
    ghost use Rattle.cert_form.specs.Found.{certificate_keys, CertificateHeld};

    ghost keys = { certificate_keys };

    ghost held = { CertificateHeld };

    fn names() -> &'static [&'static str] {
        &["cost", "kind", "procs", "version"]
    }

    #[tactic(auto, using(crate::proofs::Held::held))]
    fn read(
        &mut self,
        alloc: Global,
        index: usize,
        reader: &mut Reader<'_>,
        depth: usize,
    ) -> Result<(), Unread> {
        if index == 0 {
            self.cost = Part::part(alloc, 0, reader, depth)?;
            return Ok(());
        }
        if index == 1 {
            self.kind = Part::part(alloc, 0, reader, depth)?;
            return Ok(());
        }
        if index == 2 {
            self.procs = Part::part(alloc, 0, reader, depth)?;
            return Ok(());
        }
        self.version = Part::part(alloc, 0, reader, depth)?;
        Ok(())
    }

    ghost ordered = { refl };
}

impl CertificateFound {
    #[tactic(auto, using(crate::proofs::Held::no_cost, crate::proofs::Held::no_kind, crate::proofs::Held::no_procs, crate::proofs::Held::no_version, crate::proofs::Held::no_proc, crate::proofs::Held::certificate_found))]
    fn whole(self) -> Option<Certificate>
        ensures { (os : ℕ → Option Data) → CertificateHeld self os → IsAnswer certificate_data
            IsWhole result (object (laid 0 certificate_keys os)) }
    {
        let CertificateFound {
            cost,
            kind,
            procs,
            version,
        } = self;
        let cost = cost?;
        let _kind = kind?;
        let procs = procs?;
        let _version = version?;
        if procs.is_empty() {
            return None;
        }
        Some(Certificate { cost, procs })
    }
}

impl Part for Certificate {
    ghost use Rattle.cert_form.specs.Form.{certificate_data};
    ghost use Rattle.cert_form.specs.Whole.{IsWhole};

    ghost form = { certificate_data };

    ghost fits = { λ n c. IsWhole c };

    fn part(
        alloc: Global,
        _number: usize,
        reader: &mut Reader<'_>,
        depth: usize,
    ) -> Result<Option<Certificate>, Unread> {
        let mut found = CertificateFound {
            cost: None,
            kind: None,
            procs: None,
            version: None,
        };
        if !object(alloc, &mut found, reader, depth)? {
            return Ok(None);
        }
        Ok(found.whole())
    }
}
