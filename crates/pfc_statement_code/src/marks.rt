//! Branches that stand one behind the other, each with a jump behind it.
ghost use Rattle.std.specs.Prelude.{◌≡◌};
ghost use Rattle.pfc_tree.specs.views.Stmts.{comm_view};
ghost use Rattle.pfc_statement_code.specs.Branches as branches;

use pfc_addresses::Site;
use pfc_code::Instr;
use pfc_emit::EmitFault;
use pfc_expression_code::Coder;
use pfc_tree::Comm;
use std::alloc::Global;

/// Where branches begin, and the jumps behind them, which lead nowhere yet: their addresses, from 0, in the order of the text.
#[derive(Drop)]
pub(crate) struct Marks {
    pub starts: Vec<u32>,
    pub ends: Vec<u32>,
}

impl Marks {
    ghost use Rattle.std.specs.Prelude.{◌≡◌, ◌++◌, [], ◌∷◌, ◌+◌, length, OnOk, IfErr};
    ghost use Rattle.pfc_translation.specs.Codes.{one};
    ghost use Rattle.pfc_emit.specs.declared.emitter.EmitFault.TheVariants.{Full, Memory as NoMemory};
    ghost use Rattle.pfc_addresses.specs.Sites.{site_view};
    ghost use Rattle.pfc_expression_code.specs.Putting.{IsMade, IsTooLarge};

    /// No branch. It takes no memory.
    pub(crate) fn new(alloc: Global) -> Marks
        ensures starts { result.starts.items ≡ [] }
        ensures ends { result.ends.items ≡ [] }
    {
        Marks {
            starts: Vec::new(alloc),
            ends: Vec::new(alloc),
        }
    }

    /// A branch begins with what is put next. Its only refusal is want of memory.
    pub(crate) fn begin(&mut self, code: &Coder) -> Result<(), EmitFault>
        ensures starts { OnOk result (self.new.starts.items ≡ self.old.starts.items ++ length code.now.code ∷ []) }
        ensures ends { self.new.ends.items ≡ self.old.ends.items }
        ensures fault { IfErr result (λ fault. fault ≡ NoMemory) }
    {
        match self.starts.push(code.here()) {
            Ok(()) => Ok(()),
            Err(_) => Err(EmitFault::Memory),
        }
    }

    /// Puts the jump behind a branch, which leads nowhere yet.
    pub(crate) fn end(&mut self, site: Site, code: &mut Coder) -> Result<(), EmitFault>
        ensures code { OnOk result (IsMade (one (site_view site.entry) (Instr.JMP 0)) code.old code.new) }
        ensures starts { self.new.starts.items ≡ self.old.starts.items }
        ensures ends { OnOk result (self.new.ends.items ≡ self.old.ends.items ++ length code.old.code ∷ []) }
        ensures large { IfErr result (λ fault. fault ≡ Full → IsTooLarge (one (site_view site.entry) (Instr.JMP 0)) code.old) }
    {
        let end = code.place(Instr::JMP(0), site)?;
        match self.ends.push(end) {
            Ok(()) => Ok(()),
            Err(_) => Err(EmitFault::Memory),
        }
    }
}

/// Whether an alternative is `terminate`.
pub(crate) fn is_terminate(comm: &Comm) -> bool
    ensures { result ≡ branches.is_terminate (comm_view comm.now) }
{
    match comm {
        Comm::Terminate(_) => true,
        Comm::Accept(_, _) => false,
        Comm::Send(_, _, _) => false,
        Comm::Receive(_, _, _) => false,
        Comm::Timeout(_, _) => false,
    }
}
