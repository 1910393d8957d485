//! Where a statement stands.
ghost use Rattle.std.specs.Prelude.{◌≡◌, ◌+◌, IfOk, IfErr};
ghost use Rattle.pfc_emit.specs.declared.emitter.EmitFault.TheVariants.{Memory as NoMemory};

use pfc_addresses::Site;
use pfc_emit::EmitFault;
use std::alloc::Global;

/// Where a statement stands: its place of the text, the number of the next scope of the text there, from 0, and the memory for what is
/// kept while its code is put.
#[derive(Clone, Copy)]
pub(crate) struct Position<'t, 'e> {
    pub alloc: Global,
    pub site: Site<'t, 'e>,
    pub next: u32,
}

impl<'t, 'e> Position<'t, 'e> {
    ghost use Rattle.std.specs.Prelude.{◌≡◌};
    ghost use Rattle.pfc_addresses.specs.Sites.{site_view};
    ghost use Rattle.pfc_translation.specs.Sites.{at_line};

    /// The same, for instructions with another line.
    pub(crate) fn at(self, line: u32) -> Position<'t, 'e>
        ensures site { site_view result.site ≡ at_line (site_view self.entry.site) line }
        ensures next { result.next ≡ self.entry.next }
    {
        Position {
            site: self.site.at(line),
            ..self
        }
    }
}

/// The number behind that of a scope. One of more than 32 bits, which no checked tree reaches, counts as want of memory.
pub(crate) fn following(next: u32) -> Result<u32, EmitFault>
    ensures value { IfOk result (λ n. n ≡ next + 1) }
    ensures fault { IfErr result (λ fault. fault ≡ NoMemory) }
{
    match next.checked_add(1) {
        Some(n) => Ok(n),
        None => Err(EmitFault::Memory),
    }
}
