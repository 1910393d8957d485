//! What is looked up by the scopes of subs and of modules.
ghost use Rattle.std.specs.Prelude.{◌≡◌, ℕ, map, get_or, unwrap_or, None, IfOk, OnOk};
ghost use Rattle.pfc_types.specs.Scopes.{scope_at};
ghost use Rattle.pfc_types.specs.declared.heads.SubHead.{SubHead};
ghost use Rattle.pfc_types.specs.declared.heads.ModuleHead.{ModuleHead};
ghost use Rattle.pfc_semantics.specs.Layouts as layouts;
ghost use Rattle.pfc_program.specs.Firsts.{HoldFirsts, HoldBefores, noted_module};

use crate::Index;
use crate::index::note;
use crate::places::{added, main_size};
use pfc_base::Memory;
use pfc_rules::passing::names_in;
use pfc_types::{Meaning, Scopes};
use std::alloc::Global;

/// Which sub and which module has which scope, and how many variables stand before a module's. It is made once; a look walks over nothing.
#[derive(Drop)]
pub struct Lookups<'a> {
    pub scopes: &'a Scopes,
    subs: Index,
    modules: Index,
    befores: Befores,
    ghost subs_held: { HoldFirsts (λ (h : SubHead). h.scope) scopes.now.subs subs.firsts.items },
    ghost modules_held: { HoldFirsts (λ (m : ModuleHead). m.scope) scopes.now.modules modules.firsts.items },
    ghost befores_held: { HoldBefores scopes.now befores.counts.items befores.all },
}

/// How many variables of main's block stand before each module that is named in the program's scope, by the module's number; and how many
/// there are.
#[derive(Drop)]
struct Befores {
    counts: Vec<Option<u32>>,
    all: u32,
}

/// The scopes of subs, in their order.
fn sub_scopes(alloc: Global, scopes: &Scopes) -> Result<Vec<u32>, Memory>
    ensures { IfOk result (λ keys. keys.items ≡ map (λ (h : SubHead). h.scope) scopes.now.subs) }
{
    let mut keys = Vec::new(alloc);
    for n in 0..scopes.subs() {
        keys.push(scopes.sub_scope(n))?;
    }
    Ok(keys)
}

/// The scopes of modules, in their order.
fn module_scopes(alloc: Global, scopes: &Scopes) -> Result<Vec<u32>, Memory>
    ensures { IfOk result (λ keys. keys.items ≡ map (λ (m : ModuleHead). m.scope) scopes.now.modules) }
{
    let mut keys = Vec::new(alloc);
    for n in 0..scopes.modules() {
        keys.push(scopes.module(n).scope)?;
    }
    Ok(keys)
}

/// Notes how many variables stand before a name, where it is that of a module.
fn note_module(counts: &mut Vec<Option<u32>>, m: Meaning, count: u32) -> Result<(), Memory>
    ensures { OnOk result ((n : ℕ) → get_or counts.new.items n None ≡ noted_module m count n (get_or counts.old.items n None)) }
{
    match m {
        Meaning::Module(n) => note(counts, n, count),
        _ => Ok(()),
    }
}

/// How many variables of main's block stand before each module.
fn count_befores(alloc: Global, scopes: &Scopes) -> Result<Befores, Memory>
    ensures { IfOk result (λ b. HoldBefores scopes.now b.counts.items b.all) }
{
    let mut counts = Vec::new(alloc);
    let mut all = 0;
    for k in 0..names_in(scopes, 0) {
        let m = scopes.at(0).meaning_at(k);
        note_module(&mut counts, m, all)?;
        all = added(all, main_size(scopes, m)?)?;
    }
    Ok(Befores { counts, all })
}

/// Where the subs stand, by their scopes.
fn sub_index(alloc: Global, scopes: &Scopes) -> Result<Index, Memory>
    ensures { IfOk result (λ x. HoldFirsts (λ (h : SubHead). h.scope) scopes.now.subs x.firsts.items) }
{
    Index::new(alloc, &sub_scopes(alloc, scopes)?)
}

/// Where the modules stand, by their scopes.
fn module_index(alloc: Global, scopes: &Scopes) -> Result<Index, Memory>
    ensures { IfOk result (λ x. HoldFirsts (λ (m : ModuleHead). m.scope) scopes.now.modules x.firsts.items) }
{
    Index::new(alloc, &module_scopes(alloc, scopes)?)
}

impl Befores {
    ghost use Rattle.std.specs.Prelude.{◌≡◌, unwrap_or, get_or, None};

    /// How many variables stand before the n-th module.
    fn at(&self, n: u32) -> u32
        ensures { result ≡ unwrap_or (get_or self.now.counts.items n None) self.now.all }
    {
        match self.counts.get(n as usize) {
            Some(count) => (*count).unwrap_or(self.all),
            None => self.all,
        }
    }
}

impl<'a> Lookups<'a> {
    ghost use Rattle.std.specs.Prelude.{◌≡◌, ◌==◌, position, option_map, IfOk};
    ghost use Rattle.pfc_types.specs.Blocks.{sub_at};
    ghost use Rattle.pfc_semantics.specs.Layouts as layouts;

    /// The subs and modules of a program. Its only refusal is want of memory; a number of more than 32 bits is that too.
    pub fn new(alloc: Global, scopes: &'a Scopes) -> Result<Lookups<'a>, Memory>
        ensures { IfOk result (λ s. s.scopes.now ≡ scopes.now) }
    {
        let subs = sub_index(alloc, scopes)?;
        let modules = module_index(alloc, scopes)?;
        let befores = count_befores(alloc, scopes)?;
        Ok(Lookups {
            scopes,
            subs,
            modules,
            befores,
        })
    }

    /// The number of the sub whose scope has this number, None exactly where there is none.
    pub fn sub_with(&self, i: u32) -> Option<u32>
        ensures { option_map (λ n. sub_at self.now.scopes.now n) result ≡ layouts.sub_with self.now.scopes.now.subs i }
    {
        self.subs.at(i)
    }

    /// How many variables of its block stand before the first of the scope i, which is not the program's.
    pub fn before_scope(&self, i: u32) -> u32
        ensures { result ≡ layouts.before_scope self.now.scopes.now (position (λ m. m.scope == i) self.now.scopes.now.modules) }
    {
        match self.modules.at(i) {
            Some(n) => self.befores.at(n),
            None => 0,
        }
    }
}
