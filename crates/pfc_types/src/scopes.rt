//! The scopes of a program, with its headings.
ghost use Rattle.std.specs.Prelude.{◌≡◌, ◌++◌, [], ◌∷◌, ◌<◌, ◌-◌, ◌^◌, false, length, IsSome, Err, IfErr, OnOk, OnErr};

use crate::{
    Formal, Formals, Meaning, ModuleHead, ProcessHead, Scope, ScopeFault, SubHead, SubSort,
};
use pfc_base::{Memory, Name, Refusal};
use std::alloc::Global;
use std::marker::Model;

/// The scopes of a program, one for each block and each accept, in the order of the text; the program's own is 0.
/// Beside them stand the headings of its subs, modules, processes and entries, each list in the order of the text, how many
/// processes its variables hold, counted up to 1,024, and the rules that are broken in its declarations.
/// A contract sees the record of these lists.
#[derive(Drop)]
pub struct Scopes {
    scopes: Vec<Scope>,
    subs: Vec<SubHead>,
    modules: Vec<ModuleHead>,
    processes: Vec<ProcessHead>,
    entries: Vec<Formals>,
    population: u32,
    noted: Vec<Refusal>,
}

impl Model for Scopes {
    ghost use Rattle.std.specs.Prelude.{◌<◌, ◌^◌, length};
    ghost use Rattle.pfc_types.specs.Blocks.{Blocks};

    ghost Value = { Blocks };

    ghost view = { λ s. record {
      scopes = s.scopes.items;
      subs = s.subs.items;
      modules = s.modules.items;
      processes = s.processes.items;
      entries = s.entries.items;
      population = s.population;
      noted = s.noted.items;
    } };

    ghost invariant = { λ s. (length s.scopes.items < 2 ^ 32) × (length s.subs.items < 2 ^ 32) × (length s.modules.items < 2 ^ 32)
        × (length s.processes.items < 2 ^ 32) × (length s.entries.items < 2 ^ 32) };
}

/// Whether a list with this many items is full.
fn is_full(len: usize) -> bool
    ensures { result ≡ false → len < 2 ^ 32 - 1 }
{
    len >= u32::MAX as usize
}

impl Scopes {
    ghost use Rattle.pfc_types.specs.Blocks.{no_blocks, opened, with_name, with_population, with_noted};
    ghost use Rattle.pfc_types.specs.Blocks.{with_sub, with_module, with_process, with_entry, with_export};
    ghost use Rattle.pfc_types.specs.Scopes.{scope_at, meaning_in};
    ghost use Rattle.pfc_types.specs.declared.scope.ScopeFault.TheVariants.{Repeated};

    /// No scope, and no heading.
    pub fn new(alloc: Global) -> Scopes
        ensures { result ≡ no_blocks }
    {
        Scopes {
            scopes: Vec::new(alloc),
            subs: Vec::new(alloc),
            modules: Vec::new(alloc),
            processes: Vec::new(alloc),
            entries: Vec::new(alloc),
            population: 0,
            noted: Vec::new(alloc),
        }
    }

    /// Adds a scope behind the others. Its only refusal is want of memory, which changes nothing; a full list is one.
    pub fn push(&mut self, scope: Scope) -> Result<(), Memory>
        ensures added { OnOk result (self.new ≡ record self.old { scopes = self.old.scopes ++ scope ∷ [] }) }
        ensures unchanged { OnErr result (self.new ≡ self.old) }
    {
        if is_full(self.scopes.len()) {
            return Err(Memory);
        }
        self.scopes.push(scope)?;
        Ok(())
    }

    /// Opens a scope without names behind the others.
    pub fn open(&mut self, alloc: Global) -> Result<(), Memory>
        ensures added { OnOk result (self.new ≡ opened self.old) }
        ensures unchanged { OnErr result (self.new ≡ self.old) }
    {
        self.push(Scope::new(alloc))
    }

    /// How many scopes there are.
    pub fn len(&self) -> u32
        ensures { result ≡ length self.now.scopes }
    {
        self.scopes.len() as u32
    }

    /// The scope with a number.
    pub fn at(&self, i: u32) -> &Scope
        requires { i < length self.now.scopes }
        ensures { result.now ≡ scope_at self.now.scopes i }
    {
        &self.scopes[i as usize]
    }

    /// Adds a name to the scope i, behind its others; where there is no such scope nothing happens. It is refused with
    /// `Repeated` exactly where the scope holds the name. A refusal changes nothing.
    pub fn declare(&mut self, i: u32, name: Name, meaning: Meaning) -> Result<(), ScopeFault>
        ensures added { OnOk result (self.new ≡ with_name self.old i name meaning) }
        ensures unchanged { OnErr result (self.new ≡ self.old) }
        ensures fresh { OnOk result (meaning_in (scope_at self.old.scopes i) name ≡ None) }
        ensures repeated { IfErr result (λ fault. fault ≡ Repeated → IsSome (meaning_in (scope_at self.old.scopes i) name)) }
        ensures refused { IsSome (meaning_in (scope_at self.old.scopes i) name) → result ≡ Err Repeated }
    {
        match self.scopes.get_mut(i as usize) {
            Some(scope) => scope.declare(name, meaning),
            None => Ok(()),
        }
    }

    /// Adds the heading of a sub behind the others.
    pub fn add_sub(&mut self, head: SubHead) -> Result<(), Memory>
        ensures added { OnOk result (self.new ≡ with_sub self.old head) }
        ensures unchanged { OnErr result (self.new ≡ self.old) }
    {
        if is_full(self.subs.len()) {
            return Err(Memory);
        }
        self.subs.push(head)?;
        Ok(())
    }

    /// Adds a monitor or a resource behind the others.
    pub fn add_module(&mut self, head: ModuleHead) -> Result<(), Memory>
        ensures added { OnOk result (self.new ≡ with_module self.old head) }
        ensures unchanged { OnErr result (self.new ≡ self.old) }
    {
        if is_full(self.modules.len()) {
            return Err(Memory);
        }
        self.modules.push(head)?;
        Ok(())
    }

    /// Adds the heading of a process behind the others.
    pub fn add_process(&mut self, head: ProcessHead) -> Result<(), Memory>
        ensures added { OnOk result (self.new ≡ with_process self.old head) }
        ensures unchanged { OnErr result (self.new ≡ self.old) }
    {
        if is_full(self.processes.len()) {
            return Err(Memory);
        }
        self.processes.push(head)?;
        Ok(())
    }

    /// Adds the parameters of an entry behind those of the others.
    pub fn add_entry(&mut self, formals: Formals) -> Result<(), Memory>
        ensures added { OnOk result (self.new ≡ with_entry self.old formals) }
        ensures unchanged { OnErr result (self.new ≡ self.old) }
    {
        if is_full(self.entries.len()) {
            return Err(Memory);
        }
        self.entries.push(formals)?;
        Ok(())
    }

    /// Sets how many processes the program's variables hold.
    pub fn set_population(&mut self, n: u32)
        ensures { self.new ≡ with_population self.old n }
    {
        self.population = n;
    }

    /// Notes that a rule is broken in a declaration.
    pub fn note(&mut self, refusal: Refusal) -> Result<(), Memory>
        ensures added { OnOk result (self.new ≡ with_noted self.old refusal) }
        ensures unchanged { OnErr result (self.new ≡ self.old) }
    {
        self.noted.push(refusal)?;
        Ok(())
    }

    /// Marks a sub as exported; where there is no such sub nothing happens.
    pub fn export(&mut self, n: u32)
        ensures { self.new ≡ with_export self.old n }
    {
        if let Some(head) = self.subs.get_mut(n as usize) {
            head.exported = true;
        }
    }
}

impl Scopes {
    ghost use Rattle.pfc_types.specs.Blocks.{sub_at, module_at, process_at, entry_at};

    /// How many subs there are.
    pub fn subs(&self) -> u32
        ensures { result ≡ length self.now.subs }
    {
        self.subs.len() as u32
    }

    /// How many monitors and resources there are.
    pub fn modules(&self) -> u32
        ensures { result ≡ length self.now.modules }
    {
        self.modules.len() as u32
    }

    /// How many processes and process types there are.
    pub fn processes(&self) -> u32
        ensures { result ≡ length self.now.processes }
    {
        self.processes.len() as u32
    }

    /// How many entries there are.
    pub fn entries(&self) -> u32
        ensures { result ≡ length self.now.entries }
    {
        self.entries.len() as u32
    }

    /// How many processes the program's variables hold, counted up to 1,024.
    pub fn population(&self) -> u32
        ensures { result ≡ self.now.population }
    {
        self.population
    }

    /// The rules that are broken in the declarations, in the order in which they were met.
    pub fn noted(&self) -> &[Refusal]
        ensures { result.now ≡ self.now.noted }
    {
        &self.noted
    }

    /// The parameters of a sub, none where there is no such sub.
    pub fn sub_formals(&self, n: u32) -> &[Formal]
        ensures { result.now ≡ (sub_at self.now n).formals }
    {
        match self.subs.get(n as usize) {
            Some(head) => head.formals.as_slice(),
            None => &[],
        }
    }

    /// What a sub is, a procedure where there is no such sub.
    pub fn sub_sort(&self, n: u32) -> SubSort
        ensures { result ≡ (sub_at self.now n).sort }
    {
        match self.subs.get(n as usize) {
            Some(head) => head.sort,
            None => SubSort::Procedure,
        }
    }

    /// The number of a sub's scope, 0 where there is no such sub.
    pub fn sub_scope(&self, n: u32) -> u32
        ensures { result ≡ (sub_at self.now n).scope }
    {
        match self.subs.get(n as usize) {
            Some(head) => head.scope,
            None => 0,
        }
    }

    /// Whether a sub is exported by its module.
    pub fn is_exported(&self, n: u32) -> bool
        ensures { result ≡ (sub_at self.now n).exported }
    {
        match self.subs.get(n as usize) {
            Some(head) => head.exported,
            None => false,
        }
    }

    /// A monitor or a resource; where there is none, one whose scope is 0.
    pub fn module(&self, n: u32) -> ModuleHead
        ensures { result ≡ module_at self.now n }
    {
        match self.modules.get(n as usize) {
            Some(head) => *head,
            None => ModuleHead {
                scope: 0,
                resource: false,
            },
        }
    }

    /// The parameters of a process, none where there is no such process.
    pub fn process_formals(&self, n: u32) -> &[Formal]
        ensures { result.now ≡ (process_at self.now n).formals }
    {
        match self.processes.get(n as usize) {
            Some(head) => head.formals.as_slice(),
            None => &[],
        }
    }

    /// The number of a process's scope, 0 where there is no such process.
    pub fn process_scope(&self, n: u32) -> u32
        ensures { result ≡ (process_at self.now n).scope }
    {
        match self.processes.get(n as usize) {
            Some(head) => head.scope,
            None => 0,
        }
    }

    /// The place of a process's entry 0 among all entries, 0 where there is no such process.
    fn first_entry(&self, n: u32) -> u32
        ensures { result ≡ (process_at self.now n).entries }
    {
        match self.processes.get(n as usize) {
            Some(head) => head.entries,
            None => 0,
        }
    }

    /// The parameters of entry k of process n, none where there is no such entry.
    pub fn entry_formals(&self, n: u32, k: u32) -> &[Formal]
        ensures { result.now ≡ entry_at self.now n k }
    {
        let place = self.first_entry(n) as usize + k as usize;
        match self.entries.get(place) {
            Some(formals) => formals.as_slice(),
            None => &[],
        }
    }
}
