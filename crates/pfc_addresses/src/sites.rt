//! What is known at a place of the code.
ghost use Rattle.std.specs.Prelude.{◌≡◌, take, get_or};
ghost use Rattle.pfc_types.specs.Types.{Forms};
ghost use Rattle.pfc_types.specs.declared.scope.Meaning.TheVariants.{Faulty};
ghost use Rattle.pfc_semantics.specs.Programs.{layout_cells};
ghost use Rattle.pfc_translation.specs.Sites as translation;
ghost use Rattle.pfc_addresses.specs.Rows.{cells_from};

use crate::Body;
use crate::addresses::Laid;
use pfc_base::Name;
use pfc_code::Instr;
use pfc_phrases::{Env, find_in};
use pfc_program::{NamedSpot, Tables};
use pfc_types::{Around, Found, Meaning, TypeId, View};

/// The block in whose code a phrase stands, the names in view there, and the line of its instructions, from 1.
#[derive(Clone, Copy)]
pub struct Site<'t, 'e> {
    pub body: &'e Body<'t, 'e>,
    pub view: &'e View<'e>,
    pub around: Around,
    pub line: u32,
}

/// The instruction that gives the address of a variable, and its type.
#[derive(Clone, Copy)]
pub struct Base {
    pub instr: Instr,
    pub t: Option<TypeId>,
}

/// The cell of the k-th variable of a layout, behind all of them where it has fewer.
fn cell(laid: Laid, k: u64) -> u32
    ensures { (forms : Forms) → laid.entry.cells.now ≡ cells_from forms 0 laid.entry.layout.now → result ≡ layout_cells forms (take k laid.entry.layout.now) }
{
    let k = k as usize;
    let all = laid.layout.len();
    if k < all {
        laid.cells.at(k)
    } else {
        laid.cells.at(all)
    }
}

/// Whether the k-th variable of a layout is a reference parameter.
fn is_reference(layout: &[Meaning], k: u64) -> bool
    ensures { result ≡ translation.is_reference (get_or layout.now k Faulty) }
{
    match layout.get(k as usize) {
        Some(Meaning::Variable { t: _, reference }) => *reference,
        _ => false,
    }
}

impl<'t, 'e> Site<'t, 'e> {
    ghost use Rattle.std.specs.Prelude.{◌≡◌, IfSome};
    ghost use Rattle.pfc_phrases.specs.Views.{env_view};
    ghost use Rattle.pfc_types.specs.Blocks.{sub_at};
    ghost use Rattle.pfc_types.specs.rules.Expressions.{find};
    ghost use Rattle.pfc_semantics.specs.Displays.{Spot};
    ghost use Rattle.pfc_semantics.specs.Expressions.{spot_of};
    ghost use Rattle.pfc_semantics.specs.Programs.{block_number};
    ghost use Rattle.pfc_program.specs.Held.{IsHeld};
    ghost use Rattle.pfc_program.specs.Views.{spot_view};
    ghost use Rattle.pfc_translation.specs.Sites as translation;
    ghost use Rattle.pfc_translation.specs.Expressions.{call_instr};
    ghost use Rattle.pfc_addresses.specs.Instructions.{base_instr};
    ghost use Rattle.pfc_addresses.specs.Sites.{env_in, parts_of, site_view, tables_in};

    /// The tables of types and of scopes.
    #[tactic(auto, unfolding(crate::specs::Sites::site_view))]
    pub fn tables(self) -> Tables<'t>
        ensures value { result ≡ tables_in self.entry }
        ensures forms { result.types.now ≡ translation.forms_of (site_view self.entry) }
        ensures blocks { result.scopes.now ≡ translation.blocks_of (site_view self.entry) }
    {
        let addresses = self.body.addresses;
        addresses.program.tables
    }

    /// What is known at the phrase.
    #[tactic(auto, unfolding(crate::specs::Sites::site_view))]
    pub fn env(self) -> Env<'e>
        ensures value { env_view result ≡ env_in self.entry }
        ensures site { env_view result ≡ (site_view self.entry).env }
    {
        let tables = self.tables();
        Env {
            types: tables.types,
            scopes: tables.scopes,
            view: self.view,
            around: self.around,
        }
    }

    /// The line of the instructions of the phrase.
    #[tactic(auto, unfolding(crate::specs::Sites::site_view))]
    pub fn line(self) -> u32
        ensures { result ≡ (site_view self.entry).line }
    {
        self.line
    }

    /// The same phrase with another line.
    #[tactic(auto, unfolding(crate::specs::Sites::site_view))]
    pub fn at(self, line: u32) -> Site<'t, 'e>
        ensures { site_view result ≡ translation.at_line (site_view self.entry) line }
    {
        Site { line, ..self }
    }

    /// What a name is here.
    #[tactic(auto, unfolding(crate::specs::Sites::site_view))]
    pub fn find(self, name: &Name) -> Option<Found>
        ensures value { result ≡ find (site_view self.entry).env name.now }
        ensures held { IfSome result (IsHeld (tables_in self.entry).scopes.now.scopes) }
    {
        find_in(self.env(), name)
    }

    /// The variable that a name stands for here.
    fn spot(self, name: &Name) -> NamedSpot
        ensures { spot_view result ≡ spot_of (env_in self.entry) (find (env_in self.entry) name.now) }
    {
        let addresses = self.body.addresses;
        addresses.program.spot(self.find(name))
    }

    /// The variables among which those of the scope i lie.
    fn laid_with(self, i: u32) -> Laid<'e>
        ensures layout { result.layout.now ≡ translation.layout_with (parts_of self.entry) i }
        ensures cells { result.cells.now ≡ cells_from (tables_in self.entry).types.now 0 result.layout.now }
    {
        let body = self.body;
        if body.is_accept(i) {
            body.own_laid()
        } else if body.addresses.is_mains(i) {
            body.addresses.main_laid()
        } else {
            body.addresses.laid_at(i)
        }
    }

    /// How many variables stand there before the first of that scope.
    fn laid_before(self, i: u32) -> u32
        ensures { result ≡ translation.laid_before (parts_of self.entry) i }
    {
        let body = self.body;
        if body.is_accept(i) {
            body.before_accept(i)
        } else {
            0
        }
    }

    /// The instruction that gives the address of a variable, which is known by its scope and its place there.
    #[tactic(auto, unfolding(crate::specs::Sites::site_view))]
    pub fn address(self, scope: u32, variable: u32) -> Instr
        ensures { (v : Spot) → v.scope ≡ scope → v.variable ≡ variable → result ≡ base_instr (site_view self.entry) v }
    {
        let laid = self.laid_with(scope);
        let place = self.laid_before(scope) as u64 + variable as u64;
        let cell = cell(laid, place);
        let links = self.body.links_to(scope);
        if is_reference(laid.layout, place) {
            Instr::REF(links, cell)
        } else {
            Instr::ADDR(links, cell)
        }
    }

    /// The address of the variable that a name is, and its type.
    #[tactic(auto, unfolding(crate::specs::Sites::site_view))]
    pub fn base(self, name: &Name) -> Base
        ensures instr { result.instr ≡ base_instr (site_view self.entry) (spot_of (site_view self.entry).env (find (site_view self.entry).env name.now)).spot }
        ensures t { result.t ≡ (spot_of (site_view self.entry).env (find (site_view self.entry).env name.now)).t }
    {
        let v = self.spot(name);
        Base {
            instr: self.address(v.scope, v.variable),
            t: v.t,
        }
    }

    /// The number of the block with the scope i.
    #[tactic(auto, unfolding(crate::specs::Sites::site_view))]
    pub fn block_number(self, i: u32) -> u32
        ensures { result ≡ block_number (site_view self.entry).program i }
    {
        let addresses = self.body.addresses;
        addresses.block_number(i)
    }

    /// The call of the n-th sub: its block, and the static links from here to the activation around it.
    #[tactic(auto, unfolding(crate::specs::Sites::site_view))]
    pub fn call(self, n: u32) -> Instr
        ensures { result ≡ call_instr (site_view self.entry) (sub_at (translation.blocks_of (site_view self.entry)) n) }
    {
        let body = self.body;
        let scope = self.tables().scopes.sub_scope(n);
        let outer = body.addresses.block_at(scope).outer;
        Instr::CALL(self.block_number(scope), body.links_to(outer))
    }
}
