//! What the code of calls and of communication asks of the place where it stands.
ghost use Rattle.std.specs.Prelude.{◌≡◌, Some, option_map};
ghost use Rattle.pfc_code.specs.declared.instructions.Instr.TheVariants.{REQ};
ghost use Rattle.pfc_tree.specs.views.Exprs.{expr_view, desig_view, selectors_view};
ghost use Rattle.pfc_types.specs.Blocks.{sub_at, module_at};
ghost use Rattle.pfc_types.specs.rules.Expressions.{selected};
ghost use Rattle.pfc_semantics.specs.Objects as objects;
ghost use Rattle.pfc_semantics.specs.Programs.{block_number};
ghost use Rattle.pfc_semantics.specs.Statements as statements;
ghost use Rattle.pfc_semantics.specs.Alternatives as alternatives;
ghost use Rattle.pfc_translation.specs.Sites.{blocks_of, context_of};
ghost use Rattle.pfc_translation.specs.Calls as calls;
ghost use Rattle.pfc_addresses.specs.Sites.{site_view};

use pfc_addresses::Site;
use pfc_base::Name;
use pfc_code::Instr;
use pfc_facts::{message_of, name_in_process, process_of_type, receiver_of};
use pfc_program::module_number;
use pfc_tree::{Desig, Expr, Selector};
use pfc_types::{Meaning, TypeId};
use pfc_typing::selected_type;

/// The number of the resource in which the block is declared, from 0; 0 where it is in none.
pub fn resource_of(site: Site) -> u32
    ensures { result ≡ calls.resource_of (site_view site.entry) }
{
    let body = site.body;
    match body.addresses.module_of(body.block.outer) {
        Some(n) => module_number(site.tables().scopes, n),
        None => 0,
    }
}

/// The number of the block of the n-th sub.
fn sub_block(n: u32, site: Site) -> u32
    ensures { let s = site_view site.entry in result ≡ block_number s.program (sub_at (blocks_of s) n).scope }
{
    site.block_number(site.tables().scopes.sub_scope(n))
}

/// The instruction that enters a monitor or a resource by its number m, into the block number b.
fn enter_instr(resource: bool, m: u32, b: u32) -> Instr
    ensures { result ≡ calls.enter_instr resource m b }
{
    if resource {
        Instr::RCALL(m, b)
    } else {
        Instr::MCALL(m, b)
    }
}

/// The call of the p-th sub, which is one of the n-th module.
pub(crate) fn enter(n: u32, p: u32, site: Site) -> Instr
    ensures { let s = site_view site.entry in
        result ≡ calls.enter_instr (module_at (blocks_of s) n).resource (objects.module_number (blocks_of s) n)
        (block_number s.program (sub_at (blocks_of s) p).scope) }
{
    let scopes = site.tables().scopes;
    enter_instr(
        scopes.module(n).resource,
        module_number(scopes, n),
        sub_block(p, site),
    )
}

/// The requeue of the n-th sub.
pub(crate) fn requeue_instr(n: u32, site: Site) -> Instr
    ensures { let s = site_view site.entry in
        result ≡ REQ (calls.resource_of s) (block_number s.program (sub_at (blocks_of s) n).scope) }
{
    Instr::REQ(resource_of(site), sub_block(n, site))
}

/// What a name stands for in the scope of process n.
pub(crate) fn entry_in(n: u32, name: &Name, site: Site) -> Option<Meaning>
    ensures { result ≡ statements.name_in_process (blocks_of (site_view site.entry)) n name.now }
{
    name_in_process(site.tables().scopes, n, name)
}

/// The process that a variable of type t with selectors is.
pub(crate) fn process_in(ss: &[Selector], t: TypeId, site: Site) -> Option<u32>
    ensures { let env = (site_view site.entry).env in
        result ≡ statements.process_of_type env (selected env (Some t) (selectors_view ss.now)) }
{
    let env = site.env();
    process_of_type(selected_type(ss, Some(t), env), env)
}

/// The message that an expression is, None for `any`.
pub fn message_at<'a>(e: &'a Expr, site: Site) -> Option<&'a Expr>
    ensures { option_map (λ m. expr_view m.now) result ≡ alternatives.message_of (context_of (site_view site.entry)) (expr_view e.now) }
{
    message_of(e, site.env())
}

/// The variable that receives a message, None for `any`.
pub fn receiver_at<'a>(v: &'a Desig, site: Site) -> Option<&'a Desig>
    ensures { option_map (λ r. desig_view r.now) result ≡ alternatives.receiver_of (context_of (site_view site.entry)) (desig_view v.now) }
{
    receiver_of(v, site.env())
}
