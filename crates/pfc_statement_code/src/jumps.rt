//! Jumps. One that leads on leads nowhere at first, and is led when the code that it passes is put.
ghost use Rattle.std.specs.Prelude.{◌≡◌, ◌+◌, ◌<◌, true, length, OnOk, IfOk, IfErr};
ghost use Rattle.pfc_tree.specs.views.Exprs.{expr_view};
ghost use Rattle.pfc_translation.specs.Codes.{◌⨾◌, one, over};
ghost use Rattle.pfc_translation.specs.Expressions.{expr_code};
ghost use Rattle.pfc_emit.specs.Patches.{has_address_at, patched};
ghost use Rattle.pfc_emit.specs.declared.emitter.EmitFault.TheVariants.{Full};
ghost use Rattle.pfc_addresses.specs.Sites.{site_view};
ghost use Rattle.pfc_expression_code.specs.Putting.{IsMade, IsTooLarge};
ghost use Rattle.pfc_statement_code.specs.Forms as forms;
ghost use Rattle.pfc_statement_code.specs.Leading as leading;

use pfc_addresses::Site;
use pfc_base::Name;
use pfc_code::Instr;
use pfc_emit::EmitFault;
use pfc_expression_code::Coder;
use pfc_tree::Expr;

/// A condition, and the jump where it is false, which leads nowhere yet. Gives the address of the jump.
pub(crate) fn test(e: &Expr, site: Site, code: &mut Coder) -> Result<u32, EmitFault>
    ensures code { OnOk result (IsMade (expr_code (site_view site.entry) (expr_view e.now) ⨾ one (site_view site.entry) (Instr.JF 0)) code.old code.new) }
    ensures address { IfOk result (λ at. length code.new.code ≡ at + 1) }
    ensures large { IfErr result (λ fault. fault ≡ Full →
        IsTooLarge (expr_code (site_view site.entry) (expr_view e.now) ⨾ one (site_view site.entry) (Instr.JF 0)) code.old) }
{
    code.expr(e, site)?;
    let at = code.place(Instr::JF(0), site)?;
    Ok(at)
}

/// The instruction at an address leads to what is put next.
pub(crate) fn lead_here(at: u32, code: &mut Coder)
    requires { has_address_at code.old.code at ≡ true }
    ensures { code.new ≡ record code.old { code = patched code.old.code at (length code.old.code) } }
{
    let target = code.here();
    code.lead(at, target);
}

/// The instruction at an address leads to what stands behind the instruction that is put next.
pub(crate) fn lead_past(at: u32, code: &mut Coder)
    requires { has_address_at code.old.code at ≡ true }
    ensures { code.new ≡ record code.old { code = patched code.old.code at (length code.old.code + 1) } }
{
    let target = code.here() + 1;
    code.lead(at, target);
}

/// The instructions at these addresses lead to what is put next.
#[tactic(auto, using(crate::proofs::Leading::kept, std::proofs::lemmas::Grind::common_steps))]
pub(crate) fn lead_all(ats: &[u32], code: &mut Coder)
    requires { leading.have_all code.old.code ats.now ≡ true }
    ensures { code.new ≡ record code.old { code = leading.all_led code.old.code ats.now (length code.old.code) } }
{
    let here = code.here();
    for at in ats {
        code.lead(*at, here);
    }
}

/// The direction of a `for`, by which its instructions name it: 1 where it goes down.
pub(crate) fn direction(down: bool) -> u32
    ensures { result ≡ forms.direction down }
{
    if down { 1 } else { 0 }
}

/// The variable and the bounds of a `for`, and the instruction that begins it, which leads nowhere yet. Gives its address.
pub(crate) fn begin(
    name: &Name,
    low: &Expr,
    down: bool,
    high: &Expr,
    site: Site,
    code: &mut Coder,
) -> Result<u32, EmitFault>
    ensures code { OnOk result (IsMade
        (forms.range (site_view site.entry) name.now (expr_view low.now) (expr_view high.now)
        ⨾ one (site_view site.entry) (Instr.FORB (forms.direction down) 0)) code.old code.new) }
    ensures address { IfOk result (λ at. length code.new.code ≡ at + 1) }
    ensures few { IfOk result (λ at. at < 200000) }
    ensures large { IfErr result (λ fault. fault ≡ Full → IsTooLarge
        (forms.range (site_view site.entry) name.now (expr_view low.now) (expr_view high.now)
        ⨾ one (site_view site.entry) (Instr.FORB (forms.direction down) 0)) code.old) }
{
    range(name, low, high, site, code)?;
    let at = code.place(Instr::FORB(direction(down), 0), site)?;
    Ok(at)
}

/// The address of the variable of a `for`, and its bounds.
fn range(
    name: &Name,
    low: &Expr,
    high: &Expr,
    site: Site,
    code: &mut Coder,
) -> Result<(), EmitFault>
    ensures code { OnOk result (IsMade
        (forms.range (site_view site.entry) name.now (expr_view low.now) (expr_view high.now))
        code.old code.new) }
    ensures large { IfErr result (λ fault. fault ≡ Full → IsTooLarge
        (forms.range (site_view site.entry) name.now (expr_view low.now) (expr_view high.now))
        code.old) }
{
    code.put(site.base(name).instr, site)?;
    code.expr(low, site)?;
    code.expr(high, site)?;
    Ok(())
}

/// What stands behind the statements of a `repeat` that begin at an address: the condition, NOT, JF, TURN.
pub(crate) fn turn_until(
    e: &Expr,
    start: u32,
    site: Site,
    code: &mut Coder,
) -> Result<(), EmitFault>
    ensures code { OnOk result (IsMade (expr_code (site_view site.entry) (expr_view e.now) ⨾ one (site_view site.entry) Instr.NOT
        ⨾ over (site_view site.entry) Instr.JF 1 ⨾ one (site_view site.entry) (Instr.TURN start)) code.old code.new) }
    ensures large { IfErr result (λ fault. fault ≡ Full →
        IsTooLarge (expr_code (site_view site.entry) (expr_view e.now) ⨾ one (site_view site.entry) Instr.NOT
        ⨾ over (site_view site.entry) Instr.JF 1 ⨾ one (site_view site.entry) (Instr.TURN start)) code.old) }
{
    code.expr(e, site)?;
    code.put(Instr::NOT, site)?;
    let behind = code.here() + 2;
    code.put(Instr::JF(behind), site)?;
    code.put(Instr::TURN(start), site)?;
    Ok(())
}
