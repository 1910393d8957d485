//! The tests that lead to the arms of a `case`.
ghost use Rattle.std.specs.Prelude.{◌≡◌, ◌++◌, [], ◌∷◌, ◌+◌, true, length, OnOk, IfOk, IfErr};
ghost use Rattle.pfc_tree.specs.views.Exprs.{expr_view};
ghost use Rattle.pfc_tree.specs.views.Stmts.{arms_view};
ghost use Rattle.pfc_types.specs.rules.Constants.{constant_value};
ghost use Rattle.pfc_translation.specs.Codes.{◌⨾◌, one};
ghost use Rattle.pfc_translation.specs.Expressions.{expr_code};
ghost use Rattle.pfc_translation.specs.Statements.{label_of, label_count};
ghost use Rattle.pfc_emit.specs.declared.emitter.EmitFault.TheVariants.{Full, Memory as NoMemory};
ghost use Rattle.pfc_addresses.specs.Sites.{site_view};
ghost use Rattle.pfc_expression_code.specs.Putting.{IsMade, IsTooLarge};
ghost use Rattle.pfc_statement_code.specs.Arms as arms;
ghost use Rattle.pfc_statement_code.specs.Leading as leading;

use crate::jumps::lead_all;
use crate::marks::Marks;
use pfc_addresses::Site;
use pfc_code::Instr;
use pfc_emit::EmitFault;
use pfc_expression_code::Coder;
use pfc_phrases::constant_value;
use pfc_tree::{CaseArm, Constant, Expr};

/// The ordinal of a label.
fn label_of(l: &Constant, site: Site) -> i32
    ensures { result ≡ label_of (constant_value (site_view site.entry).env.state.blocks.scopes (site_view site.entry).env.view l.now) }
{
    let env = site.env();
    match constant_value(l, env.scopes, env.view) {
        Some(label) => label.value,
        None => 0,
    }
}

/// The test of a label, which leads nowhere yet.
fn label_test(l: &Constant, site: Site) -> Instr
    ensures { result ≡ Instr.CEQ (label_of (constant_value (site_view site.entry).env.state.blocks.scopes (site_view site.entry).env.view l.now)) 0 }
{
    Instr::CEQ(label_of(l, site), 0)
}

/// A test for each label, which leads nowhere yet.
fn labels(ls: &[Constant], site: Site, code: &mut Coder) -> Result<(), EmitFault>
    ensures code { OnOk result (IsMade (arms.open_labels (site_view site.entry) ls.now) code.old code.new) }
    ensures large { IfErr result (λ fault. fault ≡ Full → IsTooLarge (arms.open_labels (site_view site.entry) ls.now) code.old) }
{
    for l in ls {
        code.put(label_test(l, site), site)?;
    }
    Ok(())
}

/// The tests of all labels, which lead nowhere yet.
fn all_labels(all: &[CaseArm], site: Site, code: &mut Coder) -> Result<(), EmitFault>
    ensures code { OnOk result (IsMade (arms.open_tests (site_view site.entry) (arms_view all.now)) code.old code.new) }
    ensures large { IfErr result (λ fault. fault ≡ Full → IsTooLarge (arms.open_tests (site_view site.entry) (arms_view all.now)) code.old) }
{
    for a in all {
        labels(&a.labels, site, code)?;
    }
    Ok(())
}

/// What stands before the arms of a `case`: the value, the tests of its labels, which lead nowhere yet, and the fault behind them. Gives
/// the address of the first test.
pub(crate) fn tests(
    e: &Expr,
    all: &[CaseArm],
    site: Site,
    code: &mut Coder,
) -> Result<u32, EmitFault>
    ensures code { OnOk result (IsMade (expr_code (site_view site.entry) (expr_view e.now)
        ⨾ (arms.open_tests (site_view site.entry) (arms_view all.now) ⨾ one (site_view site.entry) Instr.CERR)) code.old code.new) }
    ensures address { IfOk result (λ first. length code.new.code ≡ first + label_count (arms_view all.now) + 1) }
    ensures large { IfErr result (λ fault. fault ≡ Full → IsTooLarge (expr_code (site_view site.entry) (expr_view e.now)
        ⨾ (arms.open_tests (site_view site.entry) (arms_view all.now) ⨾ one (site_view site.entry) Instr.CERR)) code.old) }
{
    code.expr(e, site)?;
    let first = code.here();
    all_labels(all, site, code)?;
    code.put(Instr::CERR, site)?;
    Ok(first)
}

/// The tests of labels, of which the first stands at an address, lead to a target. Gives the address behind them.
#[tactic(auto, using(crate::proofs::Arms::kept, std::proofs::lemmas::Grind::common_steps))]
fn lead_labels(ls: &[Constant], first: u32, target: u32, code: &mut Coder) -> u32
    requires { arms.have_labels code.old.code first ls.now ≡ true }
    ensures code { code.new ≡ record code.old { code = arms.labels_led code.old.code first ls.now target } }
    ensures next { result ≡ first + length ls.now }
{
    let _count = code.here();
    let mut at = first;
    for _ in ls {
        code.lead(at, target);
        at += 1;
    }
    at
}

/// The tests of the labels of arms, of which the first stands at an address, lead to the arms, which begin at these addresses.
#[tactic(auto, using(crate::proofs::Arms::tests_none))]
pub(crate) fn lead_tests(all: &[CaseArm], first: u32, starts: &[u32], code: &mut Coder)
    requires { arms.have_tests code.old.code first (arms_view all.now) ≡ true }
    ensures { code.new ≡ record code.old { code = arms.tests_led code.old.code first (arms_view all.now) starts.now } }
{
    let mut at = first;
    let mut n = 0;
    for a in all {
        if n == starts.len() {
            return;
        }
        at = lead_labels(&a.labels, at, starts[n], code);
        n += 1;
    }
}

/// The arms of a `case` are put, whose tests stand from an address on: the tests lead to the arms, and the jumps behind the arms lead to
/// what is put next.
pub(crate) fn lead_arms(all: &[CaseArm], first: u32, marks: &Marks, code: &mut Coder)
    requires tests { arms.have_tests code.old.code first (arms_view all.now) ≡ true }
    requires ends { leading.have_all code.old.code marks.now.ends.items ≡ true }
    ensures { code.new ≡ record code.old {
      code = leading.all_led
          (arms.tests_led code.old.code first (arms_view all.now) marks.now.starts.items) marks.now.ends.items (length code.old.code);
    } }
{
    lead_tests(all, first, &marks.starts, code);
    lead_all(&marks.ends, code);
}
