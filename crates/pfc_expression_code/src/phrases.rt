//! The code of phrases, by the definition of the image.

use crate::{Coder, exprs};
use pfc_addresses::Site;
use pfc_base::Name;
use pfc_emit::EmitFault;
use pfc_tree::{Actual, Desig, Expr, Selector};
use pfc_types::Formal;

impl Coder {
    ghost use Rattle.std.specs.Prelude.{◌≡◌, OnOk, IfErr};
    ghost use Rattle.pfc_tree.specs.views.Exprs.{expr_view, desig_view, selectors_view, actuals_view};
    ghost use Rattle.pfc_translation.specs.Expressions as expressions;
    ghost use Rattle.pfc_emit.specs.declared.emitter.EmitFault.TheVariants.{Full};
    ghost use Rattle.pfc_addresses.specs.Sites.{site_view};
    ghost use Rattle.pfc_types.specs.rules.Expressions.{find};
    ghost use Rattle.pfc_expression_code.specs.Putting.{IsMade, IsTooLarge};

    /// Puts the code of an expression.
    pub fn expr(&mut self, e: &Expr, site: Site) -> Result<(), EmitFault>
        ensures code { OnOk result (IsMade (expressions.expr_code (site_view site.entry) (expr_view e.now)) self.old self.new) }
        ensures large { IfErr result (λ fault. fault ≡ Full → IsTooLarge (expressions.expr_code (site_view site.entry) (expr_view e.now)) self.old) }
    {
        exprs::expr(e, site, &mut self.code)
    }

    /// Puts the address of a variable with its selectors.
    pub fn desig(&mut self, d: &Desig, site: Site) -> Result<(), EmitFault>
        ensures code { OnOk result (IsMade (expressions.desig_code (site_view site.entry) (desig_view d.now)) self.old self.new) }
        ensures large { IfErr result (λ fault. fault ≡ Full → IsTooLarge (expressions.desig_code (site_view site.entry) (desig_view d.now)) self.old) }
    {
        exprs::desig(d, site, &mut self.code)
    }

    /// Puts the address of the variable that a name is, with selectors.
    pub fn address(&mut self, name: &Name, ss: &[Selector], site: Site) -> Result<(), EmitFault>
        ensures code { OnOk result (IsMade (expressions.address_code (site_view site.entry) (find (site_view site.entry).env name.now)
            (selectors_view ss.now)) self.old self.new) }
        ensures large { IfErr result (λ fault. fault ≡ Full →
            IsTooLarge (expressions.address_code (site_view site.entry) (find (site_view site.entry).env name.now) (selectors_view ss.now)) self.old) }
    {
        exprs::address(ss, name, site, &mut self.code)
    }

    /// Puts the code of an object: its address, OBJ.
    pub fn object(&mut self, d: &Desig, site: Site) -> Result<(), EmitFault>
        ensures code { OnOk result (IsMade (expressions.object_code (site_view site.entry) (desig_view d.now)) self.old self.new) }
        ensures large { IfErr result (λ fault. fault ≡ Full → IsTooLarge (expressions.object_code (site_view site.entry) (desig_view d.now)) self.old) }
    {
        exprs::object(d, site, &mut self.code)
    }

    /// Puts the code of arguments by their parameters: each a value, or an address for a reference.
    pub fn arguments(
        &mut self,
        args: &[Actual],
        formals: &[Formal],
        site: Site,
    ) -> Result<(), EmitFault>
        ensures code { OnOk result (IsMade (expressions.args_code (site_view site.entry) formals.now (actuals_view args.now)) self.old self.new) }
        ensures large { IfErr result (λ fault. fault ≡ Full →
            IsTooLarge (expressions.args_code (site_view site.entry) formals.now (actuals_view args.now)) self.old) }
    {
        exprs::pass(args, formals, site, &mut self.code)
    }

    /// Puts the value of the first argument; nothing where there is none.
    pub fn first_value(&mut self, args: &[Actual], site: Site) -> Result<(), EmitFault>
        ensures code { OnOk result (IsMade (expressions.first_value (site_view site.entry) (actuals_view args.now)) self.old self.new) }
        ensures large { IfErr result (λ fault. fault ≡ Full → IsTooLarge (expressions.first_value (site_view site.entry) (actuals_view args.now)) self.old) }
    {
        exprs::first_value(args, site, &mut self.code)
    }

    /// Puts the address of the first argument; nothing where there is none or it is no variable.
    pub fn first_address(&mut self, args: &[Actual], site: Site) -> Result<(), EmitFault>
        ensures code { OnOk result (IsMade (expressions.first_address (site_view site.entry) (actuals_view args.now)) self.old self.new) }
        ensures large { IfErr result (λ fault. fault ≡ Full → IsTooLarge (expressions.first_address (site_view site.entry) (actuals_view args.now)) self.old) }
    {
        exprs::first_address(args, site, &mut self.code)
    }
}
