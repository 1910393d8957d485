//! The writing of expressions.
ghost use Rattle.std.specs.Prelude.{◌≡◌, List, [], ◌∷◌, ◌++◌, OnOk};
ghost use Rattle.pfc_tree.specs.Symbols.{Adds};
ghost use Rattle.pfc_tree.specs.tokens.Exprs.{sign_symbol, relation_symbol, add_symbol, mul_symbol, expr_tokens, simple_tokens, term_tokens, factor_tokens};
ghost use Rattle.pfc_tree.specs.tokens.Exprs.{desig_tokens, selector_tokens, exprs_tokens, actuals_tokens, actual_tokens};
ghost use Rattle.pfc_tree.specs.Readings.{expr_shape, simple_shape, term_shape, factor_shape, desig_shape, selector_shape, exprs_shape, actuals_shape};
ghost use Rattle.pfc_tree.specs.Readings.{actual_shape};

use crate::tree::{
    Actual, AddOp, Desig, Expr, Factor, MulOp, Relation, Selector, Sign, Simple, Term,
};
use crate::writer::Writer;
use pfc_base::{Memory, sign, word};

impl Writer {
    pub(crate) fn plus_or_minus(&mut self, op: Sign) -> Result<(), Memory>
        ensures { OnOk result (Adds self.old.kinds.items self.new.kinds.items (sign_symbol op ∷ [])) }
    {
        match op {
            Sign::Plus => self.sign(sign::PLUS),
            Sign::Minus => self.sign(sign::MINUS),
        }
    }

    fn relation(&mut self, op: Relation) -> Result<(), Memory>
        ensures { OnOk result (Adds self.old.kinds.items self.new.kinds.items (relation_symbol op ∷ [])) }
    {
        match op {
            Relation::Eq => self.sign(sign::EQUAL),
            Relation::Ne => self.sign(sign::NOT_EQUAL),
            Relation::Lt => self.sign(sign::LESS),
            Relation::Le => self.sign(sign::LESS_EQUAL),
            Relation::Gt => self.sign(sign::GREATER),
            Relation::Ge => self.sign(sign::GREATER_EQUAL),
        }
    }

    fn add_op(&mut self, op: AddOp) -> Result<(), Memory>
        ensures { OnOk result (Adds self.old.kinds.items self.new.kinds.items (add_symbol op ∷ [])) }
    {
        match op {
            AddOp::Add => self.sign(sign::PLUS),
            AddOp::Sub => self.sign(sign::MINUS),
            AddOp::Or => self.word(word::OR),
        }
    }

    fn mul_op(&mut self, op: MulOp) -> Result<(), Memory>
        ensures { OnOk result (Adds self.old.kinds.items self.new.kinds.items (mul_symbol op ∷ [])) }
    {
        match op {
            MulOp::Mul => self.sign(sign::STAR),
            MulOp::Div => self.word(word::DIV),
            MulOp::Mod => self.word(word::MOD),
            MulOp::And => self.word(word::AND),
        }
    }

    #[cycle(exprs)]
    pub(crate) fn expr(&mut self, e: &Expr) -> Result<(), Memory>
        ensures { OnOk result (Adds self.old.kinds.items self.new.kinds.items (expr_tokens (expr_shape e.now))) }
    {
        self.simple(&e.left)?;
        if let Some((op, right)) = &e.right {
            self.relation(op.0)?;
            self.simple(right)?;
        }
        Ok(())
    }

    #[cycle(exprs)]
    fn simple(&mut self, s: &Simple) -> Result<(), Memory>
        ensures { OnOk result (Adds self.old.kinds.items self.new.kinds.items (simple_tokens (simple_shape s.now))) }
    {
        if let Some(op) = &s.sign {
            self.plus_or_minus(op.0)?;
        }
        self.term(&s.first)?;
        for (op, t) in &s.rest {
            self.add_op(op.0)?;
            self.term(t)?;
        }
        Ok(())
    }

    #[cycle(exprs)]
    fn term(&mut self, t: &Term) -> Result<(), Memory>
        ensures { OnOk result (Adds self.old.kinds.items self.new.kinds.items (term_tokens (term_shape t.now))) }
    {
        self.factor(&t.first)?;
        for (op, f) in &t.rest {
            self.mul_op(op.0)?;
            self.factor(f)?;
        }
        Ok(())
    }

    #[cycle(exprs)]
    fn factor(&mut self, f: &Factor) -> Result<(), Memory>
        ensures { OnOk result (Adds self.old.kinds.items self.new.kinds.items (factor_tokens (factor_shape f.now))) }
    {
        match f {
            Factor::Number(n, _) => self.number(*n),
            Factor::Literal(text, _) => self.literal(text),
            Factor::Not(negated, _) => {
                self.word(word::NOT)?;
                self.factor(negated)
            }
            Factor::Paren(e, _) => {
                self.sign(sign::OPEN_PAREN)?;
                self.expr(e)?;
                self.sign(sign::CLOSE_PAREN)
            }
            Factor::Use(d, args, _) => {
                self.desig(d)?;
                self.actuals(args)
            }
        }
    }

    #[cycle(exprs)]
    pub(crate) fn desig(&mut self, d: &Desig) -> Result<(), Memory>
        ensures { OnOk result (Adds self.old.kinds.items self.new.kinds.items (desig_tokens (desig_shape d.now))) }
    {
        self.name(&d.name)?;
        for s in &d.selectors {
            self.selector(s)?;
        }
        Ok(())
    }

    #[cycle(exprs)]
    fn selector(&mut self, s: &Selector) -> Result<(), Memory>
        ensures { OnOk result (Adds self.old.kinds.items self.new.kinds.items (selector_tokens (selector_shape s.now))) }
    {
        match s {
            Selector::Index(es, _) => {
                self.sign(sign::OPEN_BRACKET)?;
                self.exprs(es)?;
                self.sign(sign::CLOSE_BRACKET)
            }
            Selector::Field(x, _) => {
                self.sign(sign::DOT)?;
                self.name(x)
            }
        }
    }

    #[cycle(exprs)]
    fn exprs(&mut self, es: &[Expr]) -> Result<(), Memory>
        ensures { OnOk result (Adds self.old.kinds.items self.new.kinds.items (exprs_tokens (exprs_shape es.now))) }
    {
        let [first, rest @ ..] = es else {
            return Ok(())
        };
        self.expr(first)?;
        for e in rest {
            self.sign(sign::COMMA)?;
            self.expr(e)?;
        }
        Ok(())
    }

    #[cycle(exprs)]
    pub(crate) fn actuals(&mut self, args: &[Actual]) -> Result<(), Memory>
        ensures { OnOk result (Adds self.old.kinds.items self.new.kinds.items (actuals_tokens (actuals_shape args.now))) }
    {
        let [first, rest @ ..] = args else {
            return Ok(())
        };
        self.sign(sign::OPEN_PAREN)?;
        self.actual(first)?;
        for a in rest {
            self.sign(sign::COMMA)?;
            self.actual(a)?;
        }
        self.sign(sign::CLOSE_PAREN)
    }

    #[cycle(exprs)]
    fn actual(&mut self, a: &Actual) -> Result<(), Memory>
        ensures { OnOk result (Adds self.old.kinds.items self.new.kinds.items (actual_tokens (actual_shape a.now))) }
    {
        self.expr(&a.value)?;
        if let Some(width) = &a.width {
            self.sign(sign::COLON)?;
            self.expr(width)?;
        }
        Ok(())
    }
}
