//! The writing of statements.
ghost use Rattle.std.specs.Prelude.{◌≡◌, List, [], ◌∷◌, ◌++◌, OnOk};
ghost use Rattle.pfc_base.specs.declared.tokens.Kind.TheVariants as token;
ghost use Rattle.pfc_base.specs.declared.word.TheConstants as words;
ghost use Rattle.pfc_base.specs.declared.sign.TheConstants as signs;
ghost use Rattle.pfc_tree.specs.Symbols.{Adds};
ghost use Rattle.pfc_tree.specs.forget.Stmts.{forget_spread};
ghost use Rattle.pfc_tree.specs.tokens.Exprs.{expr_tokens, desig_tokens, actuals_tokens};
ghost use Rattle.pfc_tree.specs.tokens.Stmts.{direction_symbol, pri_tokens, spread_tokens, stmt_tokens, stmts_tokens, body_tokens, arm_tokens, arms_tokens};
ghost use Rattle.pfc_tree.specs.tokens.Stmts.{accept_tokens, alt_tokens, comm_tokens, alts_tokens};
ghost use Rattle.pfc_tree.specs.Readings.{expr_shape, desig_shape, actuals_shape, stmt_shape, stmts_shape, body_shape, arm_shape, arms_shape, accept_shape};
ghost use Rattle.pfc_tree.specs.Readings.{alt_shape, comm_shape, alts_shape};

use crate::tree::{Accept, Actual, Alt, Body, CaseArm, Comm, Desig, Expr, Spread, Stmt};
use crate::writer::Writer;
use pfc_base::{Memory, Name, sign, word};

impl Writer {
    /// An expression between two words, as in `while b do`.
    fn between(&mut self, before: u8, e: &Expr, after: u8) -> Result<(), Memory>
        ensures { OnOk result (Adds self.old.kinds.items self.new.kinds.items (token.Word before ∷ expr_tokens (expr_shape e.now) ++ token.Word after ∷ [])) }
    {
        self.word(before)?;
        self.expr(e)?;
        self.word(after)
    }

    /// `for i := 1 to 9 do`
    fn for_head(&mut self, x: &Name, from: &Expr, down: bool, to: &Expr) -> Result<(), Memory>
        ensures { OnOk result (Adds self.old.kinds.items self.new.kinds.items (token.Word words.FOR ∷ token.Name x.now ∷ token.Sign signs.BECOMES ∷ expr_tokens
            (expr_shape from.now) ++ direction_symbol down ∷ expr_tokens (expr_shape to.now) ++ token.Word words.DO ∷ [])) }
    {
        self.word(word::FOR)?;
        self.name(x)?;
        self.sign(sign::BECOMES)?;
        self.expr(from)?;
        self.word(if down { word::DOWNTO } else { word::TO })?;
        self.expr(to)?;
        self.word(word::DO)
    }

    /// `for k := 1 to 3 replicate`
    fn spread(&mut self, s: &Spread) -> Result<(), Memory>
        ensures { OnOk result (Adds self.old.kinds.items self.new.kinds.items (spread_tokens (forget_spread s.now))) }
    {
        self.word(word::FOR)?;
        self.name(&s.name)?;
        self.sign(sign::BECOMES)?;
        self.constant(&s.low)?;
        self.word(word::TO)?;
        self.constant(&s.high)?;
        self.word(word::REPLICATE)
    }

    /// A designator, a sign and an expression, as in `x := 1`.
    fn with_expr(&mut self, d: &Desig, n: u8, e: &Expr) -> Result<(), Memory>
        ensures { OnOk result (Adds self.old.kinds.items self.new.kinds.items
            (desig_tokens (desig_shape d.now) ++ token.Sign n ∷ expr_tokens (expr_shape e.now))) }
    {
        self.desig(d)?;
        self.sign(n)?;
        self.expr(e)
    }

    /// `c ? x`
    fn receive(&mut self, d: &Desig, variable: &Desig) -> Result<(), Memory>
        ensures { OnOk result (Adds self.old.kinds.items self.new.kinds.items
            (desig_tokens (desig_shape d.now) ++ token.Sign signs.RECEIVE ∷ desig_tokens (desig_shape variable.now))) }
    {
        self.desig(d)?;
        self.sign(sign::RECEIVE)?;
        self.desig(variable)
    }

    /// `requeue p (1)`
    fn requeue(&mut self, x: &Name, args: &[Actual]) -> Result<(), Memory>
        ensures { OnOk result (Adds self.old.kinds.items self.new.kinds.items
            (token.Word words.REQUEUE ∷ token.Name x.now ∷ actuals_tokens (actuals_shape args.now))) }
    {
        self.word(word::REQUEUE)?;
        self.name(x)?;
        self.actuals(args)
    }

    /// `select`, perhaps behind `pri`
    fn select_head(&mut self, pri: bool) -> Result<(), Memory>
        ensures { OnOk result (Adds self.old.kinds.items self.new.kinds.items (pri_tokens pri ++ token.Word words.SELECT ∷ [])) }
    {
        if pri {
            self.word(word::PRI)?;
        }
        self.word(word::SELECT)
    }

    #[cycle(stmts)]
    fn stmt(&mut self, s: &Stmt) -> Result<(), Memory>
        ensures { OnOk result (Adds self.old.kinds.items self.new.kinds.items (stmt_tokens (stmt_shape s.now))) }
    {
        match s {
            Stmt::Empty => Ok(()),
            Stmt::Null(_) => self.word(word::NULL),
            Stmt::Block(body, _) => self.body(body),
            Stmt::If(e, then, other, _) => {
                self.between(word::IF, e, word::THEN)?;
                self.stmt(then)?;
                if let Some(other) = other {
                    self.word(word::ELSE)?;
                    self.stmt(other)?;
                }
                Ok(())
            }
            Stmt::Case(e, arms, last, _) => {
                self.between(word::CASE, e, word::OF)?;
                self.arms(arms)?;
                self.last(*last)?;
                self.word(word::END)
            }
            Stmt::While(e, repeated, _) => {
                self.between(word::WHILE, e, word::DO)?;
                self.stmt(repeated)
            }
            Stmt::Repeat(ss, until, _) => {
                self.word(word::REPEAT)?;
                self.stmts(ss)?;
                match until {
                    Some(e) => {
                        self.word(word::UNTIL)?;
                        self.expr(e)
                    }
                    None => self.word(word::FOREVER),
                }
            }
            Stmt::For(x, from, down, to, repeated, _, _) => {
                self.for_head(x, from, *down, to)?;
                self.stmt(repeated)
            }
            Stmt::Cobegin(ss, _, _) => {
                self.word(word::COBEGIN)?;
                self.stmts(ss)?;
                self.word(word::COEND)
            }
            Stmt::Accept(a, _) => {
                self.word(word::ACCEPT)?;
                self.accept(a)
            }
            Stmt::Requeue(x, args, _) => self.requeue(&x.0, args),
            Stmt::Select(pri, alts, other, _, _) => {
                self.select_head(*pri)?;
                self.alts(alts)?;
                if let Some((ss, _)) = other {
                    self.word(word::ELSE)?;
                    self.stmts(ss)?;
                }
                self.word(word::END)
            }
            Stmt::Assign(d, e, _, _) => self.with_expr(d, sign::BECOMES, e),
            Stmt::Send(d, e, _, _) => self.with_expr(d, sign::SEND, e),
            Stmt::Receive(d, variable, _, _) => self.receive(d, variable),
            Stmt::Call(d, args, _) => {
                self.desig(d)?;
                self.actuals(args)
            }
        }
    }

    #[cycle(stmts)]
    fn stmts(&mut self, ss: &[Stmt]) -> Result<(), Memory>
        ensures { OnOk result (Adds self.old.kinds.items self.new.kinds.items (stmts_tokens (stmts_shape ss.now))) }
    {
        let [first, rest @ ..] = ss else {
            return Ok(())
        };
        self.stmt(first)?;
        for s in rest {
            self.sign(sign::SEMICOLON)?; // between two statements
            self.stmt(s)?;
        }
        Ok(())
    }

    #[cycle(stmts)]
    pub(crate) fn body(&mut self, b: &Body) -> Result<(), Memory>
        ensures { OnOk result (Adds self.old.kinds.items self.new.kinds.items (body_tokens (body_shape b.now))) }
    {
        self.word(word::BEGIN)?;
        self.stmts(&b.stmts)?;
        self.word(word::END)
    }

    #[cycle(stmts)]
    fn arm(&mut self, a: &CaseArm) -> Result<(), Memory>
        ensures { OnOk result (Adds self.old.kinds.items self.new.kinds.items (arm_tokens (arm_shape a.now))) }
    {
        self.constants(&a.labels)?;
        self.sign(sign::COLON)?;
        self.stmt(&a.stmt)
    }

    #[cycle(stmts)]
    fn arms(&mut self, arms: &[CaseArm]) -> Result<(), Memory>
        ensures { OnOk result (Adds self.old.kinds.items self.new.kinds.items (arms_tokens (arms_shape arms.now))) }
    {
        let [first, rest @ ..] = arms else {
            return Ok(())
        };
        self.arm(first)?;
        for a in rest {
            self.sign(sign::SEMICOLON)?;
            self.arm(a)?;
        }
        Ok(())
    }

    #[cycle(stmts)]
    fn accept(&mut self, a: &Accept) -> Result<(), Memory>
        ensures { OnOk result (Adds self.old.kinds.items self.new.kinds.items (accept_tokens (accept_shape a.now))) }
    {
        self.name(&a.name)?;
        self.formals(&a.formals)?;
        if let Some(s) = &a.stmt {
            self.word(word::DO)?;
            self.stmt(s)?;
        }
        Ok(())
    }

    #[cycle(stmts)]
    fn alt(&mut self, a: &Alt) -> Result<(), Memory>
        ensures { OnOk result (Adds self.old.kinds.items self.new.kinds.items (alt_tokens (alt_shape a.now))) }
    {
        if let Some(spread) = &a.spread {
            self.spread(spread)?;
        }
        if let Some(e) = &a.guard {
            self.word(word::WHEN)?;
            self.expr(e)?;
            self.sign(sign::ARROW)?;
        }
        self.comm(&a.comm)?;
        for s in &a.rest {
            self.sign(sign::SEMICOLON)?;
            self.stmt(s)?;
        }
        Ok(())
    }

    #[cycle(stmts)]
    fn comm(&mut self, c: &Comm) -> Result<(), Memory>
        ensures { OnOk result (Adds self.old.kinds.items self.new.kinds.items (comm_tokens (comm_shape c.now))) }
    {
        match c {
            Comm::Accept(a, _) => {
                self.word(word::ACCEPT)?;
                self.accept(a)
            }
            Comm::Send(d, e, _) => self.with_expr(d, sign::SEND, e),
            Comm::Receive(d, variable, _) => self.receive(d, variable),
            Comm::Timeout(e, _) => {
                self.word(word::TIMEOUT)?;
                self.expr(e)
            }
            Comm::Terminate(_) => self.word(word::TERMINATE),
        }
    }

    #[cycle(stmts)]
    fn alts(&mut self, alts: &[Alt]) -> Result<(), Memory>
        ensures { OnOk result (Adds self.old.kinds.items self.new.kinds.items (alts_tokens (alts_shape alts.now))) }
    {
        let [first, rest @ ..] = alts else {
            return Ok(())
        };
        self.alt(first)?;
        for a in rest {
            self.word(word::OR)?;
            self.alt(a)?;
        }
        Ok(())
    }
}
