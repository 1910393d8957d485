//! The writing of constants, types and groups of parameters.
ghost use Rattle.std.specs.Prelude.{◌≡◌, List, [], ◌∷◌, ◌++◌, map, OnOk};
ghost use Rattle.pfc_tree.specs.Symbols.{Adds};
ghost use Rattle.pfc_tree.specs.forget.Types.{bare, forget_constant, forget_range, forget_const_item};
ghost use Rattle.pfc_tree.specs.tokens.Types.{comma_names_tokens, names_tokens, constant_tokens, constants_tokens, range_tokens, ranges_tokens};
ghost use Rattle.pfc_tree.specs.tokens.Types.{last_tokens, type_tokens, var_tokens, fields_tokens, vars_tokens, const_items_tokens, type_items_tokens};
ghost use Rattle.pfc_tree.specs.tokens.Types.{group_tokens, formals_tokens};
ghost use Rattle.pfc_tree.specs.Readings.{type_shape, var_shape, vars_shape, type_items_shape, group_shape, groups_shape};

use crate::tree::{ConstItem, Constant, Group, Range, TypeItem, TypeNode, VarItem};
use crate::writer::Writer;
use pfc_base::{Memory, Name, Place, sign, word};

impl Writer {
    /// The names with a comma before each.
    pub(crate) fn comma_names(&mut self, names: &[(Name, Place)]) -> Result<(), Memory>
        ensures { OnOk result (Adds self.old.kinds.items self.new.kinds.items (comma_names_tokens (bare names.now))) }
    {
        for x in names {
            self.sign(sign::COMMA)?;
            self.name(&x.0)?;
        }
        Ok(())
    }

    pub(crate) fn names(&mut self, names: &[(Name, Place)]) -> Result<(), Memory>
        ensures { OnOk result (Adds self.old.kinds.items self.new.kinds.items (names_tokens (bare names.now))) }
    {
        let [first, rest @ ..] = names else {
            return Ok(())
        };
        self.name(&first.0)?;
        self.comma_names(rest)
    }

    pub(crate) fn constant(&mut self, c: &Constant) -> Result<(), Memory>
        ensures { OnOk result (Adds self.old.kinds.items self.new.kinds.items (constant_tokens (forget_constant c.now))) }
    {
        match c {
            Constant::Number(op, n, _) => {
                if let Some(op) = op {
                    self.plus_or_minus(op.0)?;
                }
                self.number(*n)
            }
            Constant::Named(op, x, _) => {
                if let Some(op) = op {
                    self.plus_or_minus(op.0)?;
                }
                self.name(x)
            }
            Constant::Literal(text, _) => self.literal(text),
        }
    }

    pub(crate) fn constants(&mut self, cs: &[Constant]) -> Result<(), Memory>
        ensures { OnOk result (Adds self.old.kinds.items self.new.kinds.items (constants_tokens (map forget_constant cs.now))) }
    {
        let [first, rest @ ..] = cs else {
            return Ok(())
        };
        self.constant(first)?;
        for c in rest {
            self.sign(sign::COMMA)?;
            self.constant(c)?;
        }
        Ok(())
    }

    fn range(&mut self, r: &Range) -> Result<(), Memory>
        ensures { OnOk result (Adds self.old.kinds.items self.new.kinds.items (range_tokens (forget_range r.now))) }
    {
        self.constant(&r.low)?;
        self.sign(sign::DOT_DOT)?;
        self.constant(&r.high)
    }

    fn ranges(&mut self, rs: &[Range]) -> Result<(), Memory>
        ensures { OnOk result (Adds self.old.kinds.items self.new.kinds.items (ranges_tokens (map forget_range rs.now))) }
    {
        let [first, rest @ ..] = rs else {
            return Ok(())
        };
        self.range(first)?;
        for r in rest {
            self.sign(sign::COMMA)?;
            self.range(r)?;
        }
        Ok(())
    }

    /// A last `;` that may stand.
    pub(crate) fn last(&mut self, stands: bool) -> Result<(), Memory>
        ensures { OnOk result (Adds self.old.kinds.items self.new.kinds.items (last_tokens stands)) }
    {
        if stands {
            self.sign(sign::SEMICOLON)
        } else {
            Ok(())
        }
    }

    #[cycle(types)]
    fn type_node(&mut self, t: &TypeNode) -> Result<(), Memory>
        ensures { OnOk result (Adds self.old.kinds.items self.new.kinds.items (type_tokens (type_shape t.now))) }
    {
        match t {
            TypeNode::Named(x, _) => self.name(x),
            TypeNode::Channel(carried, _) => {
                self.word(word::CHANNEL)?;
                self.word(word::OF)?;
                self.type_node(carried)
            }
            TypeNode::Array(rs, element, _) => {
                self.word(word::ARRAY)?;
                self.sign(sign::OPEN_BRACKET)?;
                self.ranges(rs)?;
                self.sign(sign::CLOSE_BRACKET)?;
                self.word(word::OF)?;
                self.type_node(element)
            }
            TypeNode::Fields(vs, last, _) => {
                self.word(word::RECORD)?;
                self.fields(vs)?;
                self.last(*last)?;
                self.word(word::END)
            }
        }
    }

    #[cycle(types)]
    fn var_item(&mut self, v: &VarItem) -> Result<(), Memory>
        ensures { OnOk result (Adds self.old.kinds.items self.new.kinds.items (var_tokens (var_shape v.now))) }
    {
        self.names(&v.names)?;
        self.sign(sign::COLON)?;
        self.type_node(&v.form)
    }

    #[cycle(types)]
    fn fields(&mut self, vs: &[VarItem]) -> Result<(), Memory>
        ensures { OnOk result (Adds self.old.kinds.items self.new.kinds.items (fields_tokens (vars_shape vs.now))) }
    {
        let [first, rest @ ..] = vs else {
            return Ok(())
        };
        self.var_item(first)?;
        for v in rest {
            self.sign(sign::SEMICOLON)?;
            self.var_item(v)?;
        }
        Ok(())
    }

    pub(crate) fn vars(&mut self, vs: &[VarItem]) -> Result<(), Memory>
        ensures { OnOk result (Adds self.old.kinds.items self.new.kinds.items (vars_tokens (vars_shape vs.now))) }
    {
        for v in vs {
            self.var_item(v)?;
            self.sign(sign::SEMICOLON)?;
        }
        Ok(())
    }

    pub(crate) fn const_items(&mut self, items: &[ConstItem]) -> Result<(), Memory>
        ensures { OnOk result (Adds self.old.kinds.items self.new.kinds.items (const_items_tokens (map forget_const_item items.now))) }
    {
        for i in items {
            self.name(&i.name)?;
            self.sign(sign::EQUAL)?;
            self.constant(&i.value)?;
            self.sign(sign::SEMICOLON)?;
        }
        Ok(())
    }

    pub(crate) fn type_items(&mut self, items: &[TypeItem]) -> Result<(), Memory>
        ensures { OnOk result (Adds self.old.kinds.items self.new.kinds.items (type_items_tokens (type_items_shape items.now))) }
    {
        for i in items {
            self.name(&i.name)?;
            self.sign(sign::EQUAL)?;
            self.type_node(&i.form)?;
            self.sign(sign::SEMICOLON)?;
        }
        Ok(())
    }

    fn group(&mut self, g: &Group) -> Result<(), Memory>
        ensures { OnOk result (Adds self.old.kinds.items self.new.kinds.items (group_tokens (group_shape g.now))) }
    {
        if g.reference {
            self.word(word::VAR)?;
        }
        self.names(&g.names)?;
        self.sign(sign::COLON)?;
        self.name(&g.form.0)
    }

    pub(crate) fn formals(&mut self, gs: &[Group]) -> Result<(), Memory>
        ensures { OnOk result (Adds self.old.kinds.items self.new.kinds.items (formals_tokens (groups_shape gs.now))) }
    {
        let [first, rest @ ..] = gs else {
            return Ok(())
        };
        self.sign(sign::OPEN_PAREN)?;
        self.group(first)?;
        for g in rest {
            self.sign(sign::SEMICOLON)?;
            self.group(g)?;
        }
        self.sign(sign::CLOSE_PAREN)
    }
}
