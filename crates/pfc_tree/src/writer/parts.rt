//! The writing of parts and programs.
ghost use Rattle.std.specs.Prelude.{◌≡◌, List, [], ◌∷◌, ◌++◌, OnOk};
ghost use Rattle.pfc_base.specs.declared.tokens.Kind.TheVariants as token;
ghost use Rattle.pfc_base.specs.declared.word.TheConstants as words;
ghost use Rattle.pfc_tree.specs.Symbols.{Adds};
ghost use Rattle.pfc_tree.specs.forget.Types.{bare};
ghost use Rattle.pfc_tree.specs.tokens.Parts.{exports_tokens, entries_tokens, many_tokens, heading_tokens, part_tokens, parts_tokens, sub_tokens};
ghost use Rattle.pfc_tree.specs.tokens.Parts.{module_tokens, process_tokens, params_tokens, tokens_of};
ghost use Rattle.pfc_tree.specs.Readings.{groups_shape, kind_shape, exports_shape, entries_shape, part_shape, parts_shape, sub_shape, module_shape};
ghost use Rattle.pfc_tree.specs.Readings.{process_shape, tree_shape};

use crate::tree::{Entry, Group, Module, Part, Process, Sub, SubKind, Tree};
use crate::writer::Writer;
use pfc_base::{Memory, Name, Place, sign, word};

impl Writer {
    fn exports(&mut self, exports: &[Vec<(Name, Place)>]) -> Result<(), Memory>
        ensures { OnOk result (Adds self.old.kinds.items self.new.kinds.items (exports_tokens (exports_shape exports.now))) }
    {
        for names in exports {
            self.word(word::EXPORT)?;
            self.names(names)?;
            self.sign(sign::SEMICOLON)?;
        }
        Ok(())
    }

    fn entries(&mut self, entries: &[Entry]) -> Result<(), Memory>
        ensures { OnOk result (Adds self.old.kinds.items self.new.kinds.items (entries_tokens (entries_shape entries.now))) }
    {
        for n in entries {
            self.word(word::ENTRY)?;
            self.name(&n.name)?;
            self.formals(&n.formals)?;
            self.sign(sign::SEMICOLON)?;
        }
        Ok(())
    }

    /// The heading of a procedure, a function or a guarded procedure.
    fn heading(&mut self, name: &Name, formals: &[Group], kind: &SubKind) -> Result<(), Memory>
        ensures { OnOk result (Adds self.old.kinds.items self.new.kinds.items (heading_tokens name.now (groups_shape formals.now) (kind_shape kind.now))) }
    {
        match kind {
            SubKind::Procedure => {
                self.word(word::PROCEDURE)?;
                self.name(name)?;
                self.formals(formals)?;
            }
            SubKind::Function(form, _) => {
                self.word(word::FUNCTION)?;
                self.name(name)?;
                self.formals(formals)?;
                self.sign(sign::COLON)?;
                self.name(form)?;
            }
            SubKind::Guarded(guard, _) => {
                self.word(word::GUARDED)?;
                self.word(word::PROCEDURE)?;
                self.name(name)?;
                self.formals(formals)?;
                self.word(word::WHEN)?;
                self.expr(guard)?;
            }
        }
        self.sign(sign::SEMICOLON)
    }

    /// `process`, perhaps before `type`
    fn process_head(&mut self, many: bool) -> Result<(), Memory>
        ensures { OnOk result (Adds self.old.kinds.items self.new.kinds.items (token.Word words.PROCESS ∷ many_tokens many)) }
    {
        self.word(word::PROCESS)?;
        if many { self.word(word::TYPE) } else { Ok(()) }
    }

    #[cycle(parts)]
    fn part(&mut self, part: &Part) -> Result<(), Memory>
        ensures { OnOk result (Adds self.old.kinds.items self.new.kinds.items (part_tokens (part_shape part.now))) }
    {
        match part {
            Part::Consts(items) => {
                self.word(word::CONST)?;
                self.const_items(items)
            }
            Part::Types(items) => {
                self.word(word::TYPE)?;
                self.type_items(items)
            }
            Part::Vars(items) => {
                self.word(word::VAR)?;
                self.vars(items)
            }
            Part::Sub(sub) => self.sub(sub),
            Part::Monitor(owner) => {
                self.word(word::MONITOR)?;
                self.module(owner)
            }
            Part::Resource(owner) => {
                self.word(word::RESOURCE)?;
                self.module(owner)
            }
            Part::Process(process) => self.process(process),
        }
    }

    #[cycle(parts)]
    fn parts(&mut self, parts: &[Part]) -> Result<(), Memory>
        ensures { OnOk result (Adds self.old.kinds.items self.new.kinds.items (parts_tokens (parts_shape parts.now))) }
    {
        for part in parts {
            self.part(part)?;
        }
        Ok(())
    }

    #[cycle(parts)]
    fn sub(&mut self, sub: &Sub) -> Result<(), Memory>
        ensures { OnOk result (Adds self.old.kinds.items self.new.kinds.items (sub_tokens (sub_shape sub.now))) }
    {
        self.heading(&sub.name, &sub.formals, &sub.kind)?;
        self.parts(&sub.parts)?;
        self.body(&sub.body)?;
        self.sign(sign::SEMICOLON)
    }

    /// A monitor or a resource, behind its first word.
    #[cycle(parts)]
    fn module(&mut self, owner: &Module) -> Result<(), Memory>
        ensures { OnOk result (Adds self.old.kinds.items self.new.kinds.items (module_tokens (module_shape owner.now))) }
    {
        self.name(&owner.name)?;
        self.sign(sign::SEMICOLON)?;
        self.exports(&owner.exports)?;
        self.parts(&owner.parts)?;
        match &owner.body {
            Some(body) => self.body(body)?,
            None => self.word(word::END)?,
        }
        self.sign(sign::SEMICOLON)
    }

    #[cycle(parts)]
    fn process(&mut self, process: &Process) -> Result<(), Memory>
        ensures { OnOk result (Adds self.old.kinds.items self.new.kinds.items (process_tokens (process_shape process.now))) }
    {
        self.process_head(process.many)?;
        self.name(&process.name)?;
        self.formals(&process.formals)?;
        self.sign(sign::SEMICOLON)?;
        self.entries(&process.entries)?;
        self.parts(&process.parts)?;
        self.body(&process.body)?;
        self.sign(sign::SEMICOLON)
    }

    fn params(&mut self, names: &[(Name, Place)]) -> Result<(), Memory>
        ensures { OnOk result (Adds self.old.kinds.items self.new.kinds.items (params_tokens (bare names.now))) }
    {
        let [first, rest @ ..] = names else {
            return Ok(())
        };
        self.sign(sign::OPEN_PAREN)?;
        self.name(&first.0)?;
        self.comma_names(rest)?;
        self.sign(sign::CLOSE_PAREN)
    }

    pub(crate) fn tree(&mut self, tree: &Tree) -> Result<(), Memory>
        ensures { OnOk result (Adds self.old.kinds.items self.new.kinds.items (tokens_of (tree_shape tree.now))) }
    {
        self.word(word::PROGRAM)?;
        self.name(&tree.name.0)?;
        self.params(&tree.params)?;
        self.sign(sign::SEMICOLON)?;
        self.parts(&tree.parts)?;
        self.body(&tree.body)?;
        self.sign(sign::DOT)
    }
}
