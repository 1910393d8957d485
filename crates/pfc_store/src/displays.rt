//! Where the variables of the scopes in view live.
ghost use Rattle.std.specs.Prelude.{◌≡◌, ◌+◌, ◌++◌, [], ◌∷◌, length, IfOk, OnOk, OnErr};
ghost use Rattle.pfc_types.specs.Scopes.{scope_at};
ghost use Rattle.pfc_semantics.specs.Layouts.{is_laid, laid_names};
ghost use Rattle.pfc_semantics.specs.Displays.{frame_of as frame_in, outward as outward_in, accept_frames};
ghost use Rattle.pfc_store.specs.Frames.{frame_view, frames_view};

use pfc_base::Memory;
use pfc_types::{Meaning, Scopes};
use std::alloc::Global;
use std::marker::Model;

/// A scope in view, the activation in which its variables live, and the place of the first of them in the layout of that activation's
/// block.
#[derive(Clone, Copy, Debug, PartialEq, Eq)]
pub struct Frame {
    pub scope: u32,
    pub activation: u64,
    pub first: u32,
}

/// The scopes in view, innermost first. A scope without a frame is the program's, or that of a monitor or resource: its variables are
/// main's. A contract sees the display of the definitions.
#[derive(Drop)]
pub struct Display {
    frames: Vec<Frame>,
}

impl Model for Display {
    ghost use Rattle.pfc_semantics.specs.Displays.{Display as Frames};
    ghost use Rattle.pfc_store.specs.Frames.{frames_view};

    ghost Value = { Frames };

    ghost view = { λ d. frames_view d.frames.items };
}

/// The frames from that of a scope on, none where it has none.
fn outward_of(frames: &[Frame], scope: u32) -> &[Frame]
    ensures { frames_view result.now ≡ outward_in (frames_view frames.now) scope }
{
    for (i, frame) in frames.iter().enumerate() {
        if frame.scope == scope {
            return &frames[i..];
        }
    }
    &[]
}

/// Whether a name is laid out: a variable or a single process.
fn is_variable(meaning: Meaning) -> bool
    ensures { result ≡ is_laid meaning }
{
    match meaning {
        Meaning::Variable { t: _, reference: _ } => true,
        Meaning::Process(_) => true,
        Meaning::Constant { t: _, value: _ } => false,
        Meaning::Named(_) => false,
        Meaning::Sub(_) => false,
        Meaning::Module(_) => false,
        Meaning::Entry(_) => false,
        Meaning::Predeclared(_) => false,
        Meaning::Faulty => false,
    }
}

/// How many names of a scope are laid out, none where there is no such scope.
fn laid_count(scopes: &Scopes, i: u32) -> u32
    ensures { result ≡ length (laid_names (scope_at scopes.now.scopes i)) }
{
    if scopes.len() <= i {
        return 0;
    }
    let scope = scopes.at(i);
    let mut count = 0;
    for k in 0..scope.len() {
        if is_variable(scope.meaning_at(k)) {
            count += 1;
        }
    }
    count
}

/// The sum of two places; one past 2^32 counts as want of memory.
pub(crate) fn sum(a: u32, b: u32) -> Result<u32, Memory>
    ensures { IfOk result (λ n. n ≡ a + b) }
{
    match a.checked_add(b) {
        Some(n) => Ok(n),
        None => Err(Memory),
    }
}

impl Display {
    /// Nothing is in view but what is main's.
    pub fn new(alloc: Global) -> Display
        ensures { result ≡ [] }
    {
        Display {
            frames: Vec::new(alloc),
        }
    }

    /// The same display once more. Its only refusal is want of memory.
    pub fn copy(&self, alloc: Global) -> Result<Display, Memory>
        ensures { IfOk result (λ d. d ≡ self.now) }
    {
        Ok(Display {
            frames: Vec::from_slice(alloc, &self.frames)?,
        })
    }

    /// Where the variables of a scope live.
    pub fn frame_of(&self, scope: u32) -> Frame
        ensures { frame_view result ≡ frame_in self.now scope }
    {
        match outward_of(&self.frames, scope) {
            [frame, ..] => *frame,
            [] => Frame {
                scope,
                activation: 0,
                first: 0,
            },
        }
    }

    /// What is in view around a block that is declared in a scope.
    pub fn outward(&self, alloc: Global, scope: u32) -> Result<Display, Memory>
        ensures { IfOk result (λ d. d ≡ outward_in self.now scope) }
    {
        Ok(Display {
            frames: Vec::from_slice(alloc, outward_of(&self.frames, scope))?,
        })
    }

    /// What is in view in a block that is declared in the scope `outer`: its own scope, and what is in view around it.
    pub fn inner(&self, alloc: Global, own: Frame, outer: u32) -> Result<Display, Memory>
        ensures { IfOk result (λ d. d ≡ frame_view own ∷ outward_in self.now outer) }
    {
        let mut frames = Vec::new(alloc);
        frames.push(own)?;
        frames.extend_from_slice(outward_of(&self.frames, outer))?;
        Ok(Display { frames })
    }

    /// One more scope in view around the others. Its only refusal is want of memory, which changes nothing.
    pub fn push(&mut self, frame: Frame) -> Result<(), Memory>
        ensures added { OnOk result (self.new ≡ self.old ++ frame_view frame ∷ []) }
        ensures unchanged { OnErr result (self.new ≡ self.old) }
    {
        self.frames.push(frame)?;
        Ok(())
    }

    /// What is in view in a process: its own scope, and behind it the scopes of its accepts, from the number `next` on, whose parameters
    /// lie behind its own variables. Its only refusal is want of memory; a number past 2^32 counts as one.
    pub fn of_process(
        alloc: Global,
        scopes: &Scopes,
        own: Frame,
        accepts: u32,
        next: u32,
    ) -> Result<Display, Memory>
        ensures { IfOk result (λ d. d ≡ frame_view own ∷ accept_frames scopes.now own.activation accepts next
            (length (laid_names (scope_at scopes.now.scopes own.scope)))) }
    {
        let mut frames = Vec::new(alloc);
        frames.push(own)?;
        let mut first = laid_count(scopes, own.scope);
        let mut scope = next;
        for _ in 0..accepts {
            frames.push(Frame {
                scope,
                activation: own.activation,
                first,
            })?;
            first = sum(first, laid_count(scopes, scope))?;
            scope = sum(scope, 1)?;
        }
        Ok(Display { frames })
    }
}
