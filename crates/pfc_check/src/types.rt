//! Types as they are written: what they make, and the rules that are broken in them.
ghost use Rattle.std.specs.Prelude.{◌≡◌, if◌then◌else◌, option_map, OnOk, IfOk};
ghost use Rattle.pfc_tree.specs.views.Types.{type_view, var_view, vars_view};
ghost use Rattle.pfc_types.specs.Views.{levels};
ghost use Rattle.pfc_types.specs.Scopes.{look};
ghost use Rattle.pfc_types.specs.Blocks.{note};
ghost use Rattle.pfc_types.specs.rules.Kinds.{value_rule, type_name_rules, named_type};
ghost use Rattle.pfc_types.specs.rules.Constants.{type_place, added, channel_form, made_channel, array_of, made_arrays, made_field, made_names, made_group};
ghost use Rattle.pfc_types.specs.rules.Constants.{fields_begun, made, made_items, made_item};
ghost use Rattle.pfc_phrases.specs.Found.{refused};
ghost use Rattle.pfc_phrases.specs.Views.{extent_view};
ghost use Rattle.pfc_check.specs.States.{state_of, extents_of, made_of, fields_of};

use crate::state::State;
use pfc_base::{Memory, Name, Place, Refusal};
use pfc_phrases::{Extent, named_type, type_name_fault, value_fault};
use pfc_tree::{TypeNode, VarItem};
use pfc_types::{Fields, ScopeFault, TypeFault, TypeForm, TypeId, View};

/// The fields of a record so far, and whether no rule is broken in them.
#[derive(Drop)]
struct RecordFields {
    list: Fields,
    whole: bool,
}

/// The place of a type's first token.
pub(crate) fn type_place(form: &TypeNode) -> Place
    ensures { result ≡ type_place (type_view form.now) }
{
    match form {
        TypeNode::Named(_, place)
        | TypeNode::Channel(_, place)
        | TypeNode::Array(_, _, place)
        | TypeNode::Fields(_, _, place) => *place,
    }
}

/// The array with these bounds and elements.
fn array_of(extent: Option<Extent>, element: Option<TypeId>) -> Option<TypeForm>
    ensures { result ≡ array_of (option_map extent_view extent) element }
{
    let extent = extent?;
    let element = element?;
    Some(TypeForm::Array {
        index: extent.index,
        low: extent.low,
        high: extent.high,
        element,
    })
}

/// The record of these fields, None where it is faulty.
fn record_form(fields: RecordFields) -> Option<TypeForm>
    ensures { result ≡ (if fields.whole then Some (TypeForm.Record fields.list) else None) }
{
    if fields.whole {
        Some(TypeForm::Record(fields.list))
    } else {
        None
    }
}

impl State {
    /// The type that a type as it is written makes, None where it is faulty. `carried` says that it stands directly
    /// after `channel of`. The rules that are broken in it are noted.
    #[cycle(types)]
    pub(crate) fn made(
        &mut self,
        form: &TypeNode,
        carried: bool,
        view: &View,
    ) -> Result<Option<TypeId>, Memory>
        ensures { IfOk result (λ t. made_of self.new t ≡ made carried (state_of self.old) (levels view.now) (type_view form.now)) }
    {
        match form {
            TypeNode::Named(x, place) => self.type_name(x, *place, carried, view),
            TypeNode::Channel(carries, place) => {
                let t = self.made(carries, true, view)?;
                self.channel(t, type_place(carries), *place)
            }
            TypeNode::Array(ranges, element, place) => {
                let extents = self.extents(ranges, view)?;
                self.ranges(ranges, view)?;
                let t = self.made(element, false, view)?;
                self.arrays(extents, t, *place)
            }
            TypeNode::Fields(items, _, place) => {
                let fields = self.fields(items, view)?;
                self.add_type(record_form(fields), *place)
            }
        }
    }

    /// The fields of a record.
    #[cycle(types)]
    fn fields(&mut self, items: &[VarItem], view: &View) -> Result<RecordFields, Memory>
        ensures { IfOk result (λ fields. fields_of self.new fields ≡ made_items (levels view.now) (fields_begun (state_of self.old)) (vars_view items.now)) }
    {
        let mut fields = RecordFields {
            list: Fields::new(self.alloc),
            whole: true,
        };
        for item in items {
            self.field_group(item, &mut fields, view)?;
        }
        Ok(fields)
    }

    /// A group of fields.
    #[cycle(types)]
    fn field_group(
        &mut self,
        item: &VarItem,
        fields: &mut RecordFields,
        view: &View,
    ) -> Result<(), Memory>
        ensures { OnOk result (fields_of self.new fields.new ≡ made_item (levels view.now) (fields_of self.old fields.old) (var_view item.now)) }
    {
        let t = self.made(&item.form, false, view)?;
        self.typed_fields(&item.names, t, fields)
    }

    /// A group of fields of a type, None where that is faulty.
    fn typed_fields(
        &mut self,
        names: &[(Name, Place)],
        t: Option<TypeId>,
        fields: &mut RecordFields,
    ) -> Result<(), Memory>
        ensures { OnOk result (fields_of self.new fields.new ≡ made_group (fields_of self.old fields.old) t names.now) }
    {
        match t {
            None => {
                fields.whole = false;
                self.field_names(names, TypeId::INTEGER, fields)
            }
            Some(t) => self.field_names(names, t, fields),
        }
    }

    /// Fields of one type.
    fn field_names(
        &mut self,
        names: &[(Name, Place)],
        t: TypeId,
        fields: &mut RecordFields,
    ) -> Result<(), Memory>
        ensures { OnOk result (fields_of self.new fields.new ≡ made_names t (fields_of self.old fields.old) names.now) }
    {
        for x in names {
            self.field(&x.0, x.1, t, fields)?;
        }
        Ok(())
    }

    /// One field. Where its name is repeated, that is noted, and the first counts.
    fn field(
        &mut self,
        name: &Name,
        place: Place,
        t: TypeId,
        fields: &mut RecordFields,
    ) -> Result<(), Memory>
        ensures { OnOk result (fields_of self.new fields.new ≡ made_field t (fields_of self.old fields.old) (name.now, place)) }
    {
        let copy = name.copy(self.alloc)?;
        match fields.list.push(copy, t) {
            Ok(()) => Ok(()),
            Err(ScopeFault::Repeated) => {
                fields.whole = false;
                self.unless(false, place, 302)
            }
            Err(ScopeFault::Memory) => Err(Memory),
        }
    }

    /// The type that a name stands for, None where it is faulty. The rules that are broken at it are noted.
    fn type_name(
        &mut self,
        x: &Name,
        place: Place,
        carried: bool,
        view: &View,
    ) -> Result<Option<TypeId>, Memory>
        ensures { IfOk result (λ t. made_of self.new t ≡ record {
          state =
              note (state_of self.old) (type_name_rules carried (look (state_of self.old).blocks.scopes (levels view.now) x.now) place);
          t =
              named_type carried (look (state_of self.old).blocks.scopes (levels view.now) x.now);
        }) }
    {
        let meaning = self.look(view, x);
        self.note(type_name_fault(carried, meaning, place))?;
        Ok(named_type(carried, meaning))
    }

    /// Adds a type behind its parts, and gives its place; none where it is faulty or above 65,536 cells.
    fn add_type(&mut self, form: Option<TypeForm>, place: Place) -> Result<Option<TypeId>, Memory>
        ensures { IfOk result (λ t. made_of self.new t ≡ added (state_of self.old) form place) }
    {
        let Some(form) = form else {
            return Ok(None);
        };
        match self.types.add(form) {
            Ok(t) => Ok(Some(t)),
            Err(TypeFault::Bounds) => Ok(None),
            Err(TypeFault::Cells) => {
                self.unless(false, place, 304)?;
                Ok(None)
            }
            Err(TypeFault::Memory) => Err(Memory),
        }
    }

    /// The channel of a type, which is no object type.
    fn channel_form(&self, t: Option<TypeId>) -> Option<TypeForm>
        ensures { result ≡ channel_form (state_of self.now).forms t }
    {
        let t = t?;
        if self.is_object(t) {
            return None;
        }
        Some(TypeForm::Channel(t))
    }

    /// No channel carries an object type.
    fn value_fault(&self, t: Option<TypeId>, carried: Place) -> Option<Refusal>
        ensures { refused result ≡ value_rule (state_of self.now).forms t carried }
    {
        value_fault(&self.types, t, carried)
    }

    /// The channel of a type, which stands at the place `carried`.
    fn channel(
        &mut self,
        t: Option<TypeId>,
        carried: Place,
        place: Place,
    ) -> Result<Option<TypeId>, Memory>
        ensures { IfOk result (λ made. made_of self.new made ≡ made_channel (made_of self.old t) carried place) }
    {
        let form = self.channel_form(t);
        self.note(self.value_fault(t, carried))?;
        self.add_type(form, place)
    }

    /// Arrays of arrays, the last of the bounds innermost.
    #[tactic(auto, using(crate::proofs::Arrays::arrays_push))]
    fn arrays(
        &mut self,
        mut extents: Vec<Option<Extent>>,
        element: Option<TypeId>,
        place: Place,
    ) -> Result<Option<TypeId>, Memory>
        ensures { IfOk result (λ t. made_of self.new t ≡ made_arrays (made_of self.old element) (extents_of extents.items) place) }
    {
        let mut t = element;
        while let Some(extent) = extents.pop() {
            t = self.add_type(array_of(extent, t), place)?;
        }
        Ok(t)
    }
}
