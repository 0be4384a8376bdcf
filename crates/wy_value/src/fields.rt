//! The fields of a record while it is read.
ghost use Rattle.std.specs.Prelude.{◌≡◌, [], false, IfOk, OnOk};
ghost use Rattle.wy_value.specs.Grammar.{given, placed};

use crate::value::Value;
use std::alloc::{AllocError, Global};
use std::collections::BTreeMap;
use std::marker::Model;
use wy_data::Name;
use wy_reading::Items;

/// Fields by rising names, no name twice. A new one takes its place in logarithmic time.
#[derive(Drop)]
pub struct FieldMap {
    map: BTreeMap<Name, Value>,
}

impl Model for FieldMap {
    ghost use Rattle.std.specs.Prelude.{List};
    ghost use Rattle.wy_value.specs.Grammar.{Entry};
    ghost use Rattle.wy_value.specs.contracts.value.Value as value;
    ghost use Rattle.std.specs.Coded.{codes};

    ghost Value = { List Entry };

    ghost coded = { Prim.hlevel (codes, value.the_row.coded) };

    ghost view = { λ fields. fields.map.entries };
}

impl FieldMap {
    pub fn new(alloc: Global) -> FieldMap
        ensures { result ≡ [] }
    {
        FieldMap {
            map: BTreeMap::new(alloc),
        }
    }

    /// Whether a field has the name.
    #[tactic(auto, using(crate::proofs::FieldLemmas::found))]
    pub fn has(&self, name: &Name) -> bool
        ensures { result ≡ given self.now name.now }
    {
        self.map.contains_key(name)
    }

    /// The fields with one more.
    pub fn with(self, name: Name, value: Value) -> Result<FieldMap, AllocError>
        ensures { IfOk result (λ fields. fields ≡ placed self name value) }
    {
        let FieldMap { mut map } = self;
        map.insert(name, value)?;
        Ok(FieldMap { map })
    }

    /// The fields as a list.
    pub fn into_items(self, alloc: Global) -> Result<Items<(Name, Value)>, AllocError>
        ensures { IfOk result (λ items. items ≡ self) }
    {
        let FieldMap { map } = self;
        let mut items = Items::new(alloc);
        for entry in map {
            items.push(entry)?;
        }
        Ok(items)
    }
}
