//! Class data: its levels, and what they say of a parameter.

ghost use Rattle.std.specs.Prelude.{◌≡◌, [], IfOk};
ghost use Rattle.pp_eval.specs.Scoping.{pairs_in};
ghost use Rattle.pp_data.specs.Lookup.{lookup, key_of};

use crate::looking::{key_of, lookup};
use pp_value::{Pairs, Value, copy_pairs};
use rh_base::{NoMemory, Seq};
use std::alloc::Global;
use std::marker::Model;

/// Values of parameters, and the facts that they ask for.
#[derive(Drop)]
pub struct Level {
    pub when: Pairs,
    /// A key is `CLASS::PARAMETER`.
    pub values: Pairs,
}

impl Level {
    /// An equal level.
    pub fn copy(&self, alloc: Global) -> Result<Level, NoMemory>
        ensures { IfOk result (λ level. level ≡ self.now) }
    {
        let when = copy_pairs(alloc, &self.when)?;
        let values = copy_pairs(alloc, &self.values)?;
        Ok(Level { when, values })
    }
}

/// Class data, which contracts see as its levels in order.
#[derive(Drop)]
pub struct Data {
    levels: Seq<Level>,
}

impl Model for Data {
    ghost use Rattle.std.specs.Prelude.{List};
    ghost use Rattle.std.specs.Coded.{coded_list};
    ghost use Rattle.pp_data.specs.declared.data.Level.{Level};
    ghost use Rattle.pp_data.specs.contracts.data.Level as level;

    ghost Value = { List Level };

    ghost coded = { coded_list level.the_row.coded };

    ghost view = { λ d. d.levels };
}

impl Data {
    /// Data of no level, which has no value for any key.
    pub fn empty(alloc: Global) -> Data
        ensures { result ≡ [] }
    {
        Data {
            levels: Seq::new(alloc),
        }
    }

    /// Data of these levels.
    pub(crate) fn of(levels: Seq<Level>) -> Data
        ensures { result ≡ levels }
    {
        Data { levels }
    }

    /// Equal data.
    pub fn copy(&self, alloc: Global) -> Result<Data, NoMemory>
        ensures { IfOk result (λ d. d ≡ self.now) }
    {
        let mut copies = Seq::new(alloc);
        for level in self.levels.as_slice() {
            copies.push(level.copy(alloc)?)?;
        }
        Ok(Data::of(copies))
    }

    /// The value of a class's parameter under some facts. Facts that are no map have no keys.
    pub fn find(
        &self,
        alloc: Global,
        facts: &Value,
        class: &str,
        parameter: &str,
    ) -> Result<Option<Value>, NoMemory>
        ensures { IfOk result (λ found. found ≡ lookup self.now (pairs_in facts.now) (key_of class.now parameter.now)) }
    {
        let key = key_of(alloc, class, parameter)?;
        match lookup(self.levels.as_slice(), facts, key.as_str()) {
            Some(value) => Ok(Some(value.copy(alloc)?)),
            None => Ok(None),
        }
    }
}
