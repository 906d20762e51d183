ghost use Rattle.std.specs.Prelude.{◌≡◌};
ghost use Rattle.answer.specs.Told.{says, nothing};
ghost use Rattle.formula.specs.Of.{clauses_of};
ghost use Rattle.label.specs.declared.kind.Kind.TheVariants.{Release, Endorse};
ghost use Rattle.rules.specs.Step.{changing};
ghost use Rattle.monitor.specs.View.{view};

use super::Monitor;
use crate::tables::Held;
use answer::Refusal;
use formula::Formula;
use key::{Key, Request};
use label::Kind;

// A rule of the project: each call is a method that takes its arguments one by one. These two share one function.
impl Monitor {
    /// Replaces the record's sight formula, if the key grants it.
    pub fn release<K: Key>(
        &mut self,
        task: u64,
        record: u64,
        new: Formula,
        key: &K,
    ) -> Result<(), Refusal>
        ensures answer { says nothing result ≡ (changing Release (view self.old.tables) task «record» (clauses_of new) (K.Key.meaning key.now)).answer }
        ensures after { view self.new.tables ≡ (changing Release (view self.old.tables) task «record» (clauses_of new) (K.Key.meaning key.now)).state }
    {
        self.change(Kind::Release, task, record, new, key)
    }

    /// Replaces the record's hand formula, if the key grants it.
    pub fn endorse<K: Key>(
        &mut self,
        task: u64,
        record: u64,
        new: Formula,
        key: &K,
    ) -> Result<(), Refusal>
        ensures answer { says nothing result ≡ (changing Endorse (view self.old.tables) task «record» (clauses_of new) (K.Key.meaning key.now)).answer }
        ensures after { view self.new.tables ≡ (changing Endorse (view self.old.tables) task «record» (clauses_of new) (K.Key.meaning key.now)).state }
    {
        self.change(Kind::Endorse, task, record, new, key)
    }

    fn change<K: Key>(
        &mut self,
        kind: Kind,
        task: u64,
        record: u64,
        new: Formula,
        key: &K,
    ) -> Result<(), Refusal>
        ensures answer { says nothing result ≡ (changing kind (view self.old.tables) task «record» (clauses_of new) (K.Key.meaning key.now)).answer }
        ensures after { view self.new.tables ≡ (changing kind (view self.old.tables) task «record» (clauses_of new) (K.Key.meaning key.now)).state }
    {
        let pair = self.fetch(task, record)?;
        let request = Request {
            kind,
            record: pair.filled.label,
            new,
            task: pair.open.label,
        };
        key.ask(&request)?;
        let filled = Held {
            label: pair.filled.label.relabel(kind, new),
            ..pair.filled
        };
        self.tables.records.set(record, Some(filled));
        Ok(())
    }
}
