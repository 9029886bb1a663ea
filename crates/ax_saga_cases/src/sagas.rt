use crate::written::write_received;
use ax_case_lines::{
    CaseFault, CaseLine, first_word, item_of, two_words, whole_item_of, write_either,
};
use ax_rules::{Initial, SagaRules};
use ax_sagas::{Received, Saga, begin, place_among, receive};
use ax_values::{Item, NoMemory};
use std::alloc::Global;
use std::mem;

/// The sagas that there are, by name.
#[derive(Drop)]
pub(crate) struct Sagas {
    sagas: Vec<Saga>,
}

impl Sagas {
    pub(crate) fn new(alloc: Global) -> Sagas {
        Sagas {
            sagas: Vec::new(alloc),
        }
    }

    /// The saga that the item starts: `RULES ITEM KIND PAYLOAD`.
    pub(crate) fn begin(
        &mut self,
        rules: &SagaRules,
        line: &mut CaseLine,
    ) -> Result<(), CaseFault> {
        let (_, text) = first_word(&line.text);
        let item = whole_item_of(line.alloc, text)?;
        let made = begin(line.alloc, rules, &item)?;
        drop(item);
        self.note(rules.fields(), made, &mut line.out)
    }

    /// What the item does to the saga: `RULES SAGA ITEM KIND PAYLOAD`.
    pub(crate) fn receive(
        &mut self,
        rules: &SagaRules,
        line: &mut CaseLine,
    ) -> Result<(), CaseFault> {
        let (_, saga, text) = two_words(&line.text);
        let item = whole_item_of(line.alloc, text)?;
        let made = received(line.alloc, rules, self.saga(line.alloc, saga)?, &item)?;
        drop(item);
        self.note(rules.fields(), made, &mut line.out)
    }

    /// Whether a saga is live with an association: `SAGA KEY VALUE`.
    pub(crate) fn ask(&self, line: &mut CaseLine) -> Result<(), CaseFault> {
        let (saga, key, value) = two_words(&line.text);
        let expects = self.saga(line.alloc, saga)?.expects(key, value);
        write_either(expects, b"yes", b"no", &mut line.out)
    }

    /// The names of all sagas.
    pub(crate) fn write_names(&self, out: &mut Vec<u8>) -> Result<(), NoMemory> {
        out.extend_from_slice(b"sagas")?;
        for saga in &self.sagas {
            out.push(b' ')?;
            saga.name.write(out)?;
        }
        Ok(())
    }

    /// The saga of a name.
    fn saga(&self, alloc: Global, word: &[u8]) -> Result<&Saga, CaseFault> {
        let name = item_of(alloc, word)?;
        let place = place_among(&self.sagas, &name);
        drop(name);
        match place {
            Ok(place) => Ok(&self.sagas[place]),
            Err(_) => Err(CaseFault::Line),
        }
    }

    /// Shows what an item has made, and keeps the saga.
    fn note(
        &mut self,
        fields: &[Initial],
        made: Option<Received>,
        out: &mut Vec<u8>,
    ) -> Result<(), CaseFault> {
        let Some(received) = made else {
            return Ok(out.extend_from_slice(b"none")?);
        };
        write_received(fields, &received, out)?;
        let Received { saga, sends } = received;
        drop(sends);
        Ok(self.put(saga)?)
    }

    /// Puts the saga in its place, or in the place of the one of its name.
    fn put(&mut self, saga: Saga) -> Result<(), NoMemory> {
        match place_among(&self.sagas, &saga.name) {
            Ok(place) => drop(mem::replace(&mut self.sagas[place], saga)),
            Err(place) => self.sagas.insert(place, saga)?,
        }
        Ok(())
    }
}

/// What an item does to a saga that has a number for each field of the rules.
fn received(
    alloc: Global,
    rules: &SagaRules,
    saga: &Saga,
    item: &Item,
) -> Result<Option<Received>, CaseFault> {
    if saga.row.parts().len() != rules.fields().len() {
        return Err(CaseFault::Line);
    }
    Ok(receive(alloc, rules, saga, item)?)
}
