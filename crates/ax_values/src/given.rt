use crate::{Duplicate, Name, NoMemory, Value};
use std::alloc::Global;

/// What a field of a new payload is given: a copy of a named field or parameter, or a constant.
#[derive(Drop)]
pub enum Given {
    Copy(Name),
    Just(Value),
}

impl Duplicate for Given {
    fn copy(&self, alloc: Global) -> Result<Given, NoMemory> {
        match self {
            Given::Copy(name) => Ok(Given::Copy(name.copy(alloc)?)),
            Given::Just(value) => Ok(Given::Just(value.copy(alloc)?)),
        }
    }
}
