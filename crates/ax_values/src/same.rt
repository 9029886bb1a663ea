ghost use Rattle.std.specs.Prelude.{◌≡◌, ◌↔◌, IsTrue};
ghost use Rattle.ax_values.specs.Words.{same_item};

use crate::{Field, Item, ItemName, ListOf, Mark, Marks, Name, Payload, Seen, Text, Value};

/// What is compared without memory.
pub trait Same {
    /// Whether two values are equal.
    fn same(&self, other: &Self) -> bool
        ensures { IsTrue result ↔ (self.now ≡ other.now) };
}

impl Same for u8 {
    fn same(&self, other: &u8) -> bool {
        self == other
    }
}

impl Same for u32 {
    fn same(&self, other: &u32) -> bool {
        self == other
    }
}

impl Same for i64 {
    fn same(&self, other: &i64) -> bool {
        self == other
    }
}

impl Same for Name {
    fn same(&self, other: &Name) -> bool {
        self.parts() == other.parts()
    }
}

impl Same for Text {
    fn same(&self, other: &Text) -> bool {
        self.parts() == other.parts()
    }
}

impl Same for Value {
    fn same(&self, other: &Value) -> bool {
        match (self, other) {
            (Value::Int(int), Value::Int(other)) => int == other,
            (Value::Text(text), Value::Text(other)) => text.same(other),
            _ => false,
        }
    }
}

impl Same for Field {
    fn same(&self, other: &Field) -> bool {
        self.name.same(&other.name) && self.value.same(&other.value)
    }
}

impl Same for Payload {
    fn same(&self, other: &Payload) -> bool {
        all_same(self.parts(), other.parts())
    }
}

impl Same for ItemName {
    fn same(&self, other: &ItemName) -> bool
        ensures value { result ≡ same_item self.now other.now }
        ensures equal { IsTrue result ↔ (self.now ≡ other.now) }
    {
        self.aggregate.same(&other.aggregate) && self.seq == other.seq && self.part == other.part
    }
}

impl Same for Item {
    fn same(&self, other: &Item) -> bool {
        self.name.same(&other.name)
            && self.kind.same(&other.kind)
            && self.payload.same(&other.payload)
    }
}

impl Same for Mark {
    fn same(&self, other: &Mark) -> bool {
        self.seq == other.seq && self.part == other.part
    }
}

impl Same for Marks {
    fn same(&self, other: &Marks) -> bool {
        all_same(self.parts(), other.parts())
    }
}

impl Same for Seen {
    fn same(&self, other: &Seen) -> bool {
        self.position == other.position
            && self.parked == other.parked
            && self.marks.same(&other.marks)
    }
}

impl<T: Same> Same for Option<T> {
    fn same(&self, other: &Option<T>) -> bool {
        match (self, other) {
            (Some(value), Some(other)) => value.same(other),
            (None, None) => true,
            _ => false,
        }
    }
}

impl<T: Same> Same for ListOf<T> {
    fn same(&self, other: &ListOf<T>) -> bool {
        all_same(self.parts(), other.parts())
    }
}

/// Whether two lists hold equal items, in the same order.
pub fn all_same<T: Same>(items: &[T], others: &[T]) -> bool
    ensures { IsTrue result ↔ (items.now ≡ others.now) }
{
    if items.len() != others.len() {
        return false;
    }
    for (item, other) in items.iter().zip(others) {
        if !item.same(other) {
            return false;
        }
    }
    true
}
