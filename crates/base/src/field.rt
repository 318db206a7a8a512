//! One field of a word. Field 0 is the most significant.
ghost use Rattle.std.specs.Prelude.{◌≡◌, suc, ◌+◌, ◌-◌, ◌*◌, ◌/◌, ◌^◌, ◌<◌, ◌≤◌, ◌&&◌, ◌↔◌, IsSome, IfSome, if◌then◌else◌, Some, None, nat_lt};
ghost use Rattle.base.specs.Words.{bits, field, put, Replaced};

use crate::width::Width;

/// A field that a word has.
#[derive(Clone, Copy)]
pub(crate) struct Field {
    pub(crate) width: Width,
    pub(crate) index: u32,
    ghost inside: { index < 64 / bits width },
}

impl Field {
    /// The place of the field's lowest bit.
    fn place(self) -> u32
        ensures value { result ≡ 64 - bits self.width * suc self.index }
        ensures room { result + bits self.width ≤ 64 }
    {
        64 - self.width.bits() * (self.index + 1)
    }

    /// What a word has in the field.
    pub(crate) fn get(self, x: u64) -> u64
        ensures { result ≡ field (bits self.width) self.index x }
    {
        x >> self.place() & self.width.ones()
    }

    /// The word with a value in the field.
    fn put(self, value: u64, x: u64) -> u64
        requires fits { value < 2 ^ bits self.width }
        ensures value { result ≡ put (bits self.width) self.index value x }
        ensures replaced { Replaced (bits self.width) self.index value x result }
    {
        let place = self.place();
        x & !(self.width.ones() << place) | value << place
    }
}

impl Width {
    /// The field at an index; none where a word has no such field.
    fn field(self, index: u32) -> Option<Field>
        ensures there { IsSome result ↔ (index < 64 / bits self) }
        ensures same { IfSome result (λ f. (f.width ≡ self) × (f.index ≡ index)) }
    {
        // An if: the closure of `then` would need its contract written out.
        if index < self.fields() {
            Some(Field { width: self, index })
        } else {
            None
        }
    }

    /// What a word has in the field at an index; none where it has no such field.
    pub fn get(self, index: u32, x: u64) -> Option<u64>
        ensures { result ≡ (if nat_lt index (64 / bits self) then Some (field (bits self) index x) else None) }
    {
        self.field(index).map(|field| field.get(x))
    }

    /// The word with a value in the field at an index; none where there is no such field, or the value does not fit it.
    pub fn put(self, index: u32, value: u64, x: u64) -> Option<u64>
        ensures replaced { IfSome result (λ y. Replaced (bits self) index value x y) }
        ensures value { result ≡ (if nat_lt index (64 / bits self) && nat_lt value (2 ^ bits self) then Some (put (bits self) index value x) else None) }
    {
        if value > self.ones() {
            return None;
        }
        self.field(index).map(|field| field.put(value, x))
    }
}
