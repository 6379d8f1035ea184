use field_text::{Bits, Shorthand};
use named_fields::NamedField;

/// An item of a match as it is printed: a shorthand, or a named field with some of its bits.
#[derive(Clone, Copy)]
pub enum Shown {
    Short(Shorthand),
    Value(NamedField, Bits),
}
