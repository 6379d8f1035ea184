ghost use Rattle.std.specs.Prelude.{All};
ghost use Rattle.field_text.specs.Views.{IsWithin};

use field_text::Part;

/// What the items so far state.
#[derive(Drop)]
pub struct Sofar {
    pub parts: Vec<Part>,
    pub table: Option<u8>,
    pub priority: Option<u16>,
    pub cookie: Option<u64>,
    pub ghost are_within: { All IsWithin parts.items },
}
