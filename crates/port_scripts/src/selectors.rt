ghost use Rattle.std.specs.Prelude.{◌≡◌};
ghost use Rattle.spec_flow_text.specs.Names as names;
ghost use Rattle.spec_input.specs.Mirrors.{selectors};

use field_text::meaning_of;
use spec_input::mirrors::Selector;

const SELECTORS: [(&str, Selector); 3] = [
    ("select_src_port", Selector::SrcPort),
    ("select_dst_port", Selector::DstPort),
    ("select_all", Selector::All),
];

/// What an item of this name selects.
pub fn selector_named(name: &[u8]) -> Option<Selector>
    ensures { result ≡ names.meaning_of selectors name.now }
{
    meaning_of(&SELECTORS, name)
}
