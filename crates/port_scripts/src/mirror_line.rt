//! The mirror of a line.
ghost use Rattle.std.specs.Prelude.{◌≡◌, ◌≤◌, length};
ghost use Rattle.spec_flow_text.specs.Given.{Gives};
ghost use Rattle.spec_input.specs.Mirrors.{port_in, with_port, with_valued, with_bare, with_item, mirror_in};
ghost use Rattle.field_text.specs.WordViews.{word_view};

use crate::selectors::selector_named;
use field_text::{Separators, TextFault, Word, next_word, text_from};
use spec_input::mirrors::{Mirror, Selector};
use std::alloc::Global;
use text_numbers::{LAST_PORT, cut_at, read_decimal};

// The port that a value says, which is one of the switch's.
#[tactic(auto, unfolding(spec_input::specs::Mirrors::port_in))]
fn port_in(ports: &[u16], col: u32, value_col: u32, value: &[u8]) -> Result<u16, TextFault>
    ensures { result ≡ port_in ports.now col value_col value.now }
{
    if value.is_empty() {
        return Err(TextFault::Syntax { col });
    }
    let Some(number) = read_decimal(value, u128::from(LAST_PORT)) else {
        return Err(TextFault::BadValue { col: value_col });
    };
    let port = number as u16;
    if ports.contains(&port) {
        Ok(port)
    } else {
        Err(TextFault::BadValue { col: value_col })
    }
}

// Ports, and the one that a value says, which isn't among them yet.
#[tactic(auto, unfolding(spec_input::specs::Mirrors::with_port))]
fn with_port(
    ports: &[u16],
    col: u32,
    value_col: u32,
    value: &[u8],
    mut selected: Vec<u16>,
) -> Result<Vec<u16>, TextFault>
    ensures { Gives (λ v. v.items) result
        (with_port ports.now col value_col value.now selected.items) }
{
    let port = port_in(ports, col, value_col, value)?;
    if selected.contains(&port) {
        return Err(TextFault::Repeated { col });
    }
    selected.push(port)?;
    Ok(selected)
}

// A mirror with an item of this name and value more.
#[tactic(auto, unfolding(spec_input::specs::Mirrors::with_valued))]
fn with_valued(
    ports: &[u16],
    col: u32,
    value_col: u32,
    name: Option<Selector>,
    value: &[u8],
    mirror: Mirror,
) -> Result<Mirror, TextFault>
    ensures { Gives (λ m. m) result (with_valued ports.now col value_col name value.now mirror) }
{
    let Mirror { src, dst, all } = mirror;
    match name {
        None => Err(TextFault::UnknownName { col }),
        Some(Selector::All) => Err(TextFault::Syntax { col }),
        Some(Selector::SrcPort) => {
            let src = with_port(ports, col, value_col, value, src)?;
            Ok(Mirror { src, dst, all })
        }
        Some(Selector::DstPort) => {
            let dst = with_port(ports, col, value_col, value, dst)?;
            Ok(Mirror { src, dst, all })
        }
    }
}

// A mirror with an item more that is a name alone.
#[tactic(auto, unfolding(spec_input::specs::Mirrors::with_bare))]
fn with_bare(col: u32, name: Option<Selector>, mirror: Mirror) -> Result<Mirror, TextFault>
    ensures { Gives (λ m. m) result (with_bare col name mirror) }
{
    let Mirror { src, dst, all } = mirror;
    match name {
        None => Err(TextFault::UnknownName { col }),
        Some(Selector::SrcPort | Selector::DstPort) => Err(TextFault::Syntax { col }),
        Some(Selector::All) if all => Err(TextFault::Repeated { col }),
        Some(Selector::All) => Ok(Mirror {
            src,
            dst,
            all: true,
        }),
    }
}

// A mirror with one item more.
#[tactic(auto, unfolding(spec_input::specs::Mirrors::with_item))]
fn with_item(ports: &[u16], item: Word<'_>, mirror: Mirror) -> Result<Mirror, TextFault>
    ensures { Gives (λ m. m) result (with_item ports.now (word_view item.entry) mirror) }
{
    let col = item.column();
    match cut_at(item.text, b'=') {
        None => with_bare(col, selector_named(item.text), mirror),
        Some((name, value)) => {
            let value_col = col + name.len() as u32 + 1;
            with_valued(ports, col, value_col, selector_named(name), value, mirror)
        }
    }
}

/// The mirror of a line, for a switch of these ports. Its items are read from left to right.
#[tactic(auto, unfolding(spec_input::specs::Mirrors::mirror_in))]
pub fn read_mirror(alloc: Global, ports: &[u16], line: &[u8]) -> Result<Mirror, TextFault>
    requires { length line.now ≤ 4_294_967_294 }
    ensures { Gives (λ m. m) result (mirror_in ports.now line.now) }
{
    let mut left = text_from(line, 0)?;
    let mut mirror = Mirror {
        src: Vec::new(alloc),
        dst: Vec::new(alloc),
        all: false,
    };
    'items: while let Some((item, behind)) = next_word::<Separators>(left) {
        mirror = with_item(ports, item, mirror)?;
        left = behind;
    }
    Ok(mirror)
}
