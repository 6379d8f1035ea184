ghost use Rattle.std.specs.Prelude.{◌≡◌};
ghost use Rattle.spec_flow_text.specs.Names as names;

use crate::fields::{field_named, is_field_left_out};
use crate::words::meaning_of;
use spec_flow_text::{ItemName, Shorthand};

const SHORTHANDS: [(&str, Shorthand); 9] = [
    ("ip", Shorthand::Ip),
    ("ipv6", Shorthand::Ipv6),
    ("arp", Shorthand::Arp),
    ("icmp", Shorthand::Icmp),
    ("tcp", Shorthand::Tcp),
    ("udp", Shorthand::Udp),
    ("icmp6", Shorthand::Icmp6),
    ("tcp6", Shorthand::Tcp6),
    ("udp6", Shorthand::Udp6),
];

/// The word of a shorthand.
pub fn word_of(shorthand: Shorthand) -> &'static str
    ensures { result.now ≡ names.word_of shorthand }
{
    match shorthand {
        Shorthand::Ip => "ip",
        Shorthand::Ipv6 => "ipv6",
        Shorthand::Arp => "arp",
        Shorthand::Icmp => "icmp",
        Shorthand::Tcp => "tcp",
        Shorthand::Udp => "udp",
        Shorthand::Icmp6 => "icmp6",
        Shorthand::Tcp6 => "tcp6",
        Shorthand::Udp6 => "udp6",
    }
}

#[tactic(auto, unfolding(spec_flow_text::specs::Names::shorthand_named))]
fn shorthand_named(name: &[u8]) -> Option<Shorthand>
    ensures { result ≡ names.shorthand_named name.now }
{
    meaning_of(&SHORTHANDS, name)
}

const KEYWORDS: [(&str, ItemName); 11] = [
    ("dl_vlan", ItemName::DlVlan),
    ("table", ItemName::Table),
    ("priority", ItemName::Priority),
    ("cookie", ItemName::Cookie),
    ("duration", ItemName::Statistic),
    ("n_packets", ItemName::Statistic),
    ("n_bytes", ItemName::Statistic),
    ("idle_age", ItemName::Statistic),
    ("hard_age", ItemName::Statistic),
    ("actions", ItemName::Actions),
    ("action", ItemName::Actions),
];

#[tactic(auto, unfolding(spec_flow_text::specs::Names::keyword_named))]
fn keyword_named(name: &[u8]) -> Option<ItemName>
    ensures { result ≡ names.keyword_named name.now }
{
    meaning_of(&KEYWORDS, name)
}

/// What the name of an item of a flow means: a field, a shorthand, another item, or one that is known and left out.
#[tactic(auto, unfolding(spec_flow_text::specs::Names::item_named))]
pub fn item_named(name: &[u8]) -> Option<ItemName>
    ensures { result ≡ names.item_named name.now }
{
    if let Some(field) = field_named(name) {
        return Some(ItemName::Field(field));
    }
    if let Some(shorthand) = shorthand_named(name) {
        return Some(ItemName::Shorthand(shorthand));
    }
    if let Some(keyword) = keyword_named(name) {
        return Some(keyword);
    }
    if is_field_left_out(name) {
        Some(ItemName::Unsupported)
    } else {
        None
    }
}
