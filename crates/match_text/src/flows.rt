ghost use Rattle.std.specs.Prelude.{All};
ghost use Rattle.field_text.specs.Views.{IsWithin};

use crate::normal::kept_match;
use crate::reading::MatchText;
use field_text::Part;
use rule_tables::Match;

/// A flow before its actions, as it was read. Its match isn't made yet, which has many times as many bytes.
#[derive(Drop)]
pub struct Flow {
    pub table: Option<u8>,
    /// 32,768 where the flow states none.
    pub priority: u16,
    pub cookie: Option<u64>,
    pub(crate) parts: Vec<Part>,
    /// Where the actions begin, counted from 0: after `actions=`.
    pub rest: Option<usize>,
    pub ghost are_within: { All IsWithin parts.items },
}

impl Flow {
    ghost use Rattle.std.specs.Prelude.{◌≡◌};
    ghost use Rattle.rule_tables.specs.Views.{match_view};
    ghost use Rattle.match_text.specs.Views.{match_text_view, flow_view};

    /// The match of what the flow states, without what has no place in the packets that it is about.
    pub fn matching(&self) -> Match
        ensures { match_view result ≡ (flow_view self.now).matching }
    {
        kept_match(&self.parts)
    }

    /// What the flow says before its actions.
    pub(crate) fn text(&self) -> MatchText
        ensures text { match_text_view result ≡ flow_view self.now }
        ensures rest { result.rest ≡ self.now.rest }
    {
        MatchText {
            table: self.table,
            priority: self.priority,
            cookie: self.cookie,
            matching: self.matching(),
            rest: self.rest,
        }
    }
}
