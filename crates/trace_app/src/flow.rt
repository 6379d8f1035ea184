//! The flow: its match, and the key of a packet that it states.
ghost use Rattle.std.specs.Prelude.{◌≡◌, Ok, IfOk, IfErr};
ghost use Rattle.spec_keys.specs.Fields.{register_fields};
ghost use Rattle.spec_xlate.specs.Consulted.{without};
ghost use Rattle.spec_flow_text.specs.declared.fault.TextFault.TheVariants as text;
ghost use Rattle.spec_input.specs.declared.fault.FileFault.TheVariants as script;
ghost use Rattle.spec_run.specs.Verdict.{refused_text};
ghost use Rattle.ovs_fields.specs.Packed.{numbers};
ghost use Rattle.rule_tables.specs.Views.{match_view};
ghost use Rattle.switch_input.specs.Refused.{fault_view, IfInput, TellsNoFault, TakesWords, Explains};
ghost use Rattle.spec_tools.specs.TraceVerdict.{flow_name, match_in, key_of};

use match_text::read_match;
use ovs_fields::{FieldId, Key};
use rule_tables::{EditWord, Match};
use spec_flow_text::TextFault;
use spec_input::FileFault;
use spec_run::Quantity;
use std::alloc::Global;
use switch_input::refusals::{InputFault, InputRefusal};

/// The name under which the flow is told.
const FLOW_NAME: &str = "flow";

/// The most bytes of a flow.
const MOST_LINE_BYTES: usize = 4096;

/// Metadata and the registers.
static REGISTER_FIELDS: [FieldId; 17] = [
    FieldId::Metadata,
    FieldId::Reg0,
    FieldId::Reg1,
    FieldId::Reg2,
    FieldId::Reg3,
    FieldId::Reg4,
    FieldId::Reg5,
    FieldId::Reg6,
    FieldId::Reg7,
    FieldId::Reg8,
    FieldId::Reg9,
    FieldId::Reg10,
    FieldId::Reg11,
    FieldId::Reg12,
    FieldId::Reg13,
    FieldId::Reg14,
    FieldId::Reg15,
];

// What becomes of a trace whose flow has this fault.
fn refused(why: TextFault) -> InputRefusal<'static>
    ensures input { IfInput result (λ told. fault_view told ≡ refused_text flow_name (script.Line 1 why)) }
    ensures no_fault { TellsNoFault result }
    ensures taken { TakesWords result }
    ensures no_memory { why ≡ text.OutOfMemory → result ≡ InputRefusal.OutOfMemory }
{
    match why {
        TextFault::OutOfMemory => InputRefusal::OutOfMemory,
        TextFault::TooManyActions => InputRefusal::Input(InputFault::Limit(Quantity::Actions)),
        why => InputRefusal::Input(InputFault::Text {
            name: FLOW_NAME,
            fault: FileFault::Line { line: 1, why },
        }),
    }
}

/// Reads the match of a flow.
#[tactic(auto, unfolding(spec_tools::specs::TraceVerdict::match_in))]
pub fn read_flow(alloc: Global, flow: &str) -> Result<Match, InputRefusal<'static>>
    ensures ok { IfOk result (λ m. match_in flow.now ≡ Ok (match_view m)) }
    ensures err { IfErr result (Explains (match_in flow.now)) }
    ensures no_fault { IfErr result TellsNoFault }
    ensures taken { IfErr result TakesWords }
{
    if flow.len() > MOST_LINE_BYTES {
        return Err(InputRefusal::Input(InputFault::Limit(Quantity::Line)));
    }
    match read_match(alloc, flow.as_bytes(), 0, EditWord::Delete) {
        Ok(said) => Ok(said.matching),
        Err(why) => Err(refused(why)),
    }
}

// Makes fields of a key 0.
fn clear(key: &mut Key, fields: &[FieldId])
    ensures { numbers key.new ≡ without fields.now (numbers key.old) }
{
    'fields: for field in fields {
        key.set(*field, 0);
    }
}

/// The key of a packet: what a match states, and 0 elsewhere, and in metadata and the registers.
pub fn key_of(matching: &Match) -> Key
    ensures { numbers result ≡ key_of (match_view matching.now) }
{
    let mut key = matching.key;
    clear(&mut key, &REGISTER_FIELDS);
    key
}
