//! What is read for a command, by its names.
ghost use Rattle.std.specs.Prelude.{◌≡◌, IfOk};
ghost use Rattle.spec_run.specs.Verdict.{made_sources, sources_of, ports_said};
ghost use Rattle.command_words.specs.PortViews.{ports_view, ArePorts};
ghost use Rattle.command_words.specs.CommandViews.{input_view, IfFiles};
ghost use Rattle.switch_input.specs.SourceViews.{sources_view};

use command_words::{Input, PortWord};
use run_case::blocks::Ports;
use std::alloc::{AllocError, Global};

/// The names of what is read: the file of edits, the steps file and the mirrors file where there are such, and the traces of
/// the ports.
#[derive(Clone, Copy)]
pub struct Sources<'a, 'p> {
    pub edits: &'a str,
    pub steps: Option<&'a str>,
    pub mirrors: Option<&'a str>,
    pub ports: &'p [PortWord<'a>],
}

/// The name of the edits that a number makes.
pub const MADE_EDITS: &str = "edits";

// The ports of what a number makes, each with the name of its trace.
static MADE_PORTS: [PortWord<'static>; 4] = [
    PortWord { port: 1, file: "1" },
    PortWord { port: 2, file: "2" },
    PortWord { port: 3, file: "3" },
    PortWord { port: 4, file: "4" },
];

fn made_sources() -> Sources<'static, 'static>
    ensures sources { sources_view result ≡ made_sources }
    ensures ports { ArePorts result.ports.now }
{
    Sources {
        edits: MADE_EDITS,
        steps: None,
        mirrors: None,
        ports: &MADE_PORTS,
    }
}

/// What is read for an input. What a number makes is read as if it were files.
pub fn sources_of<'a, 'p>(input: &'p Input<'a>) -> Sources<'a, 'p>
    requires { IfFiles input.now ArePorts }
    ensures sources { sources_view result ≡ sources_of (input_view input.now) }
    ensures ports { ArePorts result.ports.now }
{
    match input {
        Input::Files(files) => Sources {
            edits: files.edits,
            steps: files.steps,
            mirrors: files.mirrors,
            ports: files.ports.as_slice(),
        },
        Input::Made { .. } => made_sources(),
    }
}

/// The ports of words, in their order.
#[tactic(auto, using(crate::proofs::Lists::ports_in_view))]
pub fn ports_of(alloc: Global, words: &[PortWord<'_>]) -> Result<Ports, AllocError>
    requires { ArePorts words.now }
    ensures { IfOk result (λ ports. ports ≡ ports_said (ports_view words.now)) }
{
    let list = words.iter().map(|w| w.port).collect(alloc)?;
    Ok(Ports::new(list))
}
