ghost use Rattle.std.specs.Prelude.{◌≡◌, IfOk, string_bytes};
ghost use Rattle.switch_output.specs.RunFiles.{name_of};

use spec_input::mirrors::Mirror;
use std::alloc::{AllocError, Global};

/// A file of a run.
#[derive(Clone, Copy)]
pub(crate) enum RunFile<'a> {
    /// What a port sends.
    Port(u16),
    Rules,
    Megaflows,
    Journal,
    Netflow,
    /// What a mirror copies, with its number.
    Mirror(usize, &'a Mirror),
}

impl RunFile<'_> {
    /// Its name, by the begin of the names.
    pub(crate) fn name(self, alloc: Global, out: &str) -> Result<String, AllocError>
        ensures { IfOk result (λ name. string_bytes name ≡ name_of out.now self.entry) }
    {
        match self {
            RunFile::Port(port) => format!(in alloc; "{out}.p{port}.pcap"),
            RunFile::Rules => format!(in alloc; "{out}.rules"),
            RunFile::Megaflows => format!(in alloc; "{out}.megaflows"),
            RunFile::Journal => format!(in alloc; "{out}.journal"),
            RunFile::Netflow => format!(in alloc; "{out}.netflow"),
            RunFile::Mirror(number, _) => format!(in alloc; "{out}.m{number}.pcap"),
        }
    }
}
