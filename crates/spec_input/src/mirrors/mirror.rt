use std::marker::Model;

/// Which traffic of a switch is copied to a file of its own (ovs-vswitchd.conf.db(5), table Mirror).
#[derive(Drop)]
pub struct Mirror {
    /// The ports at which all that comes in is copied, each once.
    pub src: Vec<u16>,
    /// The ports at which all that goes out is copied, each once.
    pub dst: Vec<u16>,
    /// Whether all that comes in is copied, at whichever port.
    pub all: bool,
}

impl Model for Mirror {
    ghost use Rattle.spec_input.specs.Mirrors as mirrors;

    ghost Value = { mirrors.Mirror };

    ghost view = { λ m. record { src = m.src.items; dst = m.dst.items; all = m.all } };
}
