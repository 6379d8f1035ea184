/// A frame that no cache of its port knew: the port, and the frame's place in the port's trace, from 1.
#[derive(Clone, Copy, PartialEq, Eq)]
pub struct Upcall {
    pub port: u16,
    pub place: u32,
}
