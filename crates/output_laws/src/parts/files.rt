ghost use Rattle.output_laws.specs.Laws.{PortsFollow, MirrorsFollow, OfParts};

/// What goes out at a port of a run is what goes out there in its parts, one after the other, and so is what a mirror
/// copies. So the file of a port or of a mirror is the header once, and then the records of the parts.
pub fn files_of_parts_follow()
    ensures ports { OfParts (λ run journals cut. PortsFollow run journals cut) }
    ensures mirrors { OfParts (λ run journals cut. MirrorsFollow run journals cut) }
{}
