//! Calls that fail in writing what comes of a run.

/// How many calls of the shelf, the first ones, the run `WEB` makes in reading its three files.
pub const WEB_READING_CALLS: u64 = 12;

/// Calls of the shelf that fail in the run `FORWARDED`, and what is left then.
///
/// Reading takes the calls 1 to 8, and the file of port 1 those from 9 to 11. That of port 2, in which a record is
/// written in one call, takes those from 12 to 15. In the dumps of rules and megaflows a line is written in one call; in
/// the journal that of a port is, and then all of its steps.
pub const UNWRITTEN: &str = "\
shows where the first file isn't created, there is none
fails 9
status 6
prints write fault: out.p1.pcap
whole 0

shows a failed write leaves the files before whole
fails 13
status 6
prints write fault: out.p2.pcap
whole 1
in_use out.p2.pcap

shows a failed write of rules leaves the files of the ports whole
fails 17
status 6
prints write fault: out.rules
whole 2
in_use out.rules

shows where the dump of megaflows isn't created, the rules are the last file
fails 19
status 6
prints write fault: out.megaflows
whole 3

shows a failed write of megaflows leaves the rules whole
fails 20
status 6
prints write fault: out.megaflows
whole 3
in_use out.megaflows

shows a failed write of the journal leaves a prefix of it
fails 26
status 6
prints write fault: out.journal
whole 4
in_use out.journal port 1|begin 1|end|look 1 miss|settle 1 1 installed 1|port 2";

/// The same in the run `MIRRORED_FLOW`. Reading takes the calls 1 to 12, and the five files that come
/// first those up to 34. The flows, one datagram, take those from 35 to 37.
pub const UNWRITTEN_OUTLETS: &str = "\
shows where the file of flows isn't created, the journal is the last file
fails 35
status 6
prints write fault: out.netflow
whole 5

shows a failed write of flows leaves the journal whole
fails 36
status 6
prints write fault: out.netflow
whole 5
in_use out.netflow

shows where the file of a mirror isn't created, the flows are the last file
fails 38
status 6
prints write fault: out.m1.pcap
whole 6

shows a failed write of copies leaves the flows whole
fails 39
status 6
prints write fault: out.m1.pcap
whole 6
in_use out.m1.pcap";
