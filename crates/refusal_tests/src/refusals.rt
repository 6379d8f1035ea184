//! Runs that are refused, by their files or since reading fails.

/// What runs have beside faulty edits.
pub const WITH_EDITS: &str = "\
trace a.pcap 1
opened edits
status 3";

/// Files of edits that are refused.
pub const EDITS_FAULTS: &str = "\
shows a prefix that is too long
edits ip,nw_dst=10.0.0.0/33,actions=2
prints edits:1:11: bad value

shows an octet with a leading zero
edits ip,nw_src=010.0.0.1,actions=2
prints edits:1:11: bad value

shows a number that doesn't fit
edits reg0=0x1ffffffff,actions=2
prints edits:1:6: bad value

shows a table that isn't one
edits table=255,actions=2
prints edits:1:7: bad value

shows a bracket that isn't closed
edits actions=resubmit(,1
prints edits:1:9: syntax

shows a byte that isn't ASCII
edits \u{80}
prints edits:1:1: syntax

shows an action that is left out
edits in_port=1,actions=normal
prints edits:1:19: unsupported

shows an action with arguments that is left out
edits actions=ct(commit),2
prints edits:1:9: unsupported

shows a port that no switch has
edits in_port=0,actions=2
prints edits:1:9: bad value

shows a word that is no field
edits foo=1,actions=2
prints edits:1:1: unknown name

shows a flow without actions
edits in_port=1
prints edits:1:10: syntax

shows a field that stands twice
edits in_port=1,in_port=1,actions=2
prints edits:1:11: repeated

shows sync times that fall
edits sync 2
edits sync 1
prints edits:2:1: sync order

shows a sync line in a bundle
edits begin
edits sync 1
prints edits:2:1: syntax

shows a bundle that is left open
edits begin
prints edits:1:1: syntax

shows the end of a bundle that wasn't begun
edits commit
prints edits:1:1: syntax

shows 65 actions
status 7
edits actions=1,1,1,1,1,1,1,1,1,1,1,1,1,1,1,1,1,1,1,1,1,1,1,1,1,1,1,1,1,1,1,1,1,1,1,1,1,1,1,1,1,1,1,1,1,1,1,1,1,1,\
    1,1,1,1,1,1,1,1,1,1,1,1,1,1,1
prints limit: actions 64

shows the first faulty line decides
edits actions=2
edits actions=foo
edits actions
prints edits:2:9: unknown name";

/// What runs have beside a faulty steps file.
pub const WITH_STEPS: &str = "\
words --steps steps edits out 1=a.pcap 2=
edits in_port=1,actions=2
trace a.pcap 1
opened edits steps
status 3";

/// Steps files that are refused, at a switch with the ports 1 and 2.
pub const STEPS_FAULTS: &str = "\
shows a port that the switch hasn't
steps rx 9
prints steps:1:4: bad value

shows a word that is no step
steps edit
steps sync 1
prints steps:2:1: unknown name

shows a step without its port
steps |  rx # 1
prints steps:2:3: syntax

shows a step with a word too many
steps edit 1
prints steps:1:1: syntax

shows the number of words is tested before the values
steps snap 0
prints steps:1:1: syntax

shows a place with a leading zero
steps snap 2 01
prints steps:1:8: bad value

shows an entry above 32 bits
steps put 1 4294967296
prints steps:1:7: bad value

shows the first faulty line decides
steps edit
steps open
steps foo
prints steps:2:1: syntax";

/// What runs have beside a faulty mirrors file.
pub const WITH_MIRRORS: &str = "\
words --mirrors mirrors edits out 1=a.pcap 2=
edits in_port=1,actions=2
trace a.pcap 1
opened edits mirrors
status 3";

/// Mirrors files that are refused, at a switch with the ports 1 and 2.
pub const MIRROR_FAULTS: &str = "\
shows a mirror of a port that the switch hasn't
mirrors select_src_port=9
prints mirrors:1:17: bad value

shows a word that selects nothing
mirrors select_all
mirrors select_vlan=5
prints mirrors:2:1: unknown name

shows a selection without its port
mirrors select_all,select_dst_port
prints mirrors:1:12: syntax

shows a port for what selects all
mirrors select_all=1
prints mirrors:1:1: syntax

shows a byte that isn't ASCII
mirrors select_all é
prints mirrors:1:12: syntax

shows a port that is selected twice
mirrors select_dst_port=2,select_src_port=2,select_dst_port=2
prints mirrors:1:37: repeated

shows all that is selected twice
mirrors select_all select_all
prints mirrors:1:12: repeated

shows 17 mirrors
status 7
mirrors select_all|select_all|select_all|select_all|select_all|select_all|select_all|select_all|select_all|\
    select_all|select_all|select_all|select_all|select_all|select_all|select_all|select_all
prints limit: mirrors 16

shows the items of a 17th mirror aren't looked at
status 7
mirrors select_all|select_all|select_all|select_all|select_all|select_all|select_all|select_all|select_all|\
    select_all|select_all|select_all|select_all|select_all|select_all|select_all|select
prints limit: mirrors 16

shows the first faulty mirror decides
mirrors select_all
mirrors select_src_port=3
mirrors select
prints mirrors:2:17: bad value";

/// What runs have beside a faulty trace.
pub const WITH_TRACE: &str = "\
edits in_port=1,actions=2
opened edits a.pcap
status 4";

/// Traces that are refused. The magic is that of pcapng, and the link type LINKTYPE_RAW.
pub const TRACE_FAULTS: &str = "\
shows a header cut short
trace a.pcap -1
prints a.pcap: short header

shows another magic
trace a.pcap 1 @0:0a0d0d0a
prints a.pcap: magic

shows another version
trace a.pcap 1 @4:03
prints a.pcap: version 3.4

shows another minor version
trace a.pcap 1 @6:03
prints a.pcap: version 2.3

shows another link type
trace a.pcap 1 @20:65
prints a.pcap: link type 101

shows a first record cut short
trace a.pcap 1 -1
prints a.pcap: short record at 24

shows a second record cut short
trace a.pcap 1 2 -1
prints a.pcap: short record at 100

shows 262,145 captured bytes
trace a.pcap 1 @32:01000400
prints a.pcap: too long at 24

shows as many captured bytes as a number can say
trace a.pcap 1 @32:ffffffff
prints a.pcap: too long at 24

shows 1,000,000 microseconds
trace a.pcap 1 @28:40420f00
prints a.pcap: fraction at 24";

/// Runs that show which refusal comes first, and what is opened then. The edits are read by the calls 1 to 4 of the
/// shelf, and what comes next by those from 5 to 8. Of two faulty traces one has no whole header, and the other another
/// magic.
pub const REFUSED: &str = "\
shows faulty edits come before faulty steps
words --steps steps edits out 1=a.pcap 2=
edits actions
steps rx 9
trace a.pcap 1
opened edits
status 3
prints edits:1:1: syntax

shows faulty steps come before a trace with a fault
words --steps steps edits out 1=a.pcap 2=
edits in_port=1,actions=2
steps rx 9
trace a.pcap -1
trace b.pcap =070707070707070707070707070707070707070707070707
opened edits steps
status 3
prints steps:1:4: bad value

shows a trace with a fault comes after good steps
words --steps steps edits out 1=a.pcap 2=
edits in_port=1,actions=2
steps edit
trace a.pcap -1
trace b.pcap =070707070707070707070707070707070707070707070707
opened edits steps a.pcap
status 4
prints a.pcap: short header

shows the first faulty trace in the order of the words decides
words edits out 1=a.pcap 2=b.pcap
edits in_port=1,actions=2
trace a.pcap -1
trace b.pcap =070707070707070707070707070707070707070707070707
opened edits a.pcap
status 4
prints a.pcap: short header

shows and so in the other order
words edits out 2=b.pcap 1=a.pcap
edits in_port=1,actions=2
trace a.pcap -1
trace b.pcap =070707070707070707070707070707070707070707070707
opened edits b.pcap
status 4
prints b.pcap: magic

shows edits that aren't there
words missing out 1=a.pcap
edits in_port=1,actions=2
trace a.pcap 1
opened missing
status 5
prints read fault: missing

shows a steps file that isn't there
words --steps missing edits out 1=a.pcap
edits in_port=1,actions=2
trace a.pcap 1
opened edits missing
status 5
prints read fault: missing

shows a trace that isn't there
words edits out 1=a.pcap 2=missing
edits in_port=1,actions=2
trace a.pcap 1
opened edits a.pcap missing
status 5
prints read fault: missing

shows a failed read of edits
edits in_port=1,actions=2
trace a.pcap 1
fails 2
opened edits
status 5
prints read fault: edits

shows a failed read of a steps file
words --steps steps edits out 1=a.pcap 2=
edits in_port=1,actions=2
steps edit
trace a.pcap 1
fails 6
opened edits steps
status 5
prints read fault: steps

shows a failed read at the end of a trace
edits in_port=1,actions=2
trace a.pcap 1
fails 7
opened edits a.pcap
status 5
prints read fault: a.pcap

shows faulty steps come before faulty mirrors
words --steps steps --mirrors mirrors edits out 1=a.pcap 2=
edits in_port=1,actions=2
steps rx 9
mirrors select_src_port=9
trace a.pcap 1
opened edits steps
status 3
prints steps:1:4: bad value

shows faulty mirrors come after good steps and before a trace with a fault
words --steps steps --mirrors mirrors edits out 1=a.pcap 2=
edits in_port=1,actions=2
steps edit
mirrors select_src_port=9
trace a.pcap -1
trace b.pcap =070707070707070707070707070707070707070707070707
opened edits steps mirrors
status 3
prints mirrors:1:17: bad value

shows a mirrors file that isn't there
words --mirrors missing edits out 1=a.pcap
edits in_port=1,actions=2
trace a.pcap 1
opened edits missing
status 5
prints read fault: missing

shows a failed read of a mirrors file
words --mirrors mirrors edits out 1=a.pcap 2=
edits in_port=1,actions=2
mirrors select_all
trace a.pcap 1
fails 6
opened edits mirrors
status 5
prints read fault: mirrors";
