//! Runs that show which frames leave, when and where.

/// Which frames leave, when and where. The known run `FORWARDED` is one more.
pub const SENDING: &str = "\
shows without rules every frame is dropped
trace a.pcap 1
prints ports=2 frames=1 edits=0 blocks=1|exact=0 mega=0 miss=1
prints installed=1 present=0 full=0|sent=0 dropped=1 entries=1
sent 1
sent 2
megaflows port=1 entry=1 version=0 packets=0 bytes=0 owed_packets=0 owed_bytes=0 used=1.000000000 visits=- \
    match=in_port=1,dl_type=0x88b5 actions=drop
journal port 1|look 1 miss|settle 1 0 installed 1
journal port 2

shows a trace without frames gives files without frames
edits in_port=1,actions=2
trace a.pcap
prints ports=2 frames=0 edits=1 blocks=1|exact=0 mega=0 miss=0
prints installed=0 present=0 full=0|sent=0 dropped=0 entries=0
sent 1
sent 2
rules cookie=0x0, table=0, n_packets=0, n_bytes=0, priority=32768,in_port=1 actions=output:2 # rule=1
journal port 1|begin 1|end
journal port 2|begin 1|end

shows frames leave in the order of time
edits in_port=1,actions=2
trace a.pcap 3 1 2
prints ports=2 frames=3 edits=1 blocks=1|exact=1 mega=1 miss=1
prints installed=1 present=0 full=0|sent=3 dropped=0 entries=1
sent 1
sent 2 1 2 3
rules cookie=0x0, table=0, n_packets=3, n_bytes=180, priority=32768,in_port=1 actions=output:2 # rule=1
megaflows port=1 entry=1 version=1 packets=2 bytes=120 owed_packets=2 owed_bytes=120 used=2.000000000 visits=1 \
    match=in_port=1,dl_type=0x88b5 actions=2
journal port 1|begin 1|end|look 1 miss|settle 1 1 installed 1|look 2 mega 1|look 3 exact 1
journal port 2|begin 1|end

shows a frame after a sync point meets the edits before it
words edits out 1=a.pcap 2= 3=
edits in_port=1,actions=2
edits sync 2
edits priority=40000,in_port=1,actions=3
trace a.pcap 1 2
prints ports=3 frames=2 edits=2 blocks=2|exact=0 mega=1 miss=1
prints installed=1 present=0 full=0|sent=2 dropped=0 entries=1
sent 1
sent 2 1
sent 3 2
rules cookie=0x0, table=0, n_packets=1, n_bytes=60, priority=40000,in_port=1 actions=output:3 # rule=2
rules cookie=0x0, table=0, n_packets=1, n_bytes=60, priority=32768,in_port=1 actions=output:2 # rule=1
megaflows port=1 entry=1 version=2 packets=1 bytes=60 owed_packets=1 owed_bytes=60 used=2.000000000 visits=2 \
    match=in_port=1,dl_type=0x88b5 actions=3
journal port 1|begin 1|end|look 1 miss|settle 1 1 installed 1|open 1|begin 2|put 1 2 replaced|end|look 2 mega 1
journal port 2|begin 1|end|open 1|begin 2|end
journal port 3|begin 1|end|open 1|begin 2|end

shows flood sends a frame to each port but its own
words edits out 1=a.pcap 2= 3=
edits actions=flood
trace a.pcap 1
prints ports=3 frames=1 edits=1 blocks=1|exact=0 mega=0 miss=1
prints installed=1 present=0 full=0|sent=2 dropped=0 entries=1
sent 1
sent 2 1
sent 3 1
rules cookie=0x0, table=0, n_packets=1, n_bytes=60, priority=32768 actions=flood # rule=1
megaflows port=1 entry=1 version=1 packets=0 bytes=0 owed_packets=0 owed_bytes=0 used=1.000000000 visits=1 \
    match=in_port=1,dl_type=0x88b5 actions=2,3
journal port 1|begin 1|end|look 1 miss|settle 1 1 installed 1
journal port 2|begin 1|end
journal port 3|begin 1|end

shows each port has its own trace
words edits out 1=a.pcap 2=b.pcap
edits in_port=1,actions=2
edits in_port=2,actions=1
trace a.pcap 1 3
trace b.pcap 2
prints ports=2 frames=3 edits=2 blocks=1|exact=0 mega=1 miss=2
prints installed=2 present=0 full=0|sent=3 dropped=0 entries=2
sent 1 2
sent 2 1 3
rules cookie=0x0, table=0, n_packets=2, n_bytes=120, priority=32768,in_port=1 actions=output:2 # rule=1
rules cookie=0x0, table=0, n_packets=1, n_bytes=60, priority=32768,in_port=2 actions=output:1 # rule=2
megaflows port=1 entry=1 version=2 packets=1 bytes=60 owed_packets=1 owed_bytes=60 used=3.000000000 visits=1 \
    match=in_port=1,dl_type=0x88b5 actions=2
megaflows port=2 entry=1 version=2 packets=0 bytes=0 owed_packets=0 owed_bytes=0 used=2.000000000 visits=2 \
    match=in_port=2,dl_type=0x88b5 actions=1
journal port 1|begin 2|end|look 1 miss|settle 1 2 installed 1|look 2 mega 1
journal port 2|begin 2|end|look 1 miss|settle 1 2 installed 1

shows the greatest port has a file, and the last table rules
words edits out 65279=a.pcap
edits priority=65535,in_port=65279,actions=resubmit(,254)
edits table=254,priority=0,actions=in_port
trace a.pcap 1
prints ports=1 frames=1 edits=2 blocks=1|exact=0 mega=0 miss=1
prints installed=1 present=0 full=0|sent=1 dropped=0 entries=1
sent 65279 1
rules cookie=0x0, table=0, n_packets=1, n_bytes=60, priority=65535,in_port=65279 actions=resubmit(,254) # rule=1
rules cookie=0x0, table=254, n_packets=1, n_bytes=60, priority=0 actions=in_port # rule=2
megaflows port=65279 entry=1 version=2 packets=0 bytes=0 owed_packets=0 owed_bytes=0 used=1.000000000 visits=1+2 \
    match=in_port=65279,dl_type=0x88b5 actions=65279
journal port 65279|begin 2|end|look 1 miss|settle 1 2 installed 1";

/// In which unit the times of frames are written.
pub const IN_NANOSECONDS: &str = "\
shows big-endian nanoseconds leave in nanoseconds
edits in_port=1,actions=2
trace a.pcap =big_endian_nanos.00000001000000050000003c0000003c.to_2.unknown
prints ports=2 frames=1 edits=1 blocks=1|exact=0 mega=0 miss=1
prints installed=1 present=0 full=0|sent=1 dropped=0 entries=1
sent 1 =nanos
sent 2 =nanos.01000000050000003c0000003c000000.to_2.unknown
rules cookie=0x0, table=0, n_packets=1, n_bytes=60, priority=32768,in_port=1 actions=output:2 # rule=1
megaflows port=1 entry=1 version=1 packets=0 bytes=0 owed_packets=0 owed_bytes=0 used=1.000000005 visits=1 \
    match=in_port=1,dl_type=0x88b5 actions=2
journal port 1|begin 1|end|look 1 miss|settle 1 1 installed 1
journal port 2|begin 1|end

shows one trace in nanoseconds makes all files so, and 5 microseconds 5,000 nanoseconds
words edits out 1=a.pcap 2=b.pcap
edits in_port=1,actions=2
trace a.pcap =micros.01000000050000003c0000003c000000.to_2.unknown
trace b.pcap =nanos
prints ports=2 frames=1 edits=1 blocks=1|exact=0 mega=0 miss=1
prints installed=1 present=0 full=0|sent=1 dropped=0 entries=1
sent 1 =nanos
sent 2 =nanos.01000000881300003c0000003c000000.to_2.unknown
rules cookie=0x0, table=0, n_packets=1, n_bytes=60, priority=32768,in_port=1 actions=output:2 # rule=1
megaflows port=1 entry=1 version=1 packets=0 bytes=0 owed_packets=0 owed_bytes=0 used=1.000005000 visits=1 \
    match=in_port=1,dl_type=0x88b5 actions=2
journal port 1|begin 1|end|look 1 miss|settle 1 1 installed 1
journal port 2|begin 1|end";
