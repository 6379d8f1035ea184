//! Runs that show which rules are told, and how often each was met.

/// Which rules stand at the end of a run, and which are gone.
pub const RULES: &str = "\
shows a strict delete removes the rule that it names, which is told as gone, and no other
words edits out 1=a.pcap 2= 3=
edits priority=5,in_port=1,actions=2
edits priority=5,dl_dst=00:00:00:00:00:02,actions=3
edits sync 2
edits delete_strict priority=5,in_port=1
trace a.pcap 1 2
prints ports=3 frames=2 edits=3 blocks=2|exact=0 mega=1 miss=1
prints installed=1 present=0 full=0|sent=2 dropped=0 entries=1
sent 1
sent 2 1
sent 3 2
rules cookie=0x0, table=0, n_packets=1, n_bytes=60, priority=5,dl_dst=00:00:00:00:00:02 actions=output:3 # rule=2
rules # gone rule=1 n_packets=1 n_bytes=60
megaflows port=1 entry=1 version=3 packets=1 bytes=60 owed_packets=1 owed_bytes=60 used=2.000000000 visits=2 \
    match=in_port=1,dl_dst=00:00:00:00:00:02,dl_type=0x88b5 actions=3
journal port 1|begin 2|end|look 1 miss|settle 1 2 installed 1|open 1|begin 3|put 1 3 replaced|end|look 2 mega 1
journal port 2|begin 2|end|open 1|begin 3|end
journal port 3|begin 2|end|open 1|begin 3|end

shows rules stand by table, falling priority and number: replaced they are gone, modified they stay
edits table=1,priority=5,actions=2
edits priority=5,in_port=1,actions=resubmit(,1)
edits cookie=0x1F,priority=7,in_port=2,actions=
edits sync 2
edits priority=5,in_port=1,actions=resubmit(,1),resubmit(,1)
edits modify cookie=10,in_port=2,actions=1
edits delete_strict priority=9
edits priority=5,in_port=3,actions=in_port
trace a.pcap 1 2
prints ports=2 frames=2 edits=7 blocks=2|exact=0 mega=1 miss=1
prints installed=1 present=0 full=0|sent=3 dropped=0 entries=1
sent 1
sent 2 1 2 2
rules cookie=0xa, table=0, n_packets=0, n_bytes=0, priority=7,in_port=2 actions=output:1 # rule=3
rules cookie=0x0, table=0, n_packets=1, n_bytes=60, priority=5,in_port=1 actions=resubmit(,1),resubmit(,1) # rule=4
rules cookie=0x0, table=0, n_packets=0, n_bytes=0, priority=5,in_port=3 actions=in_port # rule=7
rules cookie=0x0, table=1, n_packets=3, n_bytes=180, priority=5 actions=output:2 # rule=1
rules # gone rule=2 n_packets=1 n_bytes=60
megaflows port=1 entry=1 version=7 packets=1 bytes=60 owed_packets=1 owed_bytes=60 used=2.000000000 visits=4+1x2 \
    match=in_port=1,dl_type=0x88b5 actions=2,2
journal port 1|begin 3|end|look 1 miss|settle 1 3 installed 1|open 1|begin 7|put 1 7 replaced|end|look 2 mega 1
journal port 2|begin 3|end|open 1|begin 7|end

shows an address without the Ethernet type that it needs is left out of the match
edits nw_src=10.0.0.1,actions=2
trace a.pcap 1
prints ports=2 frames=1 edits=1 blocks=1|exact=0 mega=0 miss=1
prints installed=1 present=0 full=0|sent=1 dropped=0 entries=1
sent 1
sent 2 1
rules cookie=0x0, table=0, n_packets=1, n_bytes=60, priority=32768 actions=output:2 # rule=1
megaflows port=1 entry=1 version=1 packets=0 bytes=0 owed_packets=0 owed_bytes=0 used=1.000000000 visits=1 \
    match=in_port=1,dl_type=0x88b5 actions=2
journal port 1|begin 1|end|look 1 miss|settle 1 1 installed 1
journal port 2|begin 1|end

shows a rule that looks itself up is counted 65 times, and sends nothing
edits actions=resubmit(,0)
trace a.pcap 1
prints ports=2 frames=1 edits=1 blocks=1|exact=0 mega=0 miss=1
prints installed=1 present=0 full=0|sent=0 dropped=1 entries=1
sent 1
sent 2
rules cookie=0x0, table=0, n_packets=65, n_bytes=3900, priority=32768 actions=resubmit(,0) # rule=1
megaflows port=1 entry=1 version=1 packets=0 bytes=0 owed_packets=0 owed_bytes=0 used=1.000000000 visits=1x65 \
    match=in_port=1,dl_type=0x88b5 actions=drop
journal port 1|begin 1|end|look 1 miss|settle 1 1 installed 1
journal port 2|begin 1|end";
