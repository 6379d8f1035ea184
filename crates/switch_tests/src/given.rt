//! Runs with given steps.

/// Given steps, and what is left of the run after them.
pub const GIVEN: &str = "\
shows a settle by a version before the sweep is stale
words --steps steps edits out 1=a.pcap 2= 3=
edits in_port=1,actions=2
edits modify in_port=1,actions=3
steps edit|rx 1|snap 1 1|edit|sweep 1|swept 1|settle 1 1|snap 1 1|settle 1 1
trace a.pcap 1
prints ports=3 frames=1 edits=2 blocks=1|exact=0 mega=0 miss=1
prints installed=1 present=0 full=0|sent=1 dropped=0 entries=1|steps=9 unmet=1
sent 1
sent 2
sent 3 1
rules cookie=0x0, table=0, n_packets=1, n_bytes=60, priority=32768,in_port=1 actions=output:3 # rule=1
megaflows port=1 entry=1 version=2 packets=0 bytes=0 owed_packets=0 owed_bytes=0 used=1.000000000 visits=1 \
    match=in_port=1,dl_type=0x88b5 actions=3
journal port 1|look 1 miss|begin 2|end|settle 1 2 installed 1
journal port 2|begin 2|end
journal port 3|begin 2|end

shows an entry is put while frames go on, and owes what came after
words --steps steps edits out 1=a.pcap 2= 3=
edits in_port=1,actions=2
edits modify in_port=1,actions=3
steps edit|rx 1|snap 1 1|settle 1 1|edit|rx 1|sweep 1|check 1 1|put 1 1|swept 1|rx 1
trace a.pcap 1 2 3
prints ports=3 frames=3 edits=2 blocks=1|exact=1 mega=1 miss=1
prints installed=1 present=0 full=0|sent=3 dropped=0 entries=1|steps=11 unmet=0
sent 1
sent 2 1 2
sent 3 3
rules cookie=0x0, table=0, n_packets=3, n_bytes=180, priority=32768,in_port=1 actions=output:3 # rule=1
megaflows port=1 entry=1 version=2 packets=2 bytes=120 owed_packets=1 owed_bytes=60 used=3.000000000 visits=1 \
    match=in_port=1,dl_type=0x88b5 actions=3
journal port 1|look 1 miss|settle 1 1 installed 1|look 2 mega 1|begin 2|put 1 2 replaced|end|look 3 exact 1
journal port 2|begin 2|end
journal port 3|begin 2|end

shows a bundle is published at once, and its rules have the numbers of their edits
words --steps steps edits out 1=a.pcap 2= 3=
edits in_port=1,actions=2
edits begin
edits delete in_port=1
edits in_port=1,actions=3
edits commit
steps edit|rx 1|snap 1 1|settle 1 1|edit|sweep 1|check 1 1|put 1 1|swept 1|rx 1
trace a.pcap 1 2
prints ports=3 frames=2 edits=3 blocks=1|exact=0 mega=1 miss=1
prints installed=1 present=0 full=0|sent=2 dropped=0 entries=1|steps=10 unmet=0
sent 1
sent 2 1
sent 3 2
rules cookie=0x0, table=0, n_packets=1, n_bytes=60, priority=32768,in_port=1 actions=output:3 # rule=3
rules # gone rule=1 n_packets=1 n_bytes=60
megaflows port=1 entry=1 version=2 packets=1 bytes=60 owed_packets=1 owed_bytes=60 used=2.000000000 visits=3 \
    match=in_port=1,dl_type=0x88b5 actions=3
journal port 1|look 1 miss|settle 1 1 installed 1|begin 2|put 1 2 replaced|end|look 2 mega 1
journal port 2|begin 2|end
journal port 3|begin 2|end

shows an entry is kept, and dropped by a wider one
words --steps steps edits out 1=a.pcap 2= 3=
edits priority=1,actions=2
edits priority=10,dl_dst=00:00:00:00:00:09,actions=3
edits delete_strict priority=10,dl_dst=00:00:00:00:00:09
steps edit|edit|rx 1|snap 1 1|settle 1 1|edit|sweep 1|check 1 1|put 1 1|swept 1|rx 1|rx 1|snap 1 3|settle 1 3
trace a.pcap 1>2 2>2 3>6
prints ports=3 frames=3 edits=3 blocks=1|exact=0 mega=1 miss=2
prints installed=2 present=0 full=0|sent=3 dropped=0 entries=1|steps=14 unmet=0
sent 1
sent 2 1>2 2>2 3>6
sent 3
rules cookie=0x0, table=0, n_packets=3, n_bytes=180, priority=1 actions=output:2 # rule=1
rules # gone rule=2 n_packets=0 n_bytes=0
megaflows port=1 entry=2 version=3 packets=0 bytes=0 owed_packets=0 owed_bytes=0 used=3.000000000 visits=1 \
    match=in_port=1,dl_type=0x88b5 actions=2
journal port 1|look 1 miss|settle 1 2 installed 1|begin 3|put 1 3 kept|end|look 2 mega 1|look 3 miss|\
    settle 3 3 installed 2 drop 1
journal port 2|begin 3|end
journal port 3|begin 3|end

shows a frame whose entry was installed meanwhile settles as present
words --steps steps edits out 1=a.pcap 2=
edits in_port=1,actions=2
steps edit|rx 1|rx 1|snap 1 1|snap 1 2|settle 1 1|settle 1 2
trace a.pcap 1 2
prints ports=2 frames=2 edits=1 blocks=1|exact=0 mega=0 miss=2
prints installed=1 present=1 full=0|sent=2 dropped=0 entries=1|steps=7 unmet=0
sent 1
sent 2 1 2
rules cookie=0x0, table=0, n_packets=2, n_bytes=120, priority=32768,in_port=1 actions=output:2 # rule=1
megaflows port=1 entry=1 version=1 packets=0 bytes=0 owed_packets=0 owed_bytes=0 used=1.000000000 visits=1 \
    match=in_port=1,dl_type=0x88b5 actions=2
journal port 1|look 1 miss|look 2 miss|settle 1 1 installed 1|settle 2 1 present 1|begin 1|put 1 1 kept|end
journal port 2|begin 1|end

shows an entry that stood unused for nineteen seconds is idle
words --steps steps edits out 1=a.pcap 2=
edits in_port=1,dl_dst=00:00:00:00:00:02,actions=2
steps edit|rx 1|snap 1 1|settle 1 1|rx 1|sweep 1|check 1 1|put 1 1|swept 1
trace a.pcap 1>2 20>6
prints ports=2 frames=2 edits=1 blocks=1|exact=0 mega=0 miss=2
prints installed=2 present=0 full=0|sent=1 dropped=1 entries=1|steps=9 unmet=0
sent 1
sent 2 1>2
rules cookie=0x0, table=0, n_packets=1, n_bytes=60, priority=32768,in_port=1,dl_dst=00:00:00:00:00:02 \
    actions=output:2 # rule=1
megaflows port=1 entry=2 version=1 packets=0 bytes=0 owed_packets=0 owed_bytes=0 used=20.000000000 visits=- \
    match=in_port=1,dl_dst=00:00:00:00:00:06,dl_type=0x88b5 actions=drop
journal port 1|look 1 miss|settle 1 1 installed 1|look 2 miss|begin 1|put 1 1 idle|end|settle 2 1 installed 2
journal port 2|begin 1|end

shows an entry whose mask lacks what is consulted now is removed
words --steps steps edits out 1=a.pcap 2= 3=
edits priority=1,actions=2
edits priority=5,dl_dst=00:00:00:00:00:09,actions=3
steps edit|rx 1|snap 1 1|settle 1 1|edit|sweep 1|check 1 1|put 1 1|swept 1
trace a.pcap 1
prints ports=3 frames=1 edits=2 blocks=1|exact=0 mega=0 miss=1
prints installed=1 present=0 full=0|sent=1 dropped=0 entries=0|steps=9 unmet=0
sent 1
sent 2 1
sent 3
rules cookie=0x0, table=0, n_packets=0, n_bytes=0, priority=5,dl_dst=00:00:00:00:00:09 actions=output:3 # rule=2
rules cookie=0x0, table=0, n_packets=1, n_bytes=60, priority=1 actions=output:2 # rule=1
journal port 1|look 1 miss|settle 1 1 installed 1|begin 2|put 1 2 removed|end
journal port 2|begin 2|end
journal port 3|begin 2|end

shows a port goes on to a later block than another
words --steps steps edits out 1=a.pcap 2= 3=
edits in_port=1,actions=2
edits sync 2
edits modify in_port=1,actions=3
steps edit|rx 1|snap 1 1|settle 1 1|sweep 1|check 1 1|put 1 1|swept 1|open 1|edit|rx 1
trace a.pcap 1 2
prints ports=3 frames=2 edits=2 blocks=2|exact=0 mega=1 miss=1
prints installed=1 present=0 full=0|sent=2 dropped=0 entries=1|steps=11 unmet=1
sent 1
sent 2 1 2
sent 3
rules cookie=0x0, table=0, n_packets=2, n_bytes=120, priority=32768,in_port=1 actions=output:3 # rule=1
megaflows port=1 entry=1 version=2 packets=1 bytes=60 owed_packets=0 owed_bytes=0 used=2.000000000 visits=1 \
    match=in_port=1,dl_type=0x88b5 actions=3
journal port 1|look 1 miss|settle 1 1 installed 1|begin 1|put 1 1 kept|end|open 1|look 2 mega 1|begin 2|\
    put 1 2 replaced|end
journal port 2|begin 1|end|open 1|begin 2|end
journal port 3|begin 1|end|open 1|begin 2|end

shows blank lines and comments are no steps, and none are needed
words --steps steps edits out 1=a.pcap 2=
edits in_port=1,actions=2
steps # none||  edit # one||rx   1#2
trace a.pcap 1
prints ports=2 frames=1 edits=1 blocks=1|exact=0 mega=0 miss=1
prints installed=1 present=0 full=0|sent=1 dropped=0 entries=1|steps=2 unmet=0
sent 1
sent 2 1
rules cookie=0x0, table=0, n_packets=1, n_bytes=60, priority=32768,in_port=1 actions=output:2 # rule=1
megaflows port=1 entry=1 version=1 packets=0 bytes=0 owed_packets=0 owed_bytes=0 used=1.000000000 visits=1 \
    match=in_port=1,dl_type=0x88b5 actions=2
journal port 1|look 1 miss|settle 1 1 installed 1|begin 1|put 1 1 kept|end
journal port 2|begin 1|end

shows a file without steps is told as such
words --steps steps edits out 1=a.pcap 2=
edits in_port=1,actions=2
trace a.pcap 1
prints ports=2 frames=1 edits=1 blocks=1|exact=0 mega=0 miss=1
prints installed=1 present=0 full=0|sent=1 dropped=0 entries=1|steps=0 unmet=0
sent 1
sent 2 1
rules cookie=0x0, table=0, n_packets=1, n_bytes=60, priority=32768,in_port=1 actions=output:2 # rule=1
megaflows port=1 entry=1 version=1 packets=0 bytes=0 owed_packets=0 owed_bytes=0 used=1.000000000 visits=1 \
    match=in_port=1,dl_type=0x88b5 actions=2
journal port 1|begin 1|end|look 1 miss|settle 1 1 installed 1
journal port 2|begin 1|end

shows steps of places and entries that are none change nothing
words --steps steps edits out 1=a.pcap 2=
edits in_port=1,actions=2
steps snap 1 4294967295|settle 1 1|check 2 1|put 2 4294967295|swept 1|open 2
trace a.pcap 1
prints ports=2 frames=1 edits=1 blocks=1|exact=0 mega=0 miss=1
prints installed=1 present=0 full=0|sent=1 dropped=0 entries=1|steps=6 unmet=6
sent 1
sent 2 1
rules cookie=0x0, table=0, n_packets=1, n_bytes=60, priority=32768,in_port=1 actions=output:2 # rule=1
megaflows port=1 entry=1 version=1 packets=0 bytes=0 owed_packets=0 owed_bytes=0 used=1.000000000 visits=1 \
    match=in_port=1,dl_type=0x88b5 actions=2
journal port 1|begin 1|end|look 1 miss|settle 1 1 installed 1
journal port 2|begin 1|end";
