//! Given steps whose order an unlucky schedule of threads would have.

/// Given steps, and what is left of the run after them.
pub const SCHEDULES: &str = "\
shows an entry is checked twice, and put once
words --steps steps edits out 1=a.pcap 2= 3=
edits in_port=1,actions=2
edits modify in_port=1,actions=3
steps edit|rx 1|snap 1 1|settle 1 1|edit|sweep 1|check 1 1|check 1 1|put 1 1|put 1 1|swept 1
trace a.pcap 1
prints ports=3 frames=1 edits=2 blocks=1|exact=0 mega=0 miss=1
prints installed=1 present=0 full=0|sent=1 dropped=0 entries=1|steps=11 unmet=1
sent 1
sent 2 1
sent 3
rules cookie=0x0, table=0, n_packets=1, n_bytes=60, priority=32768,in_port=1 actions=output:3 # rule=1
megaflows port=1 entry=1 version=2 packets=0 bytes=0 owed_packets=0 owed_bytes=0 used=1.000000000 visits=1 \
    match=in_port=1,dl_type=0x88b5 actions=3
journal port 1|look 1 miss|settle 1 1 installed 1|begin 2|put 1 2 replaced|end
journal port 2|begin 2|end
journal port 3|begin 2|end

shows an entry is put by the version of its check, though rules changed since
words --steps steps edits out 1=a.pcap 2= 3=
edits in_port=1,actions=2
edits modify in_port=1,actions=3
steps edit|rx 1|snap 1 1|settle 1 1|sweep 1|check 1 1|edit|put 1 1|swept 1
trace a.pcap 1
prints ports=3 frames=1 edits=2 blocks=1|exact=0 mega=0 miss=1
prints installed=1 present=0 full=0|sent=1 dropped=0 entries=1|steps=9 unmet=0
sent 1
sent 2 1
sent 3
rules cookie=0x0, table=0, n_packets=1, n_bytes=60, priority=32768,in_port=1 actions=output:3 # rule=1
megaflows port=1 entry=1 version=2 packets=0 bytes=0 owed_packets=0 owed_bytes=0 used=1.000000000 visits=1 \
    match=in_port=1,dl_type=0x88b5 actions=3
journal port 1|look 1 miss|settle 1 1 installed 1|begin 1|put 1 1 kept|end|begin 2|put 1 2 replaced|end
journal port 2|begin 2|end
journal port 3|begin 2|end

shows an entry is dropped by a wider one before a sweep has put it
words --steps steps edits out 1=a.pcap 2=
edits priority=1,actions=2
edits priority=10,dl_dst=00:00:00:00:00:09,actions=3
edits delete_strict priority=10,dl_dst=00:00:00:00:00:09
steps edit|edit|rx 1|snap 1 1|settle 1 1|edit|sweep 1|rx 1|snap 1 2|settle 1 2|check 1 1|put 1 1|swept 1
trace a.pcap 1>2 2>6
prints ports=2 frames=2 edits=3 blocks=1|exact=0 mega=0 miss=2
prints installed=2 present=0 full=0|sent=2 dropped=0 entries=1|steps=13 unmet=2
sent 1
sent 2 1>2 2>6
rules cookie=0x0, table=0, n_packets=2, n_bytes=120, priority=1 actions=output:2 # rule=1
rules # gone rule=2 n_packets=0 n_bytes=0
megaflows port=1 entry=2 version=3 packets=0 bytes=0 owed_packets=0 owed_bytes=0 used=2.000000000 visits=1 \
    match=in_port=1,dl_type=0x88b5 actions=2
journal port 1|look 1 miss|settle 1 2 installed 1|begin 3|look 2 miss|settle 2 3 installed 2 drop 1|end
journal port 2|begin 3|end

shows an entry that is dropped doesn't count against the limit
words --flow-limit 1 --steps steps edits out 1=a.pcap 2=
edits priority=1,actions=2
edits priority=10,dl_dst=00:00:00:00:00:09,actions=3
edits delete_strict priority=10,dl_dst=00:00:00:00:00:09
steps edit|edit|rx 1|snap 1 1|settle 1 1|edit|sweep 1|check 1 1|put 1 1|swept 1|rx 1|rx 1|snap 1 3|settle 1 3
trace a.pcap 1>2 2>2 3>6
prints ports=2 frames=3 edits=3 blocks=1|exact=0 mega=1 miss=2
prints installed=2 present=0 full=0|sent=3 dropped=0 entries=1|steps=14 unmet=0
sent 1
sent 2 1>2 2>2 3>6
rules cookie=0x0, table=0, n_packets=3, n_bytes=180, priority=1 actions=output:2 # rule=1
rules # gone rule=2 n_packets=0 n_bytes=0
megaflows port=1 entry=2 version=3 packets=0 bytes=0 owed_packets=0 owed_bytes=0 used=3.000000000 visits=1 \
    match=in_port=1,dl_type=0x88b5 actions=2
journal port 1|look 1 miss|settle 1 2 installed 1|begin 3|put 1 3 kept|end|look 2 mega 1|look 3 miss|\
    settle 3 3 installed 2 drop 1
journal port 2|begin 3|end";
