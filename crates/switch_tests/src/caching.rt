//! Runs that show what the caches of a port do: which frames they decide, and what sweeps make of their megaflows.

/// Runs whose frames meet megaflows.
pub const CACHING: &str = "\
shows an entry stands for each destination that was looked at
words edits out 1=a.pcap 2= 3=
edits in_port=1,dl_dst=00:00:00:00:00:02,actions=2
trace a.pcap 1>6 2>6 3>2
prints ports=3 frames=3 edits=1 blocks=1|exact=0 mega=1 miss=2
prints installed=2 present=0 full=0|sent=1 dropped=2 entries=2
sent 1
sent 2 3>2
sent 3
rules cookie=0x0, table=0, n_packets=1, n_bytes=60, priority=32768,in_port=1,dl_dst=00:00:00:00:00:02 \
    actions=output:2 # rule=1
megaflows port=1 entry=1 version=1 packets=1 bytes=60 owed_packets=1 owed_bytes=60 used=2.000000000 visits=- \
    match=in_port=1,dl_dst=00:00:00:00:00:06,dl_type=0x88b5 actions=drop
megaflows port=1 entry=2 version=1 packets=0 bytes=0 owed_packets=0 owed_bytes=0 used=3.000000000 visits=1 \
    match=in_port=1,dl_dst=00:00:00:00:00:02,dl_type=0x88b5 actions=2
journal port 1|begin 1|end|look 1 miss|settle 1 1 installed 1|look 2 mega 1|look 3 miss|settle 3 1 installed 2
journal port 2|begin 1|end
journal port 3|begin 1|end

shows a second hit is one of the exact-match cache
words edits out 1=a.pcap 2= 3=
edits in_port=1,actions=3
trace a.pcap 1>2 2>2 3>2 4>6 5>6
prints ports=3 frames=5 edits=1 blocks=1|exact=2 mega=2 miss=1
prints installed=1 present=0 full=0|sent=5 dropped=0 entries=1
sent 1
sent 2
sent 3 1>2 2>2 3>2 4>6 5>6
rules cookie=0x0, table=0, n_packets=5, n_bytes=300, priority=32768,in_port=1 actions=output:3 # rule=1
megaflows port=1 entry=1 version=1 packets=4 bytes=240 owed_packets=4 owed_bytes=240 used=5.000000000 visits=1 \
    match=in_port=1,dl_type=0x88b5 actions=3
journal port 1|begin 1|end|look 1 miss|settle 1 1 installed 1|look 2 mega 1|look 3 exact 1|look 4 mega 1|\
    look 5 exact 1
journal port 2|begin 1|end
journal port 3|begin 1|end

shows a flow limit of 1 keeps the first of three megaflows, and all frames are sent
words --flow-limit 1 edits out 1=a.pcap 2=
edits dl_dst=0:0:0:0:0:2,actions=2
edits priority=1,actions=2
trace a.pcap 1>2 2>3 3>4
prints ports=2 frames=3 edits=2 blocks=1|exact=0 mega=0 miss=3
prints installed=1 present=0 full=2|sent=3 dropped=0 entries=1
sent 1
sent 2 1>2 2>3 3>4
rules cookie=0x0, table=0, n_packets=1, n_bytes=60, priority=32768,dl_dst=00:00:00:00:00:02 actions=output:2 \
    # rule=1
rules cookie=0x0, table=0, n_packets=2, n_bytes=120, priority=1 actions=output:2 # rule=2
megaflows port=1 entry=1 version=2 packets=0 bytes=0 owed_packets=0 owed_bytes=0 used=1.000000000 visits=1 \
    match=in_port=1,dl_dst=00:00:00:00:00:02,dl_type=0x88b5 actions=2
journal port 1|begin 2|end|look 1 miss|settle 1 2 installed 1|look 2 miss|settle 2 2 full|look 3 miss|\
    settle 3 2 full
journal port 2|begin 2|end

shows a full cache takes no megaflow, and equal frames miss again
words --flow-limit 1 edits out 1=a.pcap 2=
edits in_port=1,dl_dst=00:00:00:00:00:02,actions=2
trace a.pcap 1>2 2>6 3>6
prints ports=2 frames=3 edits=1 blocks=1|exact=0 mega=0 miss=3
prints installed=1 present=0 full=2|sent=1 dropped=2 entries=1
sent 1
sent 2 1>2
rules cookie=0x0, table=0, n_packets=1, n_bytes=60, priority=32768,in_port=1,dl_dst=00:00:00:00:00:02 \
    actions=output:2 # rule=1
megaflows port=1 entry=1 version=1 packets=0 bytes=0 owed_packets=0 owed_bytes=0 used=1.000000000 visits=1 \
    match=in_port=1,dl_dst=00:00:00:00:00:02,dl_type=0x88b5 actions=2
journal port 1|begin 1|end|look 1 miss|settle 1 1 installed 1|look 2 miss|settle 2 1 full|look 3 miss|\
    settle 3 1 full
journal port 2|begin 1|end

shows a sweep replaces an entry, and the next one keeps it
words edits out 1=a.pcap 2= 3=
edits in_port=1,actions=2
edits sync 2
edits modify in_port=1,actions=drop
edits sync 20
edits priority=1,dl_dst=00:00:00:00:00:09,actions=2
trace a.pcap 1>2 3>2 21>2
prints ports=3 frames=3 edits=3 blocks=3|exact=1 mega=1 miss=1
prints installed=1 present=0 full=0|sent=1 dropped=2 entries=1
sent 1
sent 2 1>2
sent 3
rules cookie=0x0, table=0, n_packets=3, n_bytes=180, priority=32768,in_port=1 actions=drop # rule=1
rules cookie=0x0, table=0, n_packets=0, n_bytes=0, priority=1,dl_dst=00:00:00:00:00:09 actions=output:2 # rule=3
megaflows port=1 entry=1 version=3 packets=2 bytes=120 owed_packets=1 owed_bytes=60 used=21.000000000 visits=1 \
    match=in_port=1,dl_type=0x88b5 actions=drop
journal port 1|begin 1|end|look 1 miss|settle 1 1 installed 1|open 1|begin 2|put 1 2 replaced|end|look 2 mega 1|\
    open 2|begin 3|put 1 3 kept|end|look 3 exact 1
journal port 2|begin 1|end|open 1|begin 2|end|open 2|begin 3|end
journal port 3|begin 1|end|open 1|begin 2|end|open 2|begin 3|end

shows a sweep removes an entry whose mask lacks what is looked at now
words edits out 1=a.pcap 2= 3=
edits priority=1,actions=2
edits sync 2
edits priority=5,dl_dst=00:00:00:00:00:09,actions=3
trace a.pcap 1>2 2>9 3>2
prints ports=3 frames=3 edits=2 blocks=2|exact=0 mega=0 miss=3
prints installed=3 present=0 full=0|sent=3 dropped=0 entries=2
sent 1
sent 2 1>2 3>2
sent 3 2>9
rules cookie=0x0, table=0, n_packets=1, n_bytes=60, priority=5,dl_dst=00:00:00:00:00:09 actions=output:3 # rule=2
rules cookie=0x0, table=0, n_packets=2, n_bytes=120, priority=1 actions=output:2 # rule=1
megaflows port=1 entry=2 version=2 packets=0 bytes=0 owed_packets=0 owed_bytes=0 used=2.000000000 visits=2 \
    match=in_port=1,dl_dst=00:00:00:00:00:09,dl_type=0x88b5 actions=3
megaflows port=1 entry=3 version=2 packets=0 bytes=0 owed_packets=0 owed_bytes=0 used=3.000000000 visits=1 \
    match=in_port=1,dl_dst=00:00:00:00:00:02,dl_type=0x88b5 actions=2
journal port 1|begin 1|end|look 1 miss|settle 1 1 installed 1|open 1|begin 2|put 1 2 removed|end|look 2 miss|\
    settle 2 2 installed 2|look 3 miss|settle 3 2 installed 3
journal port 2|begin 1|end|open 1|begin 2|end
journal port 3|begin 1|end|open 1|begin 2|end

shows an entry that wasn't used for ten seconds is idle, and one that was used later isn't
words edits out 1=a.pcap 2= 3=
edits in_port=1,dl_dst=00:00:00:00:00:02,actions=2
edits sync 12
edits priority=1,in_port=1,actions=3
trace a.pcap 1>2 2>6 11>7 12>2
prints ports=3 frames=4 edits=2 blocks=2|exact=0 mega=0 miss=4
prints installed=4 present=0 full=0|sent=2 dropped=2 entries=3
sent 1
sent 2 1>2 12>2
sent 3
rules cookie=0x0, table=0, n_packets=2, n_bytes=120, priority=32768,in_port=1,dl_dst=00:00:00:00:00:02 \
    actions=output:2 # rule=1
rules cookie=0x0, table=0, n_packets=0, n_bytes=0, priority=1,in_port=1 actions=output:3 # rule=2
megaflows port=1 entry=2 version=2 packets=0 bytes=0 owed_packets=0 owed_bytes=0 used=2.000000000 visits=2 \
    match=in_port=1,dl_dst=00:00:00:00:00:06,dl_type=0x88b5 actions=3
megaflows port=1 entry=3 version=2 packets=0 bytes=0 owed_packets=0 owed_bytes=0 used=11.000000000 visits=2 \
    match=in_port=1,dl_dst=00:00:00:00:00:07,dl_type=0x88b5 actions=3
megaflows port=1 entry=4 version=2 packets=0 bytes=0 owed_packets=0 owed_bytes=0 used=12.000000000 visits=1 \
    match=in_port=1,dl_dst=00:00:00:00:00:02,dl_type=0x88b5 actions=2
journal port 1|begin 1|end|look 1 miss|settle 1 1 installed 1|look 2 miss|settle 2 1 installed 2|look 3 miss|\
    settle 3 1 installed 3|open 1|begin 2|put 1 2 idle|put 2 2 replaced|put 3 2 replaced|end|look 4 miss|\
    settle 4 2 installed 4
journal port 2|begin 1|end|open 1|begin 2|end
journal port 3|begin 1|end|open 1|begin 2|end

shows a wider entry drops the one that it overlaps
words edits out 1=a.pcap 2= 3=
edits priority=1,actions=2
edits priority=10,dl_dst=00:00:00:00:00:09,actions=3
edits sync 2
edits delete_strict priority=10,dl_dst=00:00:00:00:00:09
trace a.pcap 1>2 2>2 3>6 4>2
prints ports=3 frames=4 edits=3 blocks=2|exact=0 mega=2 miss=2
prints installed=2 present=0 full=0|sent=4 dropped=0 entries=1
sent 1
sent 2 1>2 2>2 3>6 4>2
sent 3
rules cookie=0x0, table=0, n_packets=4, n_bytes=240, priority=1 actions=output:2 # rule=1
rules # gone rule=2 n_packets=0 n_bytes=0
megaflows port=1 entry=2 version=3 packets=1 bytes=60 owed_packets=1 owed_bytes=60 used=4.000000000 visits=1 \
    match=in_port=1,dl_type=0x88b5 actions=2
journal port 1|begin 2|end|look 1 miss|settle 1 2 installed 1|open 1|begin 3|put 1 3 kept|end|look 2 mega 1|\
    look 3 miss|settle 3 3 installed 2 drop 1|look 4 mega 2
journal port 2|begin 2|end|open 1|begin 3|end
journal port 3|begin 2|end|open 1|begin 3|end";
