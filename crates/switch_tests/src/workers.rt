//! Runs whose edits stand apart from their frames: with workers too they send the same, and count the same for rules.

/// Runs as they end without workers. Those that workers decide have the same files of ports and of rules.
pub const BY_WORKERS: &str = "\
shows through three tables each port sends to the other, once or twice, or drops
words edits out 1=a.pcap 2=b.pcap
edits table=0,in_port=1,actions=load:2->reg0[],goto_table:1
edits table=0,in_port=2,actions=load:1->reg0[],resubmit(,1)
edits table=1,dl_dst=00:00:00:00:00:03,actions=resubmit(,2),goto_table:2
edits table=1,priority=1,actions=goto_table:2
edits table=2,dl_dst=00:00:00:00:00:04,actions=drop
edits table=2,priority=1,actions=output:reg0[0..15]
edits sync 0
trace a.pcap 1>2 2>3 3>2 4>4 5>2 6>3
trace b.pcap 1>2 2>3 3>3 4>2 5>4
prints ports=2 frames=11 edits=6 blocks=2|exact=1 mega=4 miss=6
prints installed=6 present=0 full=0|sent=13 dropped=2 entries=6
sent 1 1>2 2>3 2>3 3>3 3>3 4>2
sent 2 1>2 2>3 2>3 3>2 5>2 6>3 6>3
rules cookie=0x0, table=0, n_packets=6, n_bytes=360, priority=32768,in_port=1 \
    actions=set_field:0x2->reg0,goto_table:1 # rule=1
rules cookie=0x0, table=0, n_packets=5, n_bytes=300, priority=32768,in_port=2 \
    actions=set_field:0x1->reg0,resubmit(,1) # rule=2
rules cookie=0x0, table=1, n_packets=4, n_bytes=240, priority=32768,dl_dst=00:00:00:00:00:03 \
    actions=resubmit(,2),goto_table:2 # rule=3
rules cookie=0x0, table=1, n_packets=7, n_bytes=420, priority=1 actions=goto_table:2 # rule=4
rules cookie=0x0, table=2, n_packets=2, n_bytes=120, priority=32768,dl_dst=00:00:00:00:00:04 actions=drop # rule=5
rules cookie=0x0, table=2, n_packets=13, n_bytes=780, priority=1 actions=output:reg0[0..15] # rule=6
megaflows port=1 entry=1 version=6 packets=2 bytes=120 owed_packets=2 owed_bytes=120 used=5.000000000 visits=1+4+6 \
    match=in_port=1,dl_dst=00:00:00:00:00:02,dl_type=0x88b5 actions=2
megaflows port=1 entry=2 version=6 packets=1 bytes=60 owed_packets=1 owed_bytes=60 used=6.000000000 visits=1+3+6x2 \
    match=in_port=1,dl_dst=00:00:00:00:00:03,dl_type=0x88b5 actions=2,2
megaflows port=1 entry=3 version=6 packets=0 bytes=0 owed_packets=0 owed_bytes=0 used=4.000000000 visits=1+4+5 \
    match=in_port=1,dl_dst=00:00:00:00:00:04,dl_type=0x88b5 actions=drop
megaflows port=2 entry=1 version=6 packets=1 bytes=60 owed_packets=1 owed_bytes=60 used=4.000000000 visits=2+4+6 \
    match=in_port=2,dl_dst=00:00:00:00:00:02,dl_type=0x88b5 actions=1
megaflows port=2 entry=2 version=6 packets=1 bytes=60 owed_packets=1 owed_bytes=60 used=3.000000000 visits=2+3+6x2 \
    match=in_port=2,dl_dst=00:00:00:00:00:03,dl_type=0x88b5 actions=1,1
megaflows port=2 entry=3 version=6 packets=0 bytes=0 owed_packets=0 owed_bytes=0 used=5.000000000 visits=2+4+5 \
    match=in_port=2,dl_dst=00:00:00:00:00:04,dl_type=0x88b5 actions=drop
journal port 1|begin 6|end|open 1|look 1 miss|settle 1 6 installed 1|look 2 miss|settle 2 6 installed 2|\
    look 3 mega 1|look 4 miss|settle 4 6 installed 3|look 5 exact 1|look 6 mega 2
journal port 2|begin 6|end|open 1|look 1 miss|settle 1 6 installed 1|look 2 miss|settle 2 6 installed 2|\
    look 3 mega 2|look 4 mega 1|look 5 miss|settle 5 6 installed 3";
