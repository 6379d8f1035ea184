//! Runs that show how frames are rewritten.

/// Runs that rewrite frames.
pub const REWRITES: &str = "\
shows a source address is written, its checksum follows, and UDP without a checksum stays so
edits in_port=1,actions=mod_nw_src:10.0.0.9,2
trace a.pcap 1:to_2.ipv4.ttl_64.udp
prints ports=2 frames=1 edits=1 blocks=1|exact=0 mega=0 miss=1
prints installed=1 present=0 full=0|sent=1 dropped=0 entries=1
sent 1
sent 2 1:to_2.ipv4.from_9.udp
rules cookie=0x0, table=0, n_packets=1, n_bytes=42, priority=32768,in_port=1 \
    actions=set_field:10.0.0.9->nw_src,output:2 # rule=1
megaflows port=1 entry=1 version=1 packets=0 bytes=0 owed_packets=0 owed_bytes=0 used=1.000000000 visits=1 \
    match=in_port=1,dl_type=0x0800,nw_src=10.0.0.1,ip_frag=no actions=set(nw_src=0.0.0.8/0.0.0.8),2
journal port 1|begin 1|end|look 1 miss|settle 1 1 installed 1
journal port 2|begin 1|end

shows a TTL is lowered, and its checksum follows
edits in_port=1,actions=dec_ttl,2
trace a.pcap 1:to_2.ipv4.ttl_64.udp
prints ports=2 frames=1 edits=1 blocks=1|exact=0 mega=0 miss=1
prints installed=1 present=0 full=0|sent=1 dropped=0 entries=1
sent 1
sent 2 1:to_2.ipv4.ttl_63.udp
rules cookie=0x0, table=0, n_packets=1, n_bytes=42, priority=32768,in_port=1 actions=dec_ttl,output:2 # rule=1
megaflows port=1 entry=1 version=1 packets=0 bytes=0 owed_packets=0 owed_bytes=0 used=1.000000000 visits=1 \
    match=in_port=1,dl_type=0x0800,nw_ttl=64,ip_frag=no actions=set(nw_ttl=0x3f/0x7f),2
journal port 1|begin 1|end|look 1 miss|settle 1 1 installed 1
journal port 2|begin 1|end

shows a TTL of 1 ends the actions after it, and not those before
words edits out 1=a.pcap 2= 3=
edits in_port=1,actions=2,dec_ttl,3
trace a.pcap 1:to_2.ipv4.ttl_1.udp
prints ports=3 frames=1 edits=1 blocks=1|exact=0 mega=0 miss=1
prints installed=1 present=0 full=0|sent=1 dropped=0 entries=1
sent 1
sent 2 1:to_2.ipv4.ttl_1.udp
sent 3
rules cookie=0x0, table=0, n_packets=1, n_bytes=42, priority=32768,in_port=1 actions=output:2,dec_ttl,output:3 \
    # rule=1
megaflows port=1 entry=1 version=1 packets=0 bytes=0 owed_packets=0 owed_bytes=0 used=1.000000000 visits=1 \
    match=in_port=1,dl_type=0x0800,nw_ttl=1,ip_frag=no actions=2
journal port 1|begin 1|end|look 1 miss|settle 1 1 installed 1
journal port 2|begin 1|end
journal port 3|begin 1|end

shows a TTL of 1 ends the actions of its own table alone
words edits out 1=a.pcap 2= 3=
edits in_port=1,actions=resubmit(,1),3
edits table=1,actions=dec_ttl,2
trace a.pcap 1:to_2.ipv4.ttl_1.udp
prints ports=3 frames=1 edits=2 blocks=1|exact=0 mega=0 miss=1
prints installed=1 present=0 full=0|sent=1 dropped=0 entries=1
sent 1
sent 2
sent 3 1:to_2.ipv4.ttl_1.udp
rules cookie=0x0, table=0, n_packets=1, n_bytes=42, priority=32768,in_port=1 actions=resubmit(,1),output:3 # rule=1
rules cookie=0x0, table=1, n_packets=1, n_bytes=42, priority=32768 actions=dec_ttl,output:2 # rule=2
megaflows port=1 entry=1 version=2 packets=0 bytes=0 owed_packets=0 owed_bytes=0 used=1.000000000 visits=1+2 \
    match=in_port=1,dl_type=0x0800,nw_ttl=1,ip_frag=no actions=3
journal port 1|begin 2|end|look 1 miss|settle 1 2 installed 1
journal port 2|begin 2|end
journal port 3|begin 2|end

shows a port of TCP isn't written in a packet of UDP
edits in_port=1,actions=set_field:80->tcp_dst,2
trace a.pcap 1:to_2.ipv4.ttl_64.udp
prints ports=2 frames=1 edits=1 blocks=1|exact=0 mega=0 miss=1
prints installed=1 present=0 full=0|sent=1 dropped=0 entries=1
sent 1
sent 2 1:to_2.ipv4.ttl_64.udp
rules cookie=0x0, table=0, n_packets=1, n_bytes=42, priority=32768,in_port=1 \
    actions=set_field:80->tcp_dst,output:2 # rule=1
megaflows port=1 entry=1 version=1 packets=0 bytes=0 owed_packets=0 owed_bytes=0 used=1.000000000 visits=1 \
    match=in_port=1,dl_type=0x0800,nw_proto=17,ip_frag=no actions=2
journal port 1|begin 1|end|look 1 miss|settle 1 1 installed 1
journal port 2|begin 1|end

shows a port isn't written in a first fragment
edits in_port=1,actions=mod_tp_dst:80,2
trace a.pcap 1:to_2.ipv4.first_fragment.udp
prints ports=2 frames=1 edits=1 blocks=1|exact=0 mega=0 miss=1
prints installed=1 present=0 full=0|sent=1 dropped=0 entries=1
sent 1
sent 2 1:to_2.ipv4.first_fragment.udp
rules cookie=0x0, table=0, n_packets=1, n_bytes=42, priority=32768,in_port=1 actions=set_field:80->tp_dst,output:2 \
    # rule=1
megaflows port=1 entry=1 version=1 packets=0 bytes=0 owed_packets=0 owed_bytes=0 used=1.000000000 visits=1 \
    match=in_port=1,dl_type=0x0800,nw_proto=17,ip_frag=first actions=2
journal port 1|begin 1|end|look 1 miss|settle 1 1 installed 1
journal port 2|begin 1|end

shows a write of what is there looks at it, and one of something else sets the bits that differ
edits in_port=1,actions=set_field:00:00:00:00:00:02->dl_dst,2
trace a.pcap 1>2 2>7
prints ports=2 frames=2 edits=1 blocks=1|exact=0 mega=0 miss=2
prints installed=2 present=0 full=0|sent=2 dropped=0 entries=2
sent 1
sent 2 1>2 2>2
rules cookie=0x0, table=0, n_packets=2, n_bytes=120, priority=32768,in_port=1 \
    actions=set_field:00:00:00:00:00:02->dl_dst,output:2 # rule=1
megaflows port=1 entry=1 version=1 packets=0 bytes=0 owed_packets=0 owed_bytes=0 used=1.000000000 visits=1 \
    match=in_port=1,dl_dst=00:00:00:00:00:02,dl_type=0x88b5 actions=2
megaflows port=1 entry=2 version=1 packets=0 bytes=0 owed_packets=0 owed_bytes=0 used=2.000000000 visits=1 \
    match=in_port=1,dl_dst=00:00:00:00:00:07,dl_type=0x88b5 \
    actions=set(dl_dst=00:00:00:00:00:00/00:00:00:00:00:05),2
journal port 1|begin 1|end|look 1 miss|settle 1 1 installed 1|look 2 miss|settle 2 1 installed 2
journal port 2|begin 1|end

shows each output sends the frame as it then is
words edits out 1=a.pcap 2= 3=
edits in_port=1,actions=2,mod_dl_dst:00:00:00:00:00:07,3,mod_dl_dst:00:00:00:00:00:02,2,in_port
trace a.pcap 1>2
prints ports=3 frames=1 edits=1 blocks=1|exact=0 mega=0 miss=1
prints installed=1 present=0 full=0|sent=4 dropped=0 entries=1
sent 1 1>2
sent 2 1>2 1>2
sent 3 1>7
rules cookie=0x0, table=0, n_packets=1, n_bytes=60, priority=32768,in_port=1 \
    actions=output:2,set_field:00:00:00:00:00:07->dl_dst,output:3,set_field:00:00:00:00:00:02->dl_dst,output:2,\
    in_port # rule=1
megaflows port=1 entry=1 version=1 packets=0 bytes=0 owed_packets=0 owed_bytes=0 used=1.000000000 visits=1 \
    match=in_port=1,dl_dst=00:00:00:00:00:02,dl_type=0x88b5 \
    actions=2,set(dl_dst=00:00:00:00:00:05/00:00:00:00:00:05),3,set(dl_dst=00:00:00:00:00:00/00:00:00:00:00:05),2,1
journal port 1|begin 1|end|look 1 miss|settle 1 1 installed 1
journal port 2|begin 1|end
journal port 3|begin 1|end";
