//! Runs that show what is dropped at the limits of a translation.

/// At most 64 lookups deep, 512 lookups, and 128 actions.
pub const LIMITS: &str = "\
shows 64 lookups deep a frame goes out
edits actions=resubmit(,1),2
edits table=1,actions=dec_ttl,resubmit(,1)
trace a.pcap 1:to_2.ipv4.ttl_64.udp
prints ports=2 frames=1 edits=2 blocks=1|exact=0 mega=0 miss=1
prints installed=1 present=0 full=0|sent=1 dropped=0 entries=1
sent 1
sent 2 1:to_2.ipv4.ttl_1.udp
rules cookie=0x0, table=0, n_packets=1, n_bytes=42, priority=32768 actions=resubmit(,1),output:2 # rule=1
rules cookie=0x0, table=1, n_packets=64, n_bytes=2688, priority=32768 actions=dec_ttl,resubmit(,1) # rule=2
megaflows port=1 entry=1 version=2 packets=0 bytes=0 owed_packets=0 owed_bytes=0 used=1.000000000 visits=1+2x64 \
    match=in_port=1,dl_type=0x0800,nw_ttl=64,ip_frag=no actions=set(nw_ttl=0x1/0x41),2
journal port 1|begin 2|end|look 1 miss|settle 1 2 installed 1
journal port 2|begin 2|end

shows one deeper it is dropped
edits actions=resubmit(,1),2
edits table=1,actions=dec_ttl,resubmit(,1)
trace a.pcap 1:to_2.ipv4.ttl_65.udp
prints ports=2 frames=1 edits=2 blocks=1|exact=0 mega=0 miss=1
prints installed=1 present=0 full=0|sent=0 dropped=1 entries=1
sent 1
sent 2
rules cookie=0x0, table=0, n_packets=1, n_bytes=42, priority=32768 actions=resubmit(,1),output:2 # rule=1
rules cookie=0x0, table=1, n_packets=64, n_bytes=2688, priority=32768 actions=dec_ttl,resubmit(,1) # rule=2
megaflows port=1 entry=1 version=2 packets=0 bytes=0 owed_packets=0 owed_bytes=0 used=1.000000000 visits=1+2x64 \
    match=in_port=1,dl_type=0x0800,nw_ttl=65,ip_frag=no actions=drop
journal port 1|begin 2|end|look 1 miss|settle 1 2 installed 1
journal port 2|begin 2|end

shows after 512 lookups a frame goes out
edits actions=resubmit(,1),resubmit(,1),resubmit(,1),resubmit(,1),resubmit(,1),resubmit(,1),resubmit(,1),2
edits table=1,actions=resubmit(,2),resubmit(,2),resubmit(,2),resubmit(,2),resubmit(,2),resubmit(,2),resubmit(,2),\
    resubmit(,2)
edits table=2,actions=resubmit(,3),resubmit(,3),resubmit(,3),resubmit(,3),resubmit(,3),resubmit(,3),resubmit(,3),\
    resubmit(,3)
trace a.pcap 1
prints ports=2 frames=1 edits=3 blocks=1|exact=0 mega=0 miss=1
prints installed=1 present=0 full=0|sent=1 dropped=0 entries=1
sent 1
sent 2 1
rules cookie=0x0, table=0, n_packets=1, n_bytes=60, priority=32768 \
    actions=resubmit(,1),resubmit(,1),resubmit(,1),resubmit(,1),resubmit(,1),resubmit(,1),resubmit(,1),output:2 \
    # rule=1
rules cookie=0x0, table=1, n_packets=7, n_bytes=420, priority=32768 \
    actions=resubmit(,2),resubmit(,2),resubmit(,2),resubmit(,2),resubmit(,2),resubmit(,2),resubmit(,2),\
    resubmit(,2) # rule=2
rules cookie=0x0, table=2, n_packets=56, n_bytes=3360, priority=32768 \
    actions=resubmit(,3),resubmit(,3),resubmit(,3),resubmit(,3),resubmit(,3),resubmit(,3),resubmit(,3),\
    resubmit(,3) # rule=3
megaflows port=1 entry=1 version=3 packets=0 bytes=0 owed_packets=0 owed_bytes=0 used=1.000000000 \
    visits=1+2+3x8+2+3x8+2+3x8+2+3x8+2+3x8+2+3x8+2+3x8 match=in_port=1,dl_type=0x88b5 actions=2
journal port 1|begin 3|end|look 1 miss|settle 1 3 installed 1
journal port 2|begin 3|end

shows with one lookup more it is dropped
edits actions=resubmit(,3),resubmit(,1),resubmit(,1),resubmit(,1),resubmit(,1),resubmit(,1),resubmit(,1),\
    resubmit(,1),2
edits table=1,actions=resubmit(,2),resubmit(,2),resubmit(,2),resubmit(,2),resubmit(,2),resubmit(,2),resubmit(,2),\
    resubmit(,2)
edits table=2,actions=resubmit(,3),resubmit(,3),resubmit(,3),resubmit(,3),resubmit(,3),resubmit(,3),resubmit(,3),\
    resubmit(,3)
trace a.pcap 1
prints ports=2 frames=1 edits=3 blocks=1|exact=0 mega=0 miss=1
prints installed=1 present=0 full=0|sent=0 dropped=1 entries=1
sent 1
sent 2
rules cookie=0x0, table=0, n_packets=1, n_bytes=60, priority=32768 \
    actions=resubmit(,3),resubmit(,1),resubmit(,1),resubmit(,1),resubmit(,1),resubmit(,1),resubmit(,1),\
    resubmit(,1),output:2 # rule=1
rules cookie=0x0, table=1, n_packets=7, n_bytes=420, priority=32768 \
    actions=resubmit(,2),resubmit(,2),resubmit(,2),resubmit(,2),resubmit(,2),resubmit(,2),resubmit(,2),\
    resubmit(,2) # rule=2
rules cookie=0x0, table=2, n_packets=56, n_bytes=3360, priority=32768 \
    actions=resubmit(,3),resubmit(,3),resubmit(,3),resubmit(,3),resubmit(,3),resubmit(,3),resubmit(,3),\
    resubmit(,3) # rule=3
megaflows port=1 entry=1 version=3 packets=0 bytes=0 owed_packets=0 owed_bytes=0 used=1.000000000 \
    visits=1+2+3x8+2+3x8+2+3x8+2+3x8+2+3x8+2+3x8+2+3x8 match=in_port=1,dl_type=0x88b5 actions=drop
journal port 1|begin 3|end|look 1 miss|settle 1 3 installed 1
journal port 2|begin 3|end

shows 128 outputs are sent
edits actions=resubmit(,1),resubmit(,1),resubmit(,1),resubmit(,1),resubmit(,1),resubmit(,1),resubmit(,1),\
    resubmit(,1)
edits table=1,actions=2,2,2,2,2,2,2,2,2,2,2,2,2,2,2,2
trace a.pcap 1
prints ports=2 frames=1 edits=2 blocks=1|exact=0 mega=0 miss=1
prints installed=1 present=0 full=0|sent=128 dropped=0 entries=1
sent 1
sent 2 1*128
rules cookie=0x0, table=0, n_packets=1, n_bytes=60, priority=32768 \
    actions=resubmit(,1),resubmit(,1),resubmit(,1),resubmit(,1),resubmit(,1),resubmit(,1),resubmit(,1),\
    resubmit(,1) # rule=1
rules cookie=0x0, table=1, n_packets=8, n_bytes=480, priority=32768 \
    actions=output:2,output:2,output:2,output:2,output:2,output:2,output:2,output:2,output:2,output:2,output:2,\
    output:2,output:2,output:2,output:2,output:2 # rule=2
megaflows port=1 entry=1 version=2 packets=0 bytes=0 owed_packets=0 owed_bytes=0 used=1.000000000 visits=1+2x8 \
    match=in_port=1,dl_type=0x88b5 actions=2,2,2,2,2,2,2,2,2,2,2,2,2,2,2,2,2,2,2,2,2,2,2,2,2,2,2,2,2,2,2,2,2,2,2,2,\
    2,2,2,2,2,2,2,2,2,2,2,2,2,2,2,2,2,2,2,2,2,2,2,2,2,2,2,2,2,2,2,2,2,2,2,2,2,2,2,2,2,2,2,2,2,2,2,2,2,2,2,2,2,2,2,\
    2,2,2,2,2,2,2,2,2,2,2,2,2,2,2,2,2,2,2,2,2,2,2,2,2,2,2,2,2,2,2,2,2,2,2,2,2
journal port 1|begin 2|end|look 1 miss|settle 1 2 installed 1
journal port 2|begin 2|end

shows with one output more none is
words edits out 1=a.pcap 2= 3=
edits actions=resubmit(,1),resubmit(,1),resubmit(,1),resubmit(,1),resubmit(,1),resubmit(,1),resubmit(,1),\
    resubmit(,1),3
edits table=1,actions=2,2,2,2,2,2,2,2,2,2,2,2,2,2,2,2
trace a.pcap 1
prints ports=3 frames=1 edits=2 blocks=1|exact=0 mega=0 miss=1
prints installed=1 present=0 full=0|sent=0 dropped=1 entries=1
sent 1
sent 2
sent 3
rules cookie=0x0, table=0, n_packets=1, n_bytes=60, priority=32768 \
    actions=resubmit(,1),resubmit(,1),resubmit(,1),resubmit(,1),resubmit(,1),resubmit(,1),resubmit(,1),\
    resubmit(,1),output:3 # rule=1
rules cookie=0x0, table=1, n_packets=8, n_bytes=480, priority=32768 \
    actions=output:2,output:2,output:2,output:2,output:2,output:2,output:2,output:2,output:2,output:2,output:2,\
    output:2,output:2,output:2,output:2,output:2 # rule=2
megaflows port=1 entry=1 version=2 packets=0 bytes=0 owed_packets=0 owed_bytes=0 used=1.000000000 visits=1+2x8 \
    match=in_port=1,dl_type=0x88b5 actions=drop
journal port 1|begin 2|end|look 1 miss|settle 1 2 installed 1
journal port 2|begin 2|end
journal port 3|begin 2|end";
