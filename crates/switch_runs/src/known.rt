//! Runs that several tables are like.

/// A run that sends one frame.
pub const FORWARDED: &str = "\
shows a frame of port 1 leaves by port 2 as it came
edits in_port=1,actions=2
trace a.pcap 1
prints ports=2 frames=1 edits=1 blocks=1|exact=0 mega=0 miss=1
prints installed=1 present=0 full=0|sent=1 dropped=0 entries=1
sent 1
sent 2 1
rules cookie=0x0, table=0, n_packets=1, n_bytes=60, priority=32768,in_port=1 actions=output:2 # rule=1
megaflows port=1 entry=1 version=1 packets=0 bytes=0 owed_packets=0 owed_bytes=0 used=1.000000000 visits=1 \
    match=in_port=1,dl_type=0x88b5 actions=2
journal port 1|begin 1|end|look 1 miss|settle 1 1 installed 1
journal port 2|begin 1|end";

/// A web session: a request for an address, and segments of both ends.
pub const WEB: &str = "\
shows tables, registers and a TTL lead the segments of a web session to the ports that registers hold
words edits out 1=a.pcap 2=b.pcap
edits table=0,priority=100,arp,actions=flood
edits table=0,priority=90,in_port=1,actions=load:1->reg0[],resubmit(,1)
edits table=0,priority=90,in_port=2,actions=load:2->reg0[],resubmit(,1)
edits table=0,priority=0,actions=drop
edits table=1,priority=50,ip,nw_dst=10.0.0.0/24,actions=load:1->reg1[],resubmit(,2)
edits table=1,priority=40,ip,nw_dst=192.0.2.0/24,actions=dec_ttl,load:2->reg1[],resubmit(,2)
edits table=1,priority=0,actions=drop
edits table=2,priority=80,tcp,reg1=2,tp_dst=80,actions=output:reg1[0..15]
edits table=2,priority=80,tcp,reg1=2,tp_dst=443,actions=output:2
edits table=2,priority=80,tcp,reg1=1,tp_src=80,actions=output:1
edits table=2,priority=10,icmp,actions=in_port
edits table=2,priority=0,actions=drop
edits sync 0
trace a.pcap 1:to_2.arp.question 2:to_2.ipv4.to_web.tcp 3:to_2.ipv4.to_web.tcp
trace b.pcap 4:to_2.ipv4.from_web.tcp_answer
prints ports=2 frames=4 edits=12 blocks=2|exact=0 mega=1 miss=3
prints installed=3 present=0 full=0|sent=4 dropped=0 entries=3
sent 1 4:to_2.ipv4.from_web.tcp_answer
sent 2 1:to_2.arp.question 2:to_2.ipv4.to_web_lowered.tcp 3:to_2.ipv4.to_web_lowered.tcp
rules cookie=0x0, table=0, n_packets=1, n_bytes=42, priority=100,arp actions=flood # rule=1
rules cookie=0x0, table=0, n_packets=2, n_bytes=108, priority=90,in_port=1 \
    actions=set_field:0x1->reg0,resubmit(,1) # rule=2
rules cookie=0x0, table=0, n_packets=1, n_bytes=54, priority=90,in_port=2 actions=set_field:0x2->reg0,resubmit(,1) \
    # rule=3
rules cookie=0x0, table=0, n_packets=0, n_bytes=0, priority=0 actions=drop # rule=4
rules cookie=0x0, table=1, n_packets=1, n_bytes=54, priority=50,ip,nw_dst=10.0.0.0/24 \
    actions=set_field:0x1->reg1,resubmit(,2) # rule=5
rules cookie=0x0, table=1, n_packets=2, n_bytes=108, priority=40,ip,nw_dst=192.0.2.0/24 \
    actions=dec_ttl,set_field:0x2->reg1,resubmit(,2) # rule=6
rules cookie=0x0, table=1, n_packets=0, n_bytes=0, priority=0 actions=drop # rule=7
rules cookie=0x0, table=2, n_packets=2, n_bytes=108, priority=80,reg1=0x2,tcp,tp_dst=80 actions=output:reg1[0..15] \
    # rule=8
rules cookie=0x0, table=2, n_packets=0, n_bytes=0, priority=80,reg1=0x2,tcp,tp_dst=443 actions=output:2 # rule=9
rules cookie=0x0, table=2, n_packets=1, n_bytes=54, priority=80,reg1=0x1,tcp,tp_src=80 actions=output:1 # rule=10
rules cookie=0x0, table=2, n_packets=0, n_bytes=0, priority=10,icmp actions=in_port # rule=11
rules cookie=0x0, table=2, n_packets=0, n_bytes=0, priority=0 actions=drop # rule=12
megaflows port=1 entry=1 version=12 packets=0 bytes=0 owed_packets=0 owed_bytes=0 used=1.000000000 visits=1 \
    match=in_port=1,dl_type=0x0806 actions=2
megaflows port=1 entry=2 version=12 packets=1 bytes=54 owed_packets=1 owed_bytes=54 used=3.000000000 visits=2+6+8 \
    match=in_port=1,dl_type=0x0800,nw_dst=192.0.2.0/24,nw_proto=6,nw_ttl=64,ip_frag=no,tp_dst=80 \
    actions=set(nw_ttl=0x3f/0x7f),2
megaflows port=2 entry=1 version=12 packets=0 bytes=0 owed_packets=0 owed_bytes=0 used=4.000000000 visits=3+5+10 \
    match=in_port=2,dl_type=0x0800,nw_dst=10.0.0.0/24,nw_proto=6,ip_frag=no,tp_src=80 actions=1
journal port 1|begin 12|end|open 1|look 1 miss|settle 1 12 installed 1|look 2 miss|settle 2 12 installed 2|\
    look 3 mega 2
journal port 2|begin 12|end|open 1|look 1 miss|settle 1 12 installed 1";

/// A run with a mirror of all and with its flows: two datagrams of UDP from 10.0.0.1 to 10.0.0.2, which leave with another
/// source.
pub const MIRRORED_FLOW: &str = "\
shows the copies come after the flows
words --netflow --mirrors mirrors edits out 1=a.pcap 2=
edits in_port=1,actions=mod_nw_src:10.0.0.9,2
mirrors select_all
trace a.pcap 1:to_2.ipv4.ttl_64.udp 3:to_2.ipv4.ttl_64.udp
prints ports=2 frames=2 edits=1 blocks=1|exact=0 mega=1 miss=1
prints installed=1 present=0 full=0|sent=2 dropped=0 entries=1
sent 1
sent 2 1:to_2.ipv4.from_9.udp 3:to_2.ipv4.from_9.udp
rules cookie=0x0, table=0, n_packets=2, n_bytes=84, priority=32768,in_port=1 \
    actions=set_field:10.0.0.9->nw_src,output:2 # rule=1
megaflows port=1 entry=1 version=1 packets=1 bytes=42 owed_packets=1 owed_bytes=42 used=3.000000000 visits=1 \
    match=in_port=1,dl_type=0x0800,nw_src=10.0.0.1,ip_frag=no actions=set(nw_src=0.0.0.8/0.0.0.8),2
journal port 1|begin 1|end|look 1 miss|settle 1 1 installed 1|look 2 mega 1
journal port 2|begin 1|end
file out.netflow =00050001000007d00000000300000000.0000000000000000.0a0000010a0000020000000000010002.\
    000000020000003800000000000007d0.03e80035000011000000000000000000
file out.m1.pcap 1:to_2.ipv4.ttl_64.udp 3:to_2.ipv4.ttl_64.udp";
