//! Runs whose flows are written, and runs with mirrors.

/// Runs with more files than those of the ports and the dumps. Two datagrams of UDP are one flow: from 10.0.0.1 to 10.0.0.2,
/// in at port 1 and out at port 2, 2 packets of 28 octets, the first at 0 ms and the last at 2,000 ms. The known run
/// `MIRRORED_FLOW` is one more.
pub const OUTLETS: &str = "\
shows the packets of a class are one flow
words --netflow edits out 1=a.pcap 2=
edits in_port=1,actions=mod_nw_src:10.0.0.9,2
trace a.pcap 1:to_2.ipv4.ttl_64.udp 3:to_2.ipv4.ttl_64.udp
prints ports=2 frames=2 edits=1 blocks=1|exact=0 mega=1 miss=1
prints installed=1 present=0 full=0|sent=2 dropped=0 entries=1
sent 1
sent 2 1:to_2.ipv4.from_9.udp 3:to_2.ipv4.from_9.udp
rules cookie=0x0, table=0, n_packets=2, n_bytes=84, priority=32768,in_port=1 \
    actions=set_field:10.0.0.9->nw_src,output:2 # rule=1
megaflows port=1 entry=1 version=1 packets=1 bytes=42 owed_packets=1 owed_bytes=42 used=3.000000000 visits=1 \
    match=in_port=1,dl_type=0x0800,nw_src=10.0.0.1,ip_frag=no actions=set(nw_src=0.0.0.8/0.0.0.8),2
journal port 1|begin 1|end|look 1 miss|settle 1 1 installed 1|look 2 mega 1
journal port 2|begin 1|end
file out.netflow =00050001000007d00000000300000000.0000000000000000.0a0000010a0000020000000000010002.\
    000000020000003800000000000007d0.03e80035000011000000000000000000

shows of a frame that is sent twice to a port the first is copied
words --mirrors mirrors edits out 1=a.pcap 2=
edits in_port=1,actions=2,mod_dl_dst:00:00:00:00:00:07,2
mirrors select_dst_port=2
trace a.pcap 1
prints ports=2 frames=1 edits=1 blocks=1|exact=0 mega=0 miss=1
prints installed=1 present=0 full=0|sent=2 dropped=0 entries=1
sent 1
sent 2 1>2 1>7
rules cookie=0x0, table=0, n_packets=1, n_bytes=60, priority=32768,in_port=1 \
    actions=output:2,set_field:00:00:00:00:00:07->dl_dst,output:2 # rule=1
megaflows port=1 entry=1 version=1 packets=0 bytes=0 owed_packets=0 owed_bytes=0 used=1.000000000 visits=1 \
    match=in_port=1,dl_dst=00:00:00:00:00:02,dl_type=0x88b5 \
    actions=2,set(dl_dst=00:00:00:00:00:05/00:00:00:00:00:05),2
journal port 1|begin 1|end|look 1 miss|settle 1 1 installed 1
journal port 2|begin 1|end
file out.m1.pcap 1";

/// Runs that are otherwise like the known run `FORWARDED`.
pub const BESIDE_FORWARDED: &str = "\
shows without IPv4 there is no flow
words --netflow edits out 1=a.pcap 2=
file out.netflow =

shows without mirrors there is no copy
words --mirrors mirrors edits out 1=a.pcap 2=
mirrors # nothing|";

/// A run that is otherwise like the known run `WEB`.
pub const BESIDE_WEB: &str = "\
shows a mirror copies what comes in at a port, what goes out, or either once
words --mirrors mirrors edits out 1=a.pcap 2=b.pcap
mirrors select_src_port=1
mirrors select_dst_port=2
mirrors select_src_port=2,select_dst_port=2
file out.m1.pcap 1:to_2.arp.question 2:to_2.ipv4.to_web.tcp 3:to_2.ipv4.to_web.tcp
file out.m2.pcap 1:to_2.arp.question 2:to_2.ipv4.to_web_lowered.tcp 3:to_2.ipv4.to_web_lowered.tcp
file out.m3.pcap 1:to_2.arp.question 2:to_2.ipv4.to_web_lowered.tcp 3:to_2.ipv4.to_web_lowered.tcp \
    4:to_2.ipv4.from_web.tcp_answer";
