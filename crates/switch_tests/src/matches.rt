//! Runs that show which fields a megaflow is about.

/// Runs with rules about packets of IPv4. The known run `WEB` is one more.
pub const MATCHES: &str = "\
shows an address beside a prefix is known by its first bit
edits ip,nw_dst=10.0.0.0/8,actions=2
trace a.pcap 1:to_2.ipv4.to_far.udp
prints ports=2 frames=1 edits=1 blocks=1|exact=0 mega=0 miss=1
prints installed=1 present=0 full=0|sent=0 dropped=1 entries=1
sent 1
sent 2
rules cookie=0x0, table=0, n_packets=0, n_bytes=0, priority=32768,ip,nw_dst=10.0.0.0/8 actions=output:2 # rule=1
megaflows port=1 entry=1 version=1 packets=0 bytes=0 owed_packets=0 owed_bytes=0 used=1.000000000 visits=- \
    match=in_port=1,dl_type=0x0800,nw_dst=128.0.0.0/1,ip_frag=no actions=drop
journal port 1|begin 1|end|look 1 miss|settle 1 1 installed 1
journal port 2|begin 1|end

shows ports aren't looked at where the address tells
edits tcp,nw_dst=10.0.0.1,tp_dst=80,actions=2
trace a.pcap 1:to_2.ipv4.near.near_tcp
prints ports=2 frames=1 edits=1 blocks=1|exact=0 mega=0 miss=1
prints installed=1 present=0 full=0|sent=0 dropped=1 entries=1
sent 1
sent 2
rules cookie=0x0, table=0, n_packets=0, n_bytes=0, priority=32768,tcp,nw_dst=10.0.0.1,tp_dst=80 actions=output:2 \
    # rule=1
megaflows port=1 entry=1 version=1 packets=0 bytes=0 owed_packets=0 owed_bytes=0 used=1.000000000 visits=- \
    match=in_port=1,dl_type=0x0800,nw_dst=10.0.0.2/31,ip_frag=no actions=drop
journal port 1|begin 1|end|look 1 miss|settle 1 1 installed 1
journal port 2|begin 1|end

shows a first fragment has no ports that match
edits udp,tp_dst=53,actions=2
trace a.pcap 1:to_2.ipv4.first_fragment.udp
prints ports=2 frames=1 edits=1 blocks=1|exact=0 mega=0 miss=1
prints installed=1 present=0 full=0|sent=0 dropped=1 entries=1
sent 1
sent 2
rules cookie=0x0, table=0, n_packets=0, n_bytes=0, priority=32768,udp,tp_dst=53 actions=output:2 # rule=1
megaflows port=1 entry=1 version=1 packets=0 bytes=0 owed_packets=0 owed_bytes=0 used=1.000000000 visits=- \
    match=in_port=1,dl_type=0x0800,nw_proto=17,ip_frag=first,tp_dst=0 actions=drop
journal port 1|begin 1|end|look 1 miss|settle 1 1 installed 1
journal port 2|begin 1|end";
