//! Runs that show how VLAN tags come and go.

/// Runs that push and pop tags.
pub const TAGS: &str = "\
shows a VLAN identifier pushes a tag
edits in_port=1,actions=mod_vlan_vid:5,2
trace a.pcap 1
prints ports=2 frames=1 edits=1 blocks=1|exact=0 mega=0 miss=1
prints installed=1 present=0 full=0|sent=1 dropped=0 entries=1
sent 1
sent 2 1:to_2.tag_5.unknown
rules cookie=0x0, table=0, n_packets=1, n_bytes=60, priority=32768,in_port=1 actions=mod_vlan_vid:5,output:2 \
    # rule=1
megaflows port=1 entry=1 version=1 packets=0 bytes=0 owed_packets=0 owed_bytes=0 used=1.000000000 visits=1 \
    match=in_port=1,dl_type=0x88b5,vlan_tci=0x0000,vlan_tpid=0x0000,vlan_tci2=0x0000,vlan_tpid2=0x0000 \
    actions=push_vlan(vid=5,pcp=0),2
journal port 1|begin 1|end|look 1 miss|settle 1 1 installed 1
journal port 2|begin 1|end

shows a tag is popped
edits in_port=1,vlan_tci=0x1000/0x1000,actions=pop_vlan,2
trace a.pcap 1:to_2.88a86005.unknown
prints ports=2 frames=1 edits=1 blocks=1|exact=0 mega=0 miss=1
prints installed=1 present=0 full=0|sent=1 dropped=0 entries=1
sent 1
sent 2 1
rules cookie=0x0, table=0, n_packets=1, n_bytes=64, priority=32768,in_port=1,vlan_tci=0x1000/0x1000 \
    actions=pop_vlan,output:2 # rule=1
megaflows port=1 entry=1 version=1 packets=0 bytes=0 owed_packets=0 owed_bytes=0 used=1.000000000 visits=1 \
    match=in_port=1,dl_type=0x88b5,vlan_tci=0x7005,vlan_tpid=0x88a8,vlan_tci2=0x0000,vlan_tpid2=0x0000 \
    actions=pop_vlan,2
journal port 1|begin 1|end|look 1 miss|settle 1 1 installed 1
journal port 2|begin 1|end

shows a service tag is pushed outside of a customer's
edits in_port=1,actions=push_vlan:0x88a8,mod_vlan_vid:100,2
trace a.pcap 1:to_2.tag_10.unknown
prints ports=2 frames=1 edits=1 blocks=1|exact=0 mega=0 miss=1
prints installed=1 present=0 full=0|sent=1 dropped=0 entries=1
sent 1
sent 2 1:to_2.service_tag_100.tag_10.unknown
rules cookie=0x0, table=0, n_packets=1, n_bytes=64, priority=32768,in_port=1 \
    actions=push_vlan:0x88a8,mod_vlan_vid:100,output:2 # rule=1
megaflows port=1 entry=1 version=1 packets=0 bytes=0 owed_packets=0 owed_bytes=0 used=1.000000000 visits=1 \
    match=in_port=1,dl_type=0x88b5,vlan_tci=0x100a,vlan_tpid=0x8100,vlan_tci2=0x0000,vlan_tpid2=0x0000 \
    actions=push_vlan(tpid=0x88a8,vid=100,pcp=0),2
journal port 1|begin 1|end|look 1 miss|settle 1 1 installed 1
journal port 2|begin 1|end

shows the outer of two tags is popped, and the inner one stays
edits dl_vlan=10,actions=drop
edits dl_vlan=100,actions=pop_vlan,2
trace a.pcap 1:to_2.service_tag_100.tag_10.unknown
prints ports=2 frames=1 edits=2 blocks=1|exact=0 mega=0 miss=1
prints installed=1 present=0 full=0|sent=1 dropped=0 entries=1
sent 1
sent 2 1:to_2.tag_10.unknown
rules cookie=0x0, table=0, n_packets=0, n_bytes=0, priority=32768,vlan_tci=0x100a/0x1fff actions=drop # rule=1
rules cookie=0x0, table=0, n_packets=1, n_bytes=68, priority=32768,vlan_tci=0x1064/0x1fff \
    actions=pop_vlan,output:2 # rule=2
megaflows port=1 entry=1 version=2 packets=0 bytes=0 owed_packets=0 owed_bytes=0 used=1.000000000 visits=2 \
    match=in_port=1,dl_type=0x88b5,vlan_tci=0x1064,vlan_tpid=0x88a8,vlan_tci2=0x100a,vlan_tpid2=0x8100 \
    actions=pop_vlan,2
journal port 1|begin 2|end|look 1 miss|settle 1 2 installed 1
journal port 2|begin 2|end

shows a tag pushed on two tags drops the packet
edits in_port=1,actions=2,push_vlan:0x8100,2
trace a.pcap 1:to_2.service_tag_100.tag_10.unknown
prints ports=2 frames=1 edits=1 blocks=1|exact=0 mega=0 miss=1
prints installed=1 present=0 full=0|sent=0 dropped=1 entries=1
sent 1
sent 2
rules cookie=0x0, table=0, n_packets=1, n_bytes=68, priority=32768,in_port=1 \
    actions=output:2,push_vlan:0x8100,output:2 # rule=1
megaflows port=1 entry=1 version=1 packets=0 bytes=0 owed_packets=0 owed_bytes=0 used=1.000000000 visits=1 \
    match=in_port=1,dl_type=0x88b5,vlan_tci=0x1064,vlan_tpid=0x88a8,vlan_tci2=0x100a,vlan_tpid2=0x8100 actions=drop
journal port 1|begin 1|end|look 1 miss|settle 1 1 installed 1
journal port 2|begin 1|end";
