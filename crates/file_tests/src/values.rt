use text_numbers::{
    print_decimal, print_hexadecimal, print_hexadecimal4, print_ipv4, print_ipv4_mask, print_ipv6,
    print_ipv6_mask, print_mac,
};

#[test]
fn values_are_printed_one_after_the_other(rt: HostRuntime) {
    let mut out = String::new(rt.alloc());
    print_decimal(&mut out, 65_279).expect(&rt, "ample memory");
    out.push(' ').expect(&rt, "ample memory");
    print_hexadecimal(&mut out, 0xffff_ffff_ffff_ffff).expect(&rt, "ample memory");
    out.push(' ').expect(&rt, "ample memory");
    print_hexadecimal4(&mut out, 0x0806).expect(&rt, "ample memory");
    out.push(' ').expect(&rt, "ample memory");
    print_mac(&mut out, 0x001b_00ff_0a02).expect(&rt, "ample memory");
    assert!(rt; out.as_str() == "65279 0xffffffffffffffff 0x0806 00:1b:00:ff:0a:02");
}

#[test]
fn addresses_and_masks_are_printed_one_after_the_other(rt: HostRuntime) {
    let mut out = String::new(rt.alloc());
    print_ipv4(&mut out, 0xc000_0201).expect(&rt, "ample memory");
    out.push('/').expect(&rt, "ample memory");
    print_ipv4_mask(&mut out, 0xffff_ff00).expect(&rt, "ample memory");
    out.push(' ').expect(&rt, "ample memory");
    print_ipv6(&mut out, 0x2001_0db8_0000_0000_0000_0000_0000_0001).expect(&rt, "ample memory");
    out.push('/').expect(&rt, "ample memory");
    print_ipv6_mask(&mut out, 0xffff).expect(&rt, "ample memory");
    assert!(rt; out.as_str() == "192.0.2.1/24 2001:db8:0:0:0:0:0:1/0:0:0:0:0:0:0:ffff");
}
