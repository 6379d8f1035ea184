ghost use Rattle.std.specs.Prelude.{◌≡◌};
ghost use Rattle.address_prefixes.specs.Prefixes.{no_prefixes};

use address_prefixes::tracker::PrefixTrie;
use std::process::Abort;
use std::test::Fail;

/// The bits of an IPv4 address.
const WIDTH: u32 = 32;

/// 10.0.0.0
const TEN: u128 = 0x0a00_0000;

/// 10.1.0.0
const TEN_ONE: u128 = 0x0a01_0000;

/// 192.168.0.0
const HOME: u128 = 0xc0a8_0000;

/// 10.2.0.1
const ADDRESS: u128 = 0x0a02_0001;

#[test]
fn no_bits_decide_where_there_are_no_prefixes(rt: HostRuntime) -> Result<(), Fail> {
    let trie = PrefixTrie::new(rt.alloc(), WIDTH);
    let found = trie.look(ADDRESS);
    drop(trie);
    assert_eq!(rt; (found.lengths, found.bits), (0, 0));
    Ok(())
}

/// Three prefixes, of which the one that is longer than that of an address goes.
fn a_longer_prefix_goes(rt: &impl Abort, trie: &mut PrefixTrie) -> Result<(), Fail>
    requires { trie.old ≡ no_prefixes 32 }
{
    trie.insert(TEN, 8)?;
    trie.insert(TEN_ONE, 16)?;
    trie.insert(HOME, 24)?;
    let found = trie.look(ADDRESS);
    assert_eq!(rt; (found.lengths, found.bits), (0x80, 15));
    trie.remove(TEN_ONE, 16);
    let found = trie.look(ADDRESS);
    assert_eq!(rt; (found.lengths, found.bits), (0x80, 8));
    Ok(())
}

#[test]
fn a_longer_prefix_decides_by_its_first_other_bit(rt: HostRuntime) -> Result<(), Fail> {
    let mut trie = PrefixTrie::new(rt.alloc(), WIDTH);
    let done = a_longer_prefix_goes(&rt, &mut trie);
    drop(trie);
    done
}
