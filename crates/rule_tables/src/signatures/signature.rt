ghost use Rattle.std.specs.Prelude.{◌≡◌, true};
ghost use Rattle.std.specs.List.{fold};
ghost use Rattle.spec_keys.specs.Fields.{fields};
ghost use Rattle.spec_tables.specs.Rules.{Rule};
ghost use Rattle.spec_tables.specs.Edits.{Edit, is_named_by, is_reached_by};
ghost use Rattle.ovs_fields.specs.Packed.{numbers, bits};
ghost use Rattle.rule_tables.specs.Signatures.{halves, laid_on, superimposed, in_port_to_reg6, reg7_to_reg15, dl_src_to_nw_proto, nw_tos_to_vlan_tpid2, ones_of, zeros_of, signature_of, includes};
ghost use Rattle.rule_tables.specs.Included.{IsNormalised, IsIncludedIn};

use ovs_fields::{FieldId, Key, Mask};

/// The bits that a match states, those of all fields laid over one another.
#[derive(Clone, Copy)]
pub struct Signature {
    /// Those that it states to be 1.
    pub(crate) ones: u64,
    /// Those that it states to be 0.
    pub(crate) zeros: u64,
}

// The one list of the fields in this crate, in the order of the key and in four parts, since long expressions are proved
// part by part: of each field how far it is shifted. `with_shifts_of_..!(made(a, b))` calls the macro `made` with its own
// arguments and then the part.

macro_rules! with_shifts_of_in_port_to_reg6 {
    ($made:ident $arguments:tt) => {
        $made!(
            $arguments
            [InPort 32]
            [Metadata 0]
            [Reg0 0]
            [Reg1 32]
            [Reg2 0]
            [Reg3 32]
            [Reg4 0]
            [Reg5 32]
            [Reg6 0]
        )
    };
}

macro_rules! with_shifts_of_reg7_to_reg15 {
    ($made:ident $arguments:tt) => {
        $made!(
            $arguments
            [Reg7 32]
            [Reg8 0]
            [Reg9 32]
            [Reg10 0]
            [Reg11 32]
            [Reg12 0]
            [Reg13 32]
            [Reg14 0]
            [Reg15 32]
        )
    };
}

macro_rules! with_shifts_of_dl_src_to_nw_proto {
    ($made:ident $arguments:tt) => {
        $made!(
            $arguments
            [DlSrc 0]
            [DlDst 16]
            [DlType 48]
            [VlanTci 32]
            [NwSrc 0]
            [NwDst 32]
            [Ipv6Src 0]
            [Ipv6Dst 0]
            [NwProto 24]
        )
    };
}

macro_rules! with_shifts_of_nw_tos_to_vlan_tpid2 {
    ($made:ident $arguments:tt) => {
        $made!(
            $arguments
            [NwTos 16]
            [NwTtl 16]
            [IpFrag 24]
            [ArpSha 0]
            [ArpTha 16]
            [TpSrc 16]
            [TpDst 8]
            [VlanTpid 48]
            [VlanTci2 0]
            [VlanTpid2 16]
        )
    };
}

macro_rules! laid_ones {
    (($word:ident, $key:ident) $([$variant:ident $shift:literal])*) => {
        $word $(| $key.get(FieldId::$variant) << $shift)*
    };
}

macro_rules! laid_zeros {
    (($word:ident, $key:ident, $mask:ident) $([$variant:ident $shift:literal])*) => {
        $word $(| ($mask.get(FieldId::$variant) ^ $key.get(FieldId::$variant)) << $shift)*
    };
}

/// One more than the greatest number of 64 bits.
const HALF: u128 = 1 << 64;

/// Both halves of a word laid over one another.
fn halves(word: u128) -> u64
    ensures { result ≡ halves word }
{
    (word % HALF) as u64 | (word / HALF) as u64
}

fn ones_of_in_port_to_reg6(word: u128, key: &Key) -> u128
    ensures { result ≡ laid_on word (ones_of (numbers key.now)) in_port_to_reg6 }
{
    with_shifts_of_in_port_to_reg6!(laid_ones(word, key))
}

fn ones_of_reg7_to_reg15(word: u128, key: &Key) -> u128
    ensures { result ≡ laid_on word (ones_of (numbers key.now)) reg7_to_reg15 }
{
    with_shifts_of_reg7_to_reg15!(laid_ones(word, key))
}

fn ones_of_dl_src_to_nw_proto(word: u128, key: &Key) -> u128
    ensures { result ≡ laid_on word (ones_of (numbers key.now)) dl_src_to_nw_proto }
{
    with_shifts_of_dl_src_to_nw_proto!(laid_ones(word, key))
}

fn ones_of_nw_tos_to_vlan_tpid2(word: u128, key: &Key) -> u128
    ensures { result ≡ laid_on word (ones_of (numbers key.now)) nw_tos_to_vlan_tpid2 }
{
    with_shifts_of_nw_tos_to_vlan_tpid2!(laid_ones(word, key))
}

fn zeros_of_in_port_to_reg6(word: u128, key: &Key, mask: &Mask) -> u128
    ensures { result ≡ laid_on word (zeros_of (numbers key.now) (bits mask.now)) in_port_to_reg6 }
{
    with_shifts_of_in_port_to_reg6!(laid_zeros(word, key, mask))
}

fn zeros_of_reg7_to_reg15(word: u128, key: &Key, mask: &Mask) -> u128
    ensures { result ≡ laid_on word (zeros_of (numbers key.now) (bits mask.now)) reg7_to_reg15 }
{
    with_shifts_of_reg7_to_reg15!(laid_zeros(word, key, mask))
}

fn zeros_of_dl_src_to_nw_proto(word: u128, key: &Key, mask: &Mask) -> u128
    ensures { result ≡ laid_on word (zeros_of (numbers key.now) (bits mask.now)) dl_src_to_nw_proto }
{
    with_shifts_of_dl_src_to_nw_proto!(laid_zeros(word, key, mask))
}

fn zeros_of_nw_tos_to_vlan_tpid2(word: u128, key: &Key, mask: &Mask) -> u128
    ensures { result ≡ laid_on word (zeros_of (numbers key.now) (bits mask.now)) nw_tos_to_vlan_tpid2 }
{
    with_shifts_of_nw_tos_to_vlan_tpid2!(laid_zeros(word, key, mask))
}

fn ones_of(key: &Key) -> u128
    ensures { result ≡ superimposed (ones_of (numbers key.now)) fields }
{
    let word = ones_of_in_port_to_reg6(0, key);
    let word = ones_of_reg7_to_reg15(word, key);
    let word = ones_of_dl_src_to_nw_proto(word, key);
    ones_of_nw_tos_to_vlan_tpid2(word, key)
}

fn zeros_of(key: &Key, mask: &Mask) -> u128
    ensures { result ≡ superimposed (zeros_of (numbers key.now) (bits mask.now)) fields }
{
    let word = zeros_of_in_port_to_reg6(0, key, mask);
    let word = zeros_of_reg7_to_reg15(word, key, mask);
    let word = zeros_of_dl_src_to_nw_proto(word, key, mask);
    zeros_of_nw_tos_to_vlan_tpid2(word, key, mask)
}

impl Signature {
    /// The signature of a match of this key under this mask.
    pub fn of(key: &Key, mask: &Mask) -> Signature
        ensures { result ≡ signature_of (numbers key.now) (bits mask.now) }
    {
        Signature {
            ones: halves(ones_of(key)),
            zeros: halves(zeros_of(key, mask)),
        }
    }

    /// Whether it has all bits of another.
    #[inline]
    pub fn includes(&self, other: &Signature) -> bool
        ensures { result ≡ includes self.now other.now }
    {
        (self.ones & other.ones == other.ones) & (self.zeros & other.zeros == other.zeros)
    }
}

/// The signature of a rule includes that of each edit that reaches or names it, if neither has bits of the key outside the
/// mask.
pub fn rules_include_their_edits()
    ensures reached { (e : Edit) (r : Rule) → IsNormalised r.matching → IsNormalised e.matching
        → is_reached_by e r ≡ true → IsIncludedIn e r }
    ensures named { (e : Edit) (r : Rule) → is_named_by e r ≡ true → IsIncludedIn e r }
{}
