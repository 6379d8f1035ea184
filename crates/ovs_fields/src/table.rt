ghost use Rattle.std.specs.Prelude.{◌≡◌};
ghost use Rattle.spec_keys.specs.Fields.{width_of, stage_of};

use crate::FieldId;
use crate::field_list::with_fields;

macro_rules! width_of {
    (($field:ident) $([$variant:ident $name:ident $type:ident $bits:literal $($more:tt)*])*) => {
        match $field { $(FieldId::$variant => $bits,)* }
    };
}

/// How many bits a field has: 2 to 128 (ovs-fields(7)).
pub fn width(field: FieldId) -> u32
    ensures { result ≡ width_of field }
{
    with_fields!(width_of(field))
}

macro_rules! stage_of {
    (($field:ident) $([$variant:ident $name:ident $type:ident $bits:literal $stage:literal])*) => {
        match $field { $(FieldId::$variant => $stage,)* }
    };
}

/// The stage of a lookup that tests a field: 0 to 3. The assignment of fields to stages is this profile's.
pub fn stage(field: FieldId) -> u8
    ensures { result ≡ stage_of field }
{
    with_fields!(stage_of(field))
}
