//! Requirements on forms.

ghost use Rattle.std.specs.Prelude.{◌≡◌};
ghost use Rattle.rpg_faults_operands.specs.Indexes as indexes;
ghost use Rattle.rpg_faults_operands.specs.Kinds as kinds;

use rpg_program::form::{FieldForm, Kind, is_plain, is_writable, same_kind};

pub(crate) fn is_text(form: FieldForm) -> bool
    ensures { result ≡ kinds.is_text form }
{
    same_kind(form.kind, Kind::Text)
}

/// Whether a field is never written: the date and constants.
pub(crate) fn is_unwritable(form: FieldForm) -> bool
    ensures { result ≡ kinds.is_unwritable form }
{
    !is_writable(form.class)
}

/// Whether a field can be an index: a plain number without decimals.
pub(crate) fn can_index(form: FieldForm) -> bool
    ensures { result ≡ indexes.can_index form }
{
    !is_text(form) && is_plain(form.class) && form.decimals == 0
}
