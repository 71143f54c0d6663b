//! Laws of the formats. A function here does nothing: its contract is the law.

ghost use Rattle.std.specs.Prelude.{◌≡◌, ℕ, false};
ghost use Rattle.rpg_program.specs.Input.{TypeRow};
ghost use Rattle.rpg_program.specs.Kept.{IsLineRow, IsPlainType, IsTypeRow};
ghost use Rattle.rpg_program.specs.Object.{LineRow, has_secondary};
ghost use Rattle.rpg_program.specs.declared.rows.Version.{Version};
ghost use Rattle.rpg_object_rows.specs.Lines.{line};
ghost use Rattle.rpg_object_rows.specs.Types.{record_type_format};

/// The limits of a record type, in plain words, and the converse. In version 1 it is of the primary file and has no match fields.
pub fn record_types_are_plain()
    ensures plain { (v : Version) (t : TypeRow ℕ) → (record_type_format v).Holds t → IsTypeRow t }
    ensures first { (v : Version) (t : TypeRow ℕ) → (record_type_format v).Holds t → has_secondary v ≡ false → IsPlainType t }
    ensures whole { (v : Version) (t : TypeRow ℕ) → IsTypeRow t → (has_secondary v ≡ false → IsPlainType t) → (record_type_format v).Holds t }
{}

/// The limits of a line, in plain words, and the converse.
#[tactic(auto, using(crate::proofs::LineLaws::line_kept, crate::proofs::LineLaws::line_from))]
pub fn lines_are_plain()
    ensures plain { (l : LineRow) → line.Holds l → IsLineRow l }
    ensures whole { (l : LineRow) → IsLineRow l → line.Holds l }
{}
