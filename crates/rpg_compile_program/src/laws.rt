//! Laws of the definitions. The functions do nothing: they are called only for their contracts.

ghost use Rattle.std.specs.Ordering.{nat_cmp};
ghost use Rattle.std.specs.Prelude.{◌≡◌, ℕ, List, map};
ghost use Rattle.rpg_cards.specs.Keys.{Key, key_cmp};
ghost use Rattle.rpg_cards.specs.declared.spec_card.SpecCard.{SpecCard};
ghost use Rattle.rpg_program.specs.Forms.{form_at};
ghost use Rattle.rpg_program.specs.Constants.{word_at};
ghost use Rattle.rpg_program.specs.Object.{lines_of};
ghost use Rattle.rpg_program.specs.Naming.{IsRenaming, renamed_line};
ghost use Rattle.rpg_compile_program.specs.Lines.{lines_on};
ghost use Rattle.rpg_compile_program.specs.Program.{HasCodeOf, key_numbers, key_words, program_of};
ghost use Rattle.rpg_verify_rules.specs.Accepted.{IsAccepted};
ghost use Rattle.rpg_compile_program.specs.Ranges.{AreCards};
ghost use Rattle.rpg_compile_program.specs.Rules.{KeepsCardRules};
ghost use Rattle.rpg_compile_program.specs.Table as tables;

/// A key's number leads to the key's form, and a key that has a form shares its number with no other.
pub fn numbers_are_a_renaming()
    ensures { (t : tables.Table) → IsRenaming key_cmp nat_cmp (tables.key_form t) (form_at (tables.forms t)) (tables.key_number t) }
{}

/// The program's lines and words are those of the cards by name, and its code is that of their sections.
pub fn programs_say_what_cards_say()
    ensures lines { (cards : List SpecCard) (allowance : ℕ) → lines_of (program_of cards allowance) ≡ map (renamed_line (key_numbers cards)) (lines_on cards) }
    ensures words { (cards : List SpecCard) (allowance : ℕ) (k : Key) → word_at (program_of cards allowance) (key_numbers cards k) ≡ key_words cards k }
    ensures code { (cards : List SpecCard) (allowance : ℕ) → HasCodeOf cards (program_of cards allowance) }
{}

/// The verifier accepts the program of cards that obey the rules of cards: it obeys all rules of programs.
pub fn programs_are_accepted()
    ensures { (cards : List SpecCard) (allowance : ℕ) → KeepsCardRules cards → AreCards cards → IsAccepted (program_of cards allowance) }
{}
