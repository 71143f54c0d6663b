//! Laws of the definitions that the other contracts cite. The functions do nothing: they are called only for their contracts.
ghost use Rattle.std.specs.Prelude.{◌≡◌, ◌↔◌, ℕ, ◌^◌, ◌<◌, ◌≤◌, ℤ, Bool, List, length, nat_lt, unsigned_abs, IsTrue, Some};
ghost use Rattle.std.specs.List.{list_all, range_with_len};
ghost use Rattle.rpg_decimal_words.specs.Fraction.{Fraction, stored_number};
ghost use Rattle.rpg_decimal.specs.Laws.{MovesFromRight, MovesFromLeft, MovesDigitsFromRight, MovesDigitsFromLeft, SpellsByPlaces, SpellsPlainly};
ghost use Rattle.rpg_decimal_words.specs.Move.{overlay_right, overlay_left, number_moved_right, number_moved_left};
ghost use Rattle.rpg_decimal_words.specs.Order.{collating_sequence, rank};
ghost use Rattle.rpg_decimal.specs.Source.{moved_right, moved_left};
ghost use Rattle.rpg_decimal_words.specs.Zoned.{zoned_text, number_in, Spells};
ghost use Rattle.rpg_decimal.specs.declared.moves.Source.{Source};

/// A move goes digit by digit, and takes the sign with the last one.
pub fn moves_go_by_places()
    ensures right { (source old : List ℕ) → MovesFromRight source old (overlay_right source old) }
    ensures left { (source old : List ℕ) → MovesFromLeft source old (overlay_left source old) }
    ensures right_digits { (k : ℕ) (n : ℤ) (len : ℕ) (old : ℤ) → MovesDigitsFromRight k n len old (number_moved_right k n len old) }
    ensures left_digits { (k : ℕ) (n : ℤ) (len : ℕ) (old : ℤ) → MovesDigitsFromLeft k n len old (number_moved_left k n len old) }
{}

/// A text represents the number with these digits in its places, and a number has one plain text of each length.
pub fn texts_spell_by_places()
    ensures spells { (text : List ℕ) (n : ℤ) → Spells text n ↔ SpellsByPlaces text n }
    ensures written { (k : ℕ) (n : ℤ) → 1 ≤ k → unsigned_abs n < 10 ^ k → SpellsPlainly (zoned_text k n) n }
    ensures long { (k : ℕ) (n : ℤ) → 1 ≤ k → length (zoned_text k n) ≡ k }
    ensures read { (text : List ℕ) (n : ℤ) → (number_in text ≡ Some n) ↔ Spells text n }
    ensures read_back { (k : ℕ) (n : ℤ) → 1 ≤ k → unsigned_abs n < 10 ^ k → number_in (zoned_text k n) ≡ Some n }
    ensures alone { (text : List ℕ) (n : ℤ) → 1 ≤ length text → SpellsPlainly text n → text ≡ zoned_text (length text) n }
{}

/// A number that is stored in a form, or moved to one, fits it.
pub fn stored_numbers_fit()
    ensures stored { (half : Bool) (dec len : ℕ) (p : Fraction) → unsigned_abs (stored_number half dec len p) < 10 ^ len }
    ensures right { (source : Source) (len : ℕ) (old n : ℤ) → 1 ≤ len → moved_right source len old ≡ Some n → unsigned_abs n < 10 ^ len }
    ensures left { (source : Source) (len : ℕ) (old n : ℤ) → 1 ≤ len → moved_left source len old ≡ Some n → unsigned_abs n < 10 ^ len }
{}

/// The collating sequence contains each of the 95 characters, from the blank to `~`, once.
#[tactic(auto, unfolding(rpg_decimal_words::specs::Order::rank, rpg_decimal_words::specs::Order::collating_sequence))]
pub fn each_character_has_one_place()
    ensures count { length collating_sequence ≡ 95 }
    ensures every { IsTrue (list_all (λ c. nat_lt (rank c) 95) (range_with_len 32 95)) }
{}
