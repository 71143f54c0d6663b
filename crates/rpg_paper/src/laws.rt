//! Laws about the definitions. Each function here does nothing: its contract is the law, for callers' proofs.

ghost use Rattle.std.specs.Prelude.{◌≡◌, ℕ, ◌+◌, ◌≤◌, List, ◌++◌, Option};
ghost use Rattle.rpg_paper.specs.Paper.{Placed, Position, bytes_from, last_position, lines_to, paper, reaches_overflow, skipped, space_turns_on, spaced, standard_page};
ghost use Rattle.rpg_paper.specs.declared.form.Page.{Page};
ghost use Rattle.rpg_paper.specs.Form.{FormLine, line_of, placed_after, form_bytes};

/// Lines placed after others add to the paper what they add after its last line.
pub fn lines_follow_lines()
    ensures { (xs ys : List Placed) → paper (xs ++ ys) ≡ paper xs ++ bytes_from (last_position xs) ys }
{}

/// A space of n lines passes n lines of the paper.
pub fn spaces_pass_lines()
    ensures { (page : Page) (n : ℕ) (p : Position) → lines_to page (spaced page n p) ≡ lines_to page p + n }
{}

/// A skip leads to the first line of the paper with this number that isn't before the present one.
pub fn skips_lead_to_the_next_such_line()
    ensures line { (line : ℕ) (p : Position) → (skipped line p).line ≡ line }
    ensures not_back { (page : Page) (line : ℕ) (p : Position) → p.line ≤ page.lines → lines_to page p ≤ lines_to page (skipped line p) }
    ensures first { (page : Page) (line : ℕ) (p q : Position) → line ≤ page.lines → 1 ≤ p.line → q.line ≡ line
        → lines_to page p ≤ lines_to page q → lines_to page (skipped line p) ≤ lines_to page q }
{}

/// On the standard page a space of at most 3 lines turns the overflow indicator on only on its page.
pub fn standard_spaces_turn_on_only_on_their_page()
    ensures { (n : ℕ) (p : Position) → n ≤ 3 → space_turns_on standard_page n p ≡ reaches_overflow standard_page p (spaced standard_page n p) }
{}

/// Pages counted from the previous line give the bytes of the positions.
pub fn counted_pages_give_positions()
    ensures { (previous : Option Position) (xs : List FormLine)
        → bytes_from previous (placed_after previous xs) ≡ form_bytes (line_of previous) xs }
{}
