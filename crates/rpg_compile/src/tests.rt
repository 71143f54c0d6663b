//! The tests of a group of C cards: one for each card that has conditions.

ghost use Rattle.std.specs.Prelude.{◌≡◌, ◌+◌, ◌++◌, ◌<◌, length, map, [], ◌∷◌, OnOk, IfSome, MatchOption};
ghost use Rattle.std.specs.Option.{option_to_list};
ghost use Rattle.rpg_compile_program.specs.Code as code_of;
ghost use Rattle.rpg_compile.specs.Tests as tests;
ghost use Rattle.rpg_program.specs.Kept.{AreConditions};

use crate::code::Code;
use rpg_cards::{SpecCard, is_or, test};
use rpg_program::condition::Conditions;
use rpg_program::operation::Instruction;
use std::alloc::AllocError;

/// Returns the conditions of a card, if it has any.
fn test_at(card: &SpecCard) -> Option<Conditions>
    ensures value { option_to_list result ≡ tests.tests_at card.now }
    ensures kept { IfSome result AreConditions }
{
    test(card.calculation()?)
}

/// Counts the cards that have conditions.
pub(crate) fn count_tests(cards: &[SpecCard]) -> u16
    requires { length (tests.tests_in cards.now) < 65536 }
    ensures { result ≡ length (tests.tests_in cards.now) }
{
    let mut count = 0;
    for card in cards {
        if test_at(card).is_some() {
            count += 1;
        }
    }
    count
}

/// Appends the tests of the last alternative: each SKIPs past the group.
fn push_last(code: &mut Code, cards: &[SpecCard], following: u16) -> Result<(), AllocError>
    ensures { OnOk result (code.new ≡ code.old ++ map (code_of.skip_code following) (tests.tests_in cards.now)) }
{
    for card in cards {
        if let Some(conditions) = test_at(card) {
            code.push(Instruction::Branch {
                is_taken_where: false,
                conditions,
                target: following,
            })?;
        }
    }
    Ok(())
}

/// Appends the tests of an alternative before the last: SKIPs to the next alternative, and as the last of `count` a JUMP to the operation.
fn push_alternative(
    code: &mut Code,
    cards: &[SpecCard],
    count: u16,
    next: u16,
    operation: u16,
) -> Result<(), AllocError>
    requires { count ≡ length (tests.tests_in cards.now) }
    ensures { OnOk result (code.new ≡ code.old ++ code_of.alternative_code next operation (tests.tests_in cards.now)) }
{
    let mut left = count;
    for card in cards {
        if let Some(conditions) = test_at(card) {
            let is_last = left == 1;
            code.push(Instruction::Branch {
                is_taken_where: is_last,
                conditions,
                target: if is_last { operation } else { next },
            })?;
            left -= 1;
        }
    }
    Ok(())
}

/// Whether a card begins an alternative.
fn begins(card: &SpecCard) -> bool
    ensures { result ≡ tests.begins_alternative card.now }
{
    match card.calculation() {
        Some(calculation) => is_or(calculation),
        None => false,
    }
}

/// Returns where the next alternative begins, if there is one.
#[tactic(auto, using(crate::proofs::Alternatives::begins_here, crate::proofs::Alternatives::continues))]
fn next_alternative(cards: &[SpecCard]) -> Option<usize>
    requires { 0 < length cards.now }
    ensures { MatchOption result (tests.alternatives_in cards.now ≡ tests.tests_in cards.now ∷ [])
        (λ n. tests.IsSecondAlternative cards.now n) }
{
    for i in 1..cards.len() {
        if begins(&cards[i]) {
            return Some(i);
        }
    }
    None
}

/// Appends the tests of a group's cards, the first at `place`. `following` is the place after the group.
#[tactic(auto, using(crate::proofs::Alternatives::tests_step))]
pub(crate) fn push_tests(
    code: &mut Code,
    cards: &[SpecCard],
    place: u16,
    operation: u16,
    following: u16,
) -> Result<(), AllocError>
    requires some { 0 < length cards.now }
    requires places { place + length (tests.tests_in cards.now) < 65536 }
    ensures { OnOk result (code.new ≡ code.old ++ code_of.tests_code place operation following (tests.alternatives_in cards.now)) }
{
    let mut at = place;
    let mut rest = cards;
    while let Some(end) = next_alternative(rest) {
        let (alternative, others) = rest.split_at(end);
        let count = count_tests(alternative);
        push_alternative(code, alternative, count, at + count, operation)?;
        at += count;
        rest = others;
    }
    push_last(code, rest, following)
}
