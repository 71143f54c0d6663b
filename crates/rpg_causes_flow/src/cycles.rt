//! Recursive calls: calls between subroutines whose callee reaches the caller.

ghost use Rattle.std.specs.Prelude.{◌≡◌, ℕ, ◌+◌, ◌-◌, ◌≤◌, ◌<◌, ◌==◌, ◌&&◌, length, slice_index, true, IfOk, OnOk};
ghost use Rattle.std.specs.List.{list_any};
ghost use Rattle.rpg_causes_flow.specs.Index as index;
ghost use Rattle.rpg_symbols.specs.Chains.{Calls};

use std::alloc::{AllocError, Global};

/// How many subroutines a word has bits for.
const WIDTH: usize = 64;

/// Returns the calls, as caller and callee, whose callee reaches the caller.
pub(crate) fn cycles(alloc: Global, calls: &[(u16, u16)]) -> Result<Vec<(u16, u16)>, AllocError>
    ensures { IfOk result (λ found. index.AreCycles found.items calls.now) }
{
    let count = count(calls);
    let mut found = Vec::new(alloc);
    let mut first = 0;
    while first < count {
        let words = reaching(alloc, first, count, calls)?;
        push_cycles(&mut found, first, words.as_slice(), calls)?;
        first += WIDTH;
    }
    Ok(found)
}

/// Returns a number greater than those of all callers and callees.
fn count(calls: &[(u16, u16)]) -> usize
    ensures below { index.AreBelow result calls.now }
    ensures most { result ≤ 65536 }
{
    let mut count = 0;
    for call in calls {
        let (caller, callee) = *call;
        count = count
            .max(usize::from(caller) + 1)
            .max(usize::from(callee) + 1);
    }
    count
}

/// Returns a word for each subroutine, with a bit set for each of the 64 subroutines from `first` on that it reaches.
fn reaching(
    alloc: Global,
    first: usize,
    count: usize,
    calls: &[(u16, u16)],
) -> Result<Vec<u64>, AllocError>
    requires below { index.AreBelow count calls.now }
    ensures { IfOk result (λ words. index.IsReaching (length calls.now) calls.now first count words.items) }
{
    let mut words = vec![in alloc; 0; count]?;
    let mut next = vec![in alloc; 0; count]?;
    reach(first, calls, words.as_mut_slice(), next.as_mut_slice());
    Ok(words)
}

/// Fills the words, one call further each time, up to the number of calls: once a pass changes nothing, none will.
fn reach(first: usize, calls: &[(u16, u16)], words: &mut [u64], next: &mut [u64])
    requires below { index.AreBelow (length words.old) calls.now }
    requires same { length next.old ≡ length words.old }
    ensures { index.IsReaching (length calls.now) calls.now first (length words.old) words.new }
{
    reach_itself(first, words);
    for _ in 0..calls.len() {
        reach_further(first, calls, words, next);
        if are_same(words, next) {
            return;
        }
        words.copy_from_slice(next);
    }
}

fn are_same(words: &[u64], others: &[u64]) -> bool
    ensures { result ≡ true → others.now ≡ words.now }
{
    words == others
}

/// Fills `next` with what one more call reaches.
fn reach_further(first: usize, calls: &[(u16, u16)], words: &[u64], next: &mut [u64])
    requires below { index.AreBelow (length words.now) calls.now }
    requires same { length next.old ≡ length words.now }
    ensures same { length next.new ≡ length words.now }
    ensures reaching { index.ReachesFurther calls.now first words.now next.new }
{
    reach_itself(first, next);
    spread(calls, words, next);
}

fn reach_itself(first: usize, words: &mut [u64])
    ensures { (calls : Calls) → index.IsReaching 0 calls first (length words.old) words.new }
{
    for number in 0..words.len() {
        words[number] = own_bit(first, number);
    }
}

/// Returns the bit of a subroutine, 0 if it isn't among the 64.
fn own_bit(first: usize, number: usize) -> u64
    ensures { (i : ℕ) → i < 64 → index.has_word_bit result i ≡ (number == first + i) }
{
    if first <= number && number - first < WIDTH {
        1 << (number - first)
    } else {
        0
    }
}

/// A caller reaches what its callee reaches.
fn spread(calls: &[(u16, u16)], words: &[u64], next: &mut [u64])
    requires below { index.AreBelow (length words.now) calls.now }
    requires same { length next.old ≡ length words.now }
    ensures same { length next.new ≡ length next.old }
    ensures bits { index.Spreads calls.now words.now next.old next.new }
{
    for call in calls {
        let (caller, callee) = *call;
        let word = words[usize::from(callee)];
        next[usize::from(caller)] |= word;
    }
}

/// Appends the calls by the 64 subroutines whose callee reaches the caller.
fn push_cycles(
    found: &mut Vec<(u16, u16)>,
    first: usize,
    words: &[u64],
    calls: &[(u16, u16)],
) -> Result<(), AllocError>
    requires below { index.AreBelow (length words.now) calls.now }
    requires reaching { index.IsReaching (length calls.now) calls.now first (length words.now) words.now }
    ensures { OnOk result (index.AddsCycles first calls.now found.old.items found.new.items) }
{
    for call in calls {
        if leads_back(first, words, *call) {
            found.push(*call)?;
        }
    }
    Ok(())
}

/// Whether the caller is among the 64 subroutines, and its callee reaches it.
fn leads_back(first: usize, words: &[u64], call: (u16, u16)) -> bool
    requires { call.1 < length words.now }
    ensures { result ≡ (index.is_in_word first call.0 && index.has_word_bit (slice_index words.now call.1) (call.0 - first)) }
{
    let (caller, callee) = call;
    let caller = usize::from(caller);
    first <= caller
        && caller - first < WIDTH
        && words[usize::from(callee)] >> (caller - first) & 1 == 1
}

pub(crate) fn has_call(calls: &[(u16, u16)], call: (u16, u16)) -> bool
    ensures { result ≡ list_any (index.same_call call) calls.now }
{
    calls
        .iter()
        .any(|known| call.0 == known.0 && call.1 == known.1)
}
