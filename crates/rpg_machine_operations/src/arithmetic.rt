//! Arithmetic: computing a result, and storing it.
ghost use Rattle.std.specs.Prelude.{◌≡◌, ◌≢◌, ◌<◌, ◌≤◌, ◌+◌, ◌^◌, pos, true, false, None, if◌then◌else◌, unsigned_abs, IfSome};
ghost use Rattle.rpg_decimal_words.specs.Fraction.{stored_number, times, with_decimals};
ghost use Rattle.rpg_decimal.specs.Num.{value_of};
ghost use Rattle.rpg_program.specs.Act as acts;
ghost use Rattle.rpg_program.specs.Ends.{end_of};
ghost use Rattle.rpg_program.specs.Forms.{length_of};
ghost use Rattle.rpg_program.specs.World.{number_at};
ghost use Rattle.rpg_program.specs.declared.form.Kind.TheVariants as kinds;
ghost use Rattle.rpg_program.specs.declared.operation.Action.TheVariants as actions;
ghost use Rattle.rpg_memory.specs.Fields.{IsValue};
ghost use Rattle.rpg_memory.specs.Memory.{NamesNumber, data_put, forms_in, rest_value};
ghost use Rattle.rpg_machine_operations.specs.Fixed.{are_aligned};
ghost use Rattle.rpg_machine_operations.specs.Words.{AreNumbersNamed, DidOperate, FitsResult, IsNumberOperand, act_in, assigned_in, computed_in, quotient_in, stored_value_in, with_remainder_of};
ghost use Rattle.rpg_memory.specs.Doing.{DidData};

use crate::resolving::number_named;
use rpg_decimal::{Num, Rest, Scale, Target, add, div, fit, keep, mult, remainder, sub};
use rpg_memory::memory::Memory;
use rpg_memory::numbers::{number_at, target_of};
use rpg_memory::resolved::Resolved;
use rpg_program::halt::Halt;
use rpg_program::operation::{Entry, Operand, Operator, Shows};
use rpg_program::outcome::End;
use rpg_store::store::Store;

/// Stores a number, and sets the indicators for it.
pub(crate) fn store<S: Store + Drop>(
    memory: &mut Memory<'_, S>,
    to: Entry<u16>,
    shows: Shows,
    n: i64,
)
    requires to { IsValue memory.old.program.fields kinds.Number to.field to.position }
    requires length { unsigned_abs n < 10 ^ length_of (forms_in memory.old to.field) }
    ensures { memory.new ≡ data_put (acts.store memory.old.world.data to shows n) memory.old }
{
    memory.set_number(to.field, to.position, n);
    memory.show(shows, n.cmp(&0));
}

/// Returns an operator's result for two numbers.
#[inline(always)]
pub(crate) fn operated(operator: Operator, a: Num, b: Num, target: Target) -> i64
    ensures value { result ≡ stored_number target.half target.dec target.len (acts.computed operator (value_of a) (value_of b)) }
    ensures length { unsigned_abs result < 10 ^ target.len }
{
    match operator {
        Operator::Add => add(a, b, target),
        Operator::Subtract => sub(a, b, target),
        Operator::Multiply => mult(a, b, target),
    }
}

/// Returns the product of numbers with the target's decimals.
#[inline(always)]
fn product_aligned(a: Num, b: Num, target: Target) -> i64
    requires { a.dec + b.dec ≡ target.dec }
    ensures value { result ≡ stored_number target.half target.dec target.len (times (value_of a) (value_of b)) }
    ensures length { unsigned_abs result < 10 ^ target.len }
{
    let product = i128::from(a.value) * i128::from(b.value);
    fit(product, target.len)
}

/// Returns an operator's result, which has the target's decimals: no number is shifted.
#[inline(always)]
pub(crate) fn operated_aligned(operator: Operator, a: Num, b: Num, target: Target) -> i64
    requires { are_aligned operator a.dec b.dec target.dec ≡ true }
    ensures value { result ≡ stored_number target.half target.dec target.len (acts.computed operator (value_of a) (value_of b)) }
    ensures length { unsigned_abs result < 10 ^ target.len }
{
    let a_there = Num {
        value: a.value,
        dec: target.dec,
    };
    let b_there = Num {
        value: b.value,
        dec: target.dec,
    };
    match operator {
        Operator::Add => add(a_there, b_there, target),
        Operator::Subtract => sub(a_there, b_there, target),
        Operator::Multiply => product_aligned(a, b, target),
    }
}

/// Returns the result of ADD, SUB and MULT.
fn computed<S: Store + Drop>(
    memory: &Memory<'_, S>,
    operator: Operator,
    half: bool,
    factor1: Resolved,
    factor2: Resolved,
    to: Resolved,
) -> i64
    requires { AreNumbersNamed memory.now factor1 factor2 to }
    ensures value { result ≡ computed_in memory.now operator half factor1 factor2 to }
    ensures length { FitsResult memory.now to result }
{
    let a = number_at(memory, factor1);
    let b = number_at(memory, factor2);
    operated(operator, a, b, target_of(memory, to, half))
}

/// Returns a number as the target keeps it, negated if requested.
#[inline(always)]
pub(crate) fn kept_with_sign(is_negated: bool, b: Num, target: Target) -> i64
    ensures value { result ≡ stored_number target.half target.dec target.len (with_decimals (acts.assigned is_negated b.value) b.dec) }
    ensures length { unsigned_abs result < 10 ^ target.len }
{
    let n = i128::from(signed(is_negated, b.value));
    keep(n, Scale { value: b.dec }, target)
}

/// Like `kept_with_sign`, for a number with the target's decimals.
#[inline(always)]
pub(crate) fn kept_aligned(is_negated: bool, b: Num, target: Target) -> i64
    requires { b.dec ≡ target.dec }
    ensures value { result ≡ stored_number target.half target.dec target.len (with_decimals (acts.assigned is_negated b.value) b.dec) }
    ensures length { unsigned_abs result < 10 ^ target.len }
{
    fit(i128::from(signed(is_negated, b.value)), target.len)
}

/// Returns the result of Z-ADD and Z-SUB.
fn assigned<S: Store + Drop>(
    memory: &Memory<'_, S>,
    is_negated: bool,
    half: bool,
    factor2: Resolved,
    to: Resolved,
) -> i64
    requires factor2 { NamesNumber memory.now factor2 }
    requires to { NamesNumber memory.now to }
    ensures value { result ≡ stored_value_in memory.now half to (assigned_in memory.now is_negated factor2) }
    ensures length { FitsResult memory.now to result }
{
    let b = number_at(memory, factor2);
    kept_with_sign(is_negated, b, target_of(memory, to, half))
}

/// Returns the number, negated if requested.
fn signed(is_negated: bool, n: i64) -> i64
    requires { unsigned_abs n < 10 ^ 15 }
    ensures value { result ≡ acts.assigned is_negated n }
    ensures bound { unsigned_abs result < 10 ^ 15 }
{
    if is_negated { -n } else { n }
}

/// Returns the remainder of a division.
fn left_over(a: Num, b: Num, dec: u8) -> Rest
    requires divisor { b.value ≢ pos 0 }
    requires decimals { dec ≤ 9 }
    ensures { rest_value result ≡ acts.left_over (value_of a) a.dec (value_of b) b.dec dec }
{
    match remainder(a, b, dec) {
        Ok(rest) => rest,
        Err(_) => unreachable!(),
    }
}

/// Returns the remainder after a division: the previous one if the quotient is half adjusted.
fn left_after(before: Rest, half: bool, a: Num, b: Num, dec: u8) -> Rest
    requires divisor { b.value ≢ pos 0 }
    requires decimals { dec ≤ 9 }
    ensures { rest_value result ≡ (if half then rest_value before else acts.left_over (value_of a) a.dec (value_of b) b.dec dec) }
{
    if half { before } else { left_over(a, b, dec) }
}

/// Returns a quotient as the result field keeps it, and keeps the remainder. None for a zero divisor.
fn divided<S: Store + Drop>(
    memory: &mut Memory<'_, S>,
    half: bool,
    factor1: Resolved,
    factor2: Resolved,
    to: Resolved,
) -> Option<i64>
    requires { AreNumbersNamed memory.old factor1 factor2 to }
    ensures quotient { result ≡ quotient_in memory.old half factor1 factor2 to }
    ensures left { IfSome result (λ n. FitsResult memory.old to n × (memory.new ≡ data_put (with_remainder_of memory.old half factor1 factor2 to) memory.old)) }
    ensures none { result ≡ None → memory.new ≡ memory.old }
{
    let a = number_at(memory, factor1);
    let b = number_at(memory, factor2);
    let target = target_of(memory, to, half);
    match div(a, b, target) {
        Err(_) => None,
        Ok(quotient) => {
            let left = left_after(memory.remainder(), half, a, b, target.dec);
            memory.set_remainder(left);
            Some(quotient)
        }
    }
}

/// Returns the result of MVR: the remainder of the last division.
fn kept_remainder<S: Store + Drop>(memory: &Memory<'_, S>, to: Resolved) -> i64
    requires { NamesNumber memory.now to }
    ensures value { result ≡ stored_value_in memory.now false to memory.now.world.data.remainder }
    ensures length { FitsResult memory.now to result }
{
    let rest = memory.remainder();
    keep(rest.value, rest.dec, target_of(memory, to, false))
}

/// ADD, SUB and MULT. None if an index is out of range.
#[tactic(auto, unfolding(rpg_program::specs::Act::act, rpg_program::specs::Operate::has_entries, rpg_program::specs::Operate::operate, rpg_program::specs::Operate::resolved, rpg_program::specs::Rows::row_of))]
pub fn compute<S: Store + Drop>(
    memory: &mut Memory<'_, S>,
    operator: Operator,
    half: bool,
    factor1: &Operand<u16>,
    factor2: &Operand<u16>,
    to: &Operand<u16>,
    shows: Shows,
) -> Option<End>
    requires factor1 { IsNumberOperand memory.old factor1.now }
    requires factor2 { IsNumberOperand memory.old factor2.now }
    requires to { IsNumberOperand memory.old to.now }
    ensures { DidOperate (actions.Compute operator half factor1.now factor2.now to.now shows) memory.old result memory.new }
{
    let factor1 = number_named(memory, factor1)?;
    let factor2 = number_named(memory, factor2)?;
    let to = number_named(memory, to)?;
    let n = computed(memory, operator, half, factor1, factor2, to);
    store(memory, to.entry, shows, n);
    Some(End::Continues)
}

/// Divides, stores the quotient and keeps the remainder. A zero divisor is halt 1.
#[tactic(auto, unfolding(rpg_program::specs::Act::act))]
fn divide_numbers<S: Store + Drop>(
    memory: &mut Memory<'_, S>,
    half: bool,
    factor1: Resolved,
    factor2: Resolved,
    to: Resolved,
    shows: Shows,
) -> End
    requires { AreNumbersNamed memory.old factor1 factor2 to }
    ensures { DidData (act_in memory.old (actions.Divide half factor1 factor2 to shows)) memory.old (end_of result) memory.new }
{
    let Some(quotient) = divided(memory, half, factor1, factor2, to) else {
        return End::Halt(Halt::ZeroDivisor);
    };
    store(memory, to.entry, shows, quotient);
    End::Continues
}

/// DIV. None if an index is out of range.
#[tactic(auto, unfolding(rpg_program::specs::Act::act, rpg_program::specs::Operate::has_entries, rpg_program::specs::Operate::operate, rpg_program::specs::Operate::resolved, rpg_program::specs::Rows::row_of))]
pub fn divide<S: Store + Drop>(
    memory: &mut Memory<'_, S>,
    half: bool,
    factor1: &Operand<u16>,
    factor2: &Operand<u16>,
    to: &Operand<u16>,
    shows: Shows,
) -> Option<End>
    requires factor1 { IsNumberOperand memory.old factor1.now }
    requires factor2 { IsNumberOperand memory.old factor2.now }
    requires to { IsNumberOperand memory.old to.now }
    ensures { DidOperate (actions.Divide half factor1.now factor2.now to.now shows) memory.old result memory.new }
{
    let factor1 = number_named(memory, factor1)?;
    let factor2 = number_named(memory, factor2)?;
    let to = number_named(memory, to)?;
    Some(divide_numbers(memory, half, factor1, factor2, to, shows))
}

/// Z-ADD and Z-SUB. None if an index is out of range.
#[tactic(auto, unfolding(rpg_program::specs::Act::act, rpg_program::specs::Operate::has_entries, rpg_program::specs::Operate::operate, rpg_program::specs::Operate::resolved, rpg_program::specs::Rows::row_of))]
pub fn assign<S: Store + Drop>(
    memory: &mut Memory<'_, S>,
    is_negated: bool,
    half: bool,
    factor2: &Operand<u16>,
    to: &Operand<u16>,
    shows: Shows,
) -> Option<End>
    requires factor2 { IsNumberOperand memory.old factor2.now }
    requires to { IsNumberOperand memory.old to.now }
    ensures { DidOperate (actions.Assign is_negated half factor2.now to.now shows) memory.old result memory.new }
{
    let factor2 = number_named(memory, factor2)?;
    let to = number_named(memory, to)?;
    let n = assigned(memory, is_negated, half, factor2, to);
    store(memory, to.entry, shows, n);
    Some(End::Continues)
}

/// MVR. None if an index is out of range.
#[tactic(auto, unfolding(rpg_program::specs::Act::act, rpg_program::specs::Operate::has_entries, rpg_program::specs::Operate::operate, rpg_program::specs::Operate::resolved, rpg_program::specs::Rows::row_of))]
pub fn take_remainder<S: Store + Drop>(
    memory: &mut Memory<'_, S>,
    to: &Operand<u16>,
    shows: Shows,
) -> Option<End>
    requires { IsNumberOperand memory.old to.now }
    ensures { DidOperate (actions.TakeRemainder to.now shows) memory.old result memory.new }
{
    let to = number_named(memory, to)?;
    let n = kept_remainder(memory, to);
    store(memory, to.entry, shows, n);
    Some(End::Continues)
}
