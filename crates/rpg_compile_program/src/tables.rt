//! The values of a table, from the cards of its deck.

ghost use Rattle.std.specs.Prelude.{◌≡◌, ◌++◌, ◌+◌, ◌≤◌, ◌<◌, ◌^◌, false, pos, length, map, unwrap_or, slice_range, IfOk, OnOk};
ghost use Rattle.rpg_program.specs.Values.{entries_held, held};
ghost use Rattle.rpg_faults_limits.specs.Names.{bad_size_of_table};
ghost use Rattle.rpg_decimal_words.specs.Zoned.{number_in};
ghost use Rattle.rpg_faults_data.specs.Data.{entry_on};
ghost use Rattle.rpg_compile_program.specs.Data.{entry_value};

use rpg_cards::SpecCard;
use rpg_faults_data::number_in;
use rpg_program::value::{FieldValues, Value};
use rpg_sheet_specs::{DataSpec, TableSpec};
use std::alloc::{AllocError, Global};

/// Where the entries of a table are.
#[derive(Clone, Copy)]
pub(crate) struct TableData<'a> {
    pub table: &'a TableSpec,
    pub entries: u16,
    pub per_card: u16,
    /// How many columns each takes, including that of an alternating table.
    pub width: u32,
    /// The first column of the first, counted from 0.
    pub from: u16,
    /// The cards after the `**` card.
    pub deck: &'a [SpecCard],

    ghost sized: { bad_size_of_table table.now ≡ false },
}

impl TableData<'_> {
    ghost use Rattle.rpg_compile_program.specs.Tables.{values_on, values_on_card};

    pub(crate) fn values(self, alloc: Global) -> Result<FieldValues, AllocError>
        ensures { IfOk result (λ v. entries_held v ≡ values_on self.entry) }
    {
        let mut values = Vec::with_capacity(alloc, self.entries as usize)?;
        let mut left = self.entries;
        for card in self.deck {
            match card.data() {
                None => {}
                Some(DataSpec::Begin) => return Ok(FieldValues::Many(values)),
                Some(DataSpec::Card(data)) => {
                    let number = left.min(self.per_card);
                    self.add_entries(alloc, data.as_slice(), number, &mut values)?;
                    left -= number;
                }
            }
        }
        Ok(FieldValues::Many(values))
    }

    /// Appends the first `count` entries of a card.
    fn add_entries(
        self,
        alloc: Global,
        card: &[u8],
        number: u16,
        values: &mut Vec<Value>,
    ) -> Result<(), AllocError>
        ensures { OnOk result (map held values.new.items ≡ map held values.old.items ++ values_on_card self.entry card.now number) }
    {
        for i in 0..number {
            values.push(value_of(alloc, self.table, self.entry(card, i))?)?;
        }
        Ok(())
    }

    /// Returns an entry on a card, by its number from 0.
    fn entry(self, card: &[u8], number: u16) -> &[u8]
        ensures value { result.now ≡ entry_on self.entry.width self.entry.from self.entry.table.now.length card.now number }
        ensures length { length result.now ≤ self.entry.table.now.length }
    {
        let start = number as usize * self.width as usize + self.from as usize;
        part(card, start, self.table.length as usize)
    }
}

/// Returns the `count` characters from `start` on; none after the end.
fn part(text: &[u8], start: usize, count: usize) -> &[u8]
    requires { start + count < 2 ^ 64 }
    ensures value { result.now ≡ slice_range text.now start (start + count) }
    ensures length { length result.now ≤ count }
{
    let end = start + count;
    if end <= text.len() {
        return &text[start..end];
    }
    &text[start.min(text.len())..]
}

/// Returns the value of a table's entry, zero if it should be a number but isn't.
fn value_of(alloc: Global, table: &TableSpec, text: &[u8]) -> Result<Value, AllocError>
    requires size { bad_size_of_table table.now ≡ false }
    requires length { length text.now ≤ table.now.length }
    ensures { IfOk result (λ v. held v ≡ entry_value table.now text.now) }
{
    match table.decimals {
        None => Ok(Value::Text(Vec::from_slice(alloc, text)?)),
        Some(_) => Ok(Value::Number(number_or_zero(text))),
    }
}

fn number_or_zero(text: &[u8]) -> i64
    requires { length text.now ≤ 15 }
    ensures { result ≡ unwrap_or (number_in text.now) (pos 0) }
{
    if text.is_empty() {
        return 0;
    }
    number_in(text).unwrap_or(0)
}
