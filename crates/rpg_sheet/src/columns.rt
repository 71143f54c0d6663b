//! Reads the values of column ranges, each with one call. An error names the range's first column. An optional value is None for blanks.
#![tactic(auto, unfolding(rpg_sheet_specs::specs::Columns::values, rpg_sheet_specs::specs::Columns::at_with, rpg_sheet_specs::specs::Columns::also, rpg_sheet_specs::specs::Values::blank_or, rpg_sheet_specs::specs::Tables::conditions, rpg_sheet_specs::specs::Tables::three_indicators))]

ghost use Rattle.std.specs.Prelude.{◌≡◌, ◌≤◌, None, Some, Ok, Err, ok_or, option_map, if◌then◌else◌};
ghost use Rattle.rpg_sheet.specs.Put.{put};
ghost use Rattle.rpg_sheet.specs.Ranges.{conditions_from, indicators_from, line_from};
ghost use Rattle.rpg_sheet_specs.specs.Columns.{column_fault_from};
ghost use Rattle.rpg_sheet_specs.specs.Tables as tables;
ghost use Rattle.rpg_sheet_specs.specs.Values as values;
ghost use Rattle.rpg_text.specs.Texts.{all_blank};

use crate::card::Card;
use rpg_sheet_specs::{
    CardColumns, ColumnFault, ConditionSpec, Entry, Factor, Indicator, Operation, RecordCode,
    TextLiteral, Three, Within, Word,
};
use rpg_sheet_values::has_only_blanks;

/// The value of columns, or the fault that it is bad.
pub(crate) type Read<T> = Result<T, ColumnFault>;

/// Returns the value of columns, or their fault if there is none.
pub(crate) fn at<T, const WIDTH: usize>(columns: CardColumns<WIDTH>, value: Option<T>) -> Read<T>
    ensures { result ≡ ok_or value (column_fault_from columns.entry.first WIDTH) }
{
    value.ok_or(columns.fault())
}

/// Reads blanks as None, else the value of the text in these columns.
#[inline(always)]
pub(crate) fn optional<T: Drop, const WIDTH: usize>(
    columns: CardColumns<WIDTH>,
    text: &[u8],
    value: Option<T>,
) -> Read<Option<T>>
    ensures { result ≡ ok_or (if all_blank text.now then Some None else option_map Some value) (column_fault_from columns.entry.first WIDTH) }
{
    at(columns, rpg_sheet_values::blank_or(text, value))
}

impl Card {
    /// Reads a name of at most `N` characters.
    pub(crate) fn name<const N: usize>(&self, columns: CardColumns<N>) -> Read<Word<N>>
        ensures { result ≡ (line_from columns.entry.first N (values.name N)).reading self.now }
    {
        at(columns, rpg_sheet_values::name(self.columns(columns)))
    }

    pub(crate) fn optional_name(&self, columns: CardColumns<8>) -> Read<Option<Word<8>>>
        ensures { result ≡ (line_from columns.first 8 (values.blank_or (values.name 8))).reading self.now }
    {
        let text = self.columns(columns);
        if has_only_blanks(text) {
            return Ok(None);
        }
        Ok(Some(at(columns, rpg_sheet_values::name(text))?))
    }

    /// Reads a factor into `factor`, which stays None for blanks. A factor takes 56 bytes, so moving it is costly.
    #[inline(always)]
    pub(crate) fn read_factor(
        &self,
        factor: &mut Option<Factor>,
        columns: CardColumns<10>,
    ) -> Read<()>
        requires { factor.old ≡ None }
        ensures { put factor.new result ≡ (line_from columns.first 10 (values.blank_or values.factor)).reading self.now }
    {
        let text = self.columns(columns);
        if has_only_blanks(text) {
            return Ok(());
        }
        *factor = rpg_sheet_values::factor_of(text);
        fault_unless(factor.is_some(), columns)
    }

    /// Reads right-aligned digits after blanks.
    pub(crate) fn number<const WIDTH: usize>(&self, columns: CardColumns<WIDTH>) -> Read<u16>
        requires short { WIDTH ≤ 4 }
        ensures { result ≡ (line_from columns.entry.first WIDTH values.number).reading self.now }
    {
        at(columns, rpg_sheet_values::number(self.columns(columns)))
    }

    /// Reads right-aligned digits after blanks, within these bounds.
    pub(crate) fn number_within<const FIRST: u8, const LAST: u8>(
        &self,
        columns: CardColumns<3>,
    ) -> Read<Within<FIRST, LAST>>
        ensures { result ≡ (line_from columns.first 3 (values.number_within FIRST LAST)).reading self.now }
    {
        at(
            columns,
            rpg_sheet_values::number_within(self.columns(columns)),
        )
    }

    pub(crate) fn optional_number(&self, columns: CardColumns<3>) -> Read<Option<u16>>
        ensures { result ≡ (line_from columns.first 3 (values.blank_or values.number)).reading self.now }
    {
        let text = self.columns(columns);
        optional(columns, text, rpg_sheet_values::number(text))
    }

    pub(crate) fn optional_digit(&self, columns: CardColumns<1>) -> Read<Option<u8>>
        ensures { result ≡ (line_from columns.first 1 (values.blank_or values.digits)).reading self.now }
    {
        let text = self.columns(columns);
        optional(columns, text, rpg_sheet_values::digit(text))
    }

    /// Reads blanks or this character.
    pub(crate) fn mark(&self, columns: CardColumns<1>, character: &[u8]) -> Read<bool>
        ensures { result ≡ (line_from columns.first 1 (values.marked character.now)).reading self.now }
    {
        let value = rpg_sheet_values::marked(character, self.columns(columns));
        at(columns, value)
    }

    pub(crate) fn optional_indicator(&self, columns: CardColumns<2>) -> Read<Option<Indicator>>
        ensures { result ≡ (line_from columns.first 2 (values.blank_or values.indicator)).reading self.now }
    {
        let text = self.columns(columns);
        optional(columns, text, rpg_sheet_values::indicator(text))
    }

    pub(crate) fn optional_condition(&self, columns: CardColumns<3>) -> Read<Option<ConditionSpec>>
        ensures { result ≡ (line_from columns.first 3 (values.blank_or values.condition)).reading self.now }
    {
        let text = self.columns(columns);
        optional(columns, text, rpg_sheet_values::condition(text))
    }

    pub(crate) fn optional_operation(&self, columns: CardColumns<5>) -> Read<Option<Operation>>
        ensures { result ≡ (line_from columns.first 5 (values.blank_or tables.operation)).reading self.now }
    {
        let text = self.columns(columns);
        optional(columns, text, rpg_sheet_values::operation(text))
    }

    /// Reads an entry into `entry`, which stays None for blanks.
    #[inline(always)]
    pub(crate) fn read_entry(&self, entry: &mut Option<Entry>, columns: CardColumns<6>) -> Read<()>
        requires { entry.old ≡ None }
        ensures { put entry.new result ≡ (line_from columns.first 6 (values.blank_or values.entry)).reading self.now }
    {
        let text = self.columns(columns);
        if has_only_blanks(text) {
            return Ok(());
        }
        *entry = rpg_sheet_values::entry(text);
        fault_unless(entry.is_some(), columns)
    }

    pub(crate) fn optional_level(
        &self,
        letter: u8,
        columns: CardColumns<2>,
    ) -> Read<Option<Within<1, 9>>>
        ensures { result ≡ (line_from columns.first 2 (values.blank_or (values.level letter))).reading self.now }
    {
        let text = self.columns(columns);
        optional(columns, text, rpg_sheet_values::level(letter, text))
    }

    pub(crate) fn optional_record_code(&self, columns: CardColumns<7>) -> Read<Option<RecordCode>>
        ensures { result ≡ (line_from columns.first 7 (values.blank_or values.record_code)).reading self.now }
    {
        let text = self.columns(columns);
        optional(columns, text, rpg_sheet_values::record_code(text))
    }

    pub(crate) fn optional_space(&self, columns: CardColumns<1>) -> Read<Option<Within<0, 3>>>
        ensures { result ≡ (line_from columns.first 1 (values.blank_or tables.space)).reading self.now }
    {
        let text = self.columns(columns);
        optional(columns, text, rpg_sheet_values::space(text))
    }

    pub(crate) fn optional_skip(&self, columns: CardColumns<2>) -> Read<Option<Within<1, 112>>>
        ensures { result ≡ (line_from columns.first 2 (values.blank_or tables.skip)).reading self.now }
    {
        let text = self.columns(columns);
        optional(columns, text, rpg_sheet_values::skip(text))
    }

    /// Reads a text into `literal`, which stays None for blanks.
    #[inline(always)]
    pub(crate) fn read_text(
        &self,
        literal: &mut Option<TextLiteral<24>>,
        columns: CardColumns<26>,
    ) -> Read<()>
        requires { literal.old ≡ None }
        ensures { put literal.new result ≡ (line_from columns.first 26 (values.blank_or values.quoted)).reading self.now }
    {
        let text = self.columns(columns);
        if text[0] == b' ' && has_only_blanks(text) {
            return Ok(());
        }
        *literal = rpg_sheet_values::quoted(text);
        fault_unless(literal.is_some(), columns)
    }
}

/// Returns the fault of columns, unless their value was found.
fn fault_unless<const WIDTH: usize>(found: bool, columns: CardColumns<WIDTH>) -> Read<()>
    ensures { result ≡ (if found then Ok tt else Err (column_fault_from columns.entry.first WIDTH)) }
{
    if found { Ok(()) } else { Err(columns.fault()) }
}

/// Reads three conditions.
#[inline(always)]
pub(crate) fn conditions(card: &Card, columns: CardColumns<9>) -> Read<Three<Option<ConditionSpec>>>
    ensures { result ≡ (conditions_from columns.first).reading card.now }
{
    if has_only_blanks(card.columns(columns)) {
        return Ok(Three::none());
    }
    let first = columns.first;
    let one = card.optional_condition(CardColumns { first })?;
    let two = card.optional_condition(CardColumns { first: first + 3 })?;
    let three = card.optional_condition(CardColumns { first: first + 6 })?;
    Ok(Three {
        first: one,
        second: two,
        third: three,
    })
}

/// Reads three indicators.
#[inline(always)]
pub(crate) fn indicators(card: &Card, columns: CardColumns<6>) -> Read<Three<Option<Indicator>>>
    ensures { result ≡ (indicators_from columns.first).reading card.now }
{
    if has_only_blanks(card.columns(columns)) {
        return Ok(Three::none());
    }
    let first = columns.first;
    let one = card.optional_indicator(CardColumns { first })?;
    let two = card.optional_indicator(CardColumns { first: first + 2 })?;
    let three = card.optional_indicator(CardColumns { first: first + 4 })?;
    Ok(Three {
        first: one,
        second: two,
        third: three,
    })
}
