//! F9 of calculations: columns that are missing or not allowed.

ghost use Rattle.std.specs.Prelude.{◌≡◌, List, [], ◌∷◌, ◌++◌, is_some};
ghost use Rattle.std.specs.Option.{option_map};
ghost use Rattle.rpg_cards.specs.Calculations.{group_end, open_calculation_group};
ghost use Rattle.rpg_cards.specs.declared.spec_card.SpecCard.{SpecCard};
ghost use Rattle.rpg_faults_flow.specs.ColumnCauses as causes;
ghost use Rattle.rpg_faults_flow.specs.Columns as rules;
ghost use Rattle.rpg_faults_flow.specs.Marks as marks;
ghost use Rattle.rpg_faults_flow.specs.OpenGroups as open_groups;
ghost use Rattle.rpg_faults_flow.specs.OpenGroups.{IsGroupBefore, IsOpenGroup};
ghost use Rattle.rpg_sheet_specs.specs.declared.column_range.ColumnRange.TheVariants as range;
ghost use Rattle.rpg_sheet_specs.specs.declared.literal.Factor.TheVariants as factor;

use rpg_cards::{
    Column, Content, Shown, SpecCard, columns, continues, depends, group_end, joins, plain_name,
};
use rpg_sheet_specs::{
    CalculationSpec, ColumnRange, ConditionSpec, Entry, Factor, Indicator, Operation, Three,
};

/// Why columns of a calculation are missing or not allowed.
#[derive(Clone, Copy)]
pub enum ColumnCause {
    /// The operation allows nothing there.
    NotAllowed(ColumnRange),
    /// The operation requires something there.
    Needed(ColumnRange),
    /// The operation requires a name without an index there.
    NotPlain(ColumnRange),
    /// The operation allows no resulting indicators.
    NoIndicators,
    /// The operation requires a resulting indicator.
    IndicatorNeeded,
    /// LOKUP searches for high or low, not both.
    HighAndLow,
    /// The last card of a group has no operation.
    NoOperation,
    /// Only the last card of a group has something there.
    LastCardAlone(ColumnRange),
    /// Each card of a group has conditions.
    ConditionsNeeded,
    /// The operation allows no conditions.
    Unconditioned,
    /// A length without a result field.
    LengthAlone,
}

impl ColumnCause {
    /// Returns the columns of a card that the cause is about.
    pub fn range(self, calculation: &CalculationSpec) -> ColumnRange
        ensures { result ≡ marks.column_range calculation.now self }
    {
        match self {
            ColumnCause::NotAllowed(at)
            | ColumnCause::Needed(at)
            | ColumnCause::NotPlain(at)
            | ColumnCause::LastCardAlone(at) => at,
            ColumnCause::NoIndicators | ColumnCause::IndicatorNeeded | ColumnCause::HighAndLow => {
                shown_range(calculation.resulting_indicators)
            }
            ColumnCause::NoOperation => ColumnRange::Operation,
            ColumnCause::ConditionsNeeded | ColumnCause::Unconditioned => {
                condition_range(calculation.conditions)
            }
            ColumnCause::LengthAlone => ColumnRange::ResultLength,
        }
    }
}

/// The group of calculation cards that the next card may join.
#[derive(Clone, Copy)]
pub struct OpenGroup {
    /// Whether its operation allows conditions; None if no group is open.
    may_depend: Option<bool>,
}

impl OpenGroup {
    /// Returns that there is none.
    pub fn none() -> Self
        ensures { (cards : List SpecCard) → IsOpenGroup [] cards result }
    {
        OpenGroup { may_depend: None }
    }

    /// Moves on to the next card. The end of a group is looked for once, from its first card.
    #[tactic(auto, using(crate::proofs::Groups::may_depend_next))]
    pub fn pass(&mut self, card: &SpecCard, after: &[SpecCard])
        ensures { (before : List SpecCard) → IsOpenGroup before (card.now ∷ after.now) self.old → IsOpenGroup (before ++ card.now ∷ []) after.now self.new }
    {
        self.may_depend = self.with(card, after);
    }

    fn with(self, card: &SpecCard, after: &[SpecCard]) -> Option<bool>
        ensures { result ≡ open_groups.may_depend_with self.may_depend card.now after.now }
    {
        Some(self.allows_conditions(card.calculation()?, after))
    }

    /// Whether the operation of the group that a card joins or opens allows conditions.
    #[tactic(auto, using(crate::proofs::Groups::may_depend_here))]
    fn allows_conditions(self, calculation: &CalculationSpec, after: &[SpecCard]) -> bool
        ensures value { result ≡ open_groups.may_depend_in self.may_depend calculation.now after.now }
        ensures group { (before : List SpecCard) → IsGroupBefore before calculation.now after.now self → result ≡ rules.may_depend (group_end calculation.now after.now) }
    {
        match self.may_depend {
            Some(may_depend) if joins(calculation) => may_depend,
            _ => may_depend(group_end(calculation, after)),
        }
    }

    #[tactic(auto, using(crate::proofs::Groups::is_open_group))]
    fn is_open(self) -> bool
        ensures { (before rest : List SpecCard) → IsOpenGroup before rest self → result ≡ is_some (open_calculation_group before) }
    {
        self.may_depend.is_some()
    }
}

/// F9 of a calculation card: which columns are missing or not allowed.
pub fn on_calculation(
    group: OpenGroup,
    before: &[SpecCard],
    card: &SpecCard,
    after: &[SpecCard],
) -> Option<ColumnCause>
    requires { IsOpenGroup before.now (card.now ∷ after.now) group }
    ensures cause { result ≡ causes.card_column_cause before.now card.now after.now }
    ensures rule { is_some result ≡ rules.bad_calculation_columns before.now card.now after.now }
{
    match card.calculation() {
        None => None,
        Some(calculation) => of_calculation(group, calculation, after),
    }
}

fn of_calculation(
    group: OpenGroup,
    calculation: &CalculationSpec,
    after: &[SpecCard],
) -> Option<ColumnCause>
    ensures cause { (before : List SpecCard) → IsGroupBefore before calculation.now after.now group → result ≡ causes.calculation_column_cause (open_calculation_group before) calculation.now after.now }
    ensures rule { (before : List SpecCard) → IsGroupBefore before calculation.now after.now group → is_some result ≡ causes.has_bad_columns (open_calculation_group before) calculation.now after.now }
{
    if calculation.length.is_some() && calculation.result_field.is_none() {
        return Some(ColumnCause::LengthAlone);
    }
    match of_end(continues(after), calculation) {
        Some(cause) => Some(cause),
        None => of_conditions(group, calculation, after),
    }
}

fn of_conditions(
    group: OpenGroup,
    calculation: &CalculationSpec,
    after: &[SpecCard],
) -> Option<ColumnCause>
    ensures cause { (before : List SpecCard) → IsGroupBefore before calculation.now after.now group → result ≡ causes.of_conditions (open_calculation_group before) calculation.now after.now }
    ensures rule { (before : List SpecCard) → IsGroupBefore before calculation.now after.now group → is_some result ≡ rules.bad_conditions (open_calculation_group before) calculation.now after.now }
{
    if depends(calculation) {
        if group.allows_conditions(calculation, after) {
            None
        } else {
            Some(ColumnCause::Unconditioned)
        }
    } else if continues(after) || (joins(calculation) && group.is_open()) {
        Some(ColumnCause::ConditionsNeeded)
    } else {
        None
    }
}

fn of_end(continues: bool, calculation: &CalculationSpec) -> Option<ColumnCause>
    ensures cause { result ≡ causes.end_column_cause continues calculation.now }
    ensures rule { is_some result ≡ rules.bad_by_end continues calculation.now }
{
    if !continues {
        return match calculation.operation {
            None => Some(ColumnCause::NoOperation),
            Some(operation) => of_operation(calculation, operation),
        };
    }
    if has_more(calculation) {
        return Some(ColumnCause::LastCardAlone(further_range(calculation)));
    }
    None
}

fn of_operation(calculation: &CalculationSpec, operation: Operation) -> Option<ColumnCause>
    ensures cause { result ≡ causes.operation_column_cause calculation.now operation }
    ensures rule { is_some result ≡ rules.bad_operation calculation.now operation }
{
    let columns = columns(operation);
    let first = of_factor(
        ColumnRange::FirstFactor,
        columns.factor_1,
        &calculation.factor_1,
    );
    if first.is_some() {
        return first;
    }
    let second = of_factor(
        ColumnRange::SecondFactor,
        columns.factor_2,
        &calculation.factor_2,
    );
    if second.is_some() {
        return second;
    }
    match of_result(columns.result_field, &calculation.result_field) {
        Some(cause) => Some(cause),
        None => of_shown(columns.indicators, calculation.resulting_indicators),
    }
}

fn of_factor(at: ColumnRange, column: Column, factor: &Option<Factor>) -> Option<ColumnCause>
    ensures cause { result ≡ causes.of_column at column factor.now }
    ensures rule { is_some result ≡ rules.misses column factor.now }
{
    match (column, factor) {
        (Column::Blank, None) | (Column::May(_), None) => None,
        (Column::Blank, Some(_)) => Some(ColumnCause::NotAllowed(at)),
        (Column::Must(_), None) => Some(ColumnCause::Needed(at)),
        (Column::May(content), Some(factor)) | (Column::Must(content), Some(factor)) => {
            if is_for_name(content) && plain_name(factor).is_none() {
                Some(ColumnCause::NotPlain(at))
            } else {
                None
            }
        }
    }
}

fn of_result(column: Column, entry: &Option<Entry>) -> Option<ColumnCause>
    ensures cause { result ≡ causes.of_column range.ResultName column (option_map factor.Entry entry.now) }
    ensures rule { is_some result ≡ rules.misses column (option_map factor.Entry entry.now) }
{
    let at = ColumnRange::ResultName;
    match (column, entry) {
        (Column::Blank, None) | (Column::May(_), None) => None,
        (Column::Blank, Some(_)) => Some(ColumnCause::NotAllowed(at)),
        (Column::Must(_), None) => Some(ColumnCause::Needed(at)),
        (Column::May(content), Some(entry)) | (Column::Must(content), Some(entry)) => {
            if is_for_name(content) && entry.index.is_some() {
                Some(ColumnCause::NotPlain(at))
            } else {
                None
            }
        }
    }
}

/// Whether a column holds the name of a label or a subroutine.
fn is_for_name(content: Content) -> bool
    ensures { result ≡ rules.is_for_name content }
{
    match content {
        Content::Label | Content::Subroutine => true,
        Content::Value | Content::WholeArray | Content::Searched | Content::Table => false,
    }
}

fn of_shown(shown: Shown, indicators: Three<Option<Indicator>>) -> Option<ColumnCause>
    ensures cause { result ≡ causes.of_shown shown indicators }
    ensures rule { is_some result ≡ rules.bad_shown shown indicators }
{
    let has_none = indicators.filled() == 0;
    match shown {
        Shown::Unused if !has_none => Some(ColumnCause::NoIndicators),
        Shown::Some | Shown::Search if has_none => Some(ColumnCause::IndicatorNeeded),
        Shown::Search if indicators.first.is_some() && indicators.second.is_some() => {
            Some(ColumnCause::HighAndLow)
        }
        Shown::Unused | Shown::Any | Shown::Some | Shown::Search => None,
    }
}

/// Whether the group that ends in this card may have conditions.
fn may_depend(last: &CalculationSpec) -> bool
    ensures { result ≡ rules.may_depend last.now }
{
    match last.operation {
        None => true,
        Some(operation) => columns(operation).may_depend,
    }
}

/// Whether a card has anything but conditions.
fn has_more(calculation: &CalculationSpec) -> bool
    ensures { result ≡ rules.has_more calculation.now }
{
    calculation.operation.is_some()
        || calculation.factor_1.is_some()
        || calculation.factor_2.is_some()
        || calculation.result_field.is_some()
        || calculation.length.is_some()
        || calculation.resulting_indicators.filled() > 0
}

// ---- which columns

/// What a card other than the last has besides its conditions.
fn further_range(calculation: &CalculationSpec) -> ColumnRange
    ensures { result ≡ marks.further_range calculation.now }
{
    if calculation.factor_1.is_some() {
        ColumnRange::FirstFactor
    } else if calculation.operation.is_some() {
        ColumnRange::Operation
    } else if calculation.factor_2.is_some() {
        ColumnRange::SecondFactor
    } else if calculation.result_field.is_some() {
        ColumnRange::ResultName
    } else {
        shown_range(calculation.resulting_indicators)
    }
}

/// The first resulting indicator, or the columns of missing ones.
fn shown_range(indicators: Three<Option<Indicator>>) -> ColumnRange
    ensures { result ≡ marks.shown_range indicators }
{
    if indicators.first.is_some() {
        ColumnRange::ResultPlus
    } else if indicators.second.is_some() {
        ColumnRange::ResultMinus
    } else if indicators.third.is_some() {
        ColumnRange::ResultZero
    } else {
        ColumnRange::ResultingIndicators
    }
}

/// The first condition, or the columns of missing ones.
fn condition_range(conditions: Three<Option<ConditionSpec>>) -> ColumnRange
    ensures { result ≡ marks.condition_range conditions }
{
    if conditions.first.is_some() {
        ColumnRange::FirstCondition
    } else if conditions.second.is_some() {
        ColumnRange::SecondCondition
    } else if conditions.third.is_some() {
        ColumnRange::ThirdCondition
    } else {
        ColumnRange::Conditions
    }
}
