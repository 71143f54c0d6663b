//! The rules, in their order.

ghost use Rattle.rpg_fit.specs.Applied.{Applied, AppliedInTurn};

use crate::array_input::input_arrays;
use crate::sequenced::sequence;
use rpg_fit_calculations::{dates, figures, moves, square_roots, whole_calculations};
use rpg_fit_cards::{
    Settings, columns, comments, disks, forms, job_control, numbered_pages, switches, tables,
};
use rpg_fit_deck::{Editor, Rule};
use rpg_fit_files::{end_of_files, merged_files, printers, updated_files};
use rpg_fit_lines::{dollars, or_spaces, places, whole_outputs, words};
use rpg_fit_overflow::{fetch, pages};
use rpg_fit_records::{look_ahead, or_types, structures, zone_codes};
use rpg_fit_terms::settle;

/// The rules in order, since they depend on one another.
pub const RULES: [Rule; 30] = [
    Rule::JobControl,
    Rule::Comments,
    Rule::Columns,
    Rule::Printers,
    Rule::Switches,
    Rule::Forms,
    Rule::Tables,
    Rule::Structures,
    Rule::ZoneCodes,
    Rule::OrTypes,
    Rule::EndOfFiles,
    Rule::MergedFiles,
    Rule::UpdatedFiles,
    Rule::LookAhead,
    Rule::Sequence,
    Rule::NumberedPages,
    Rule::OrSpaces,
    Rule::Figures,
    Rule::SquareRoots,
    Rule::Moves,
    Rule::InputArrays,
    Rule::WholeCalculations,
    Rule::WholeOutputs,
    Rule::Places,
    Rule::Pages,
    Rule::Words,
    Rule::Dollars,
    Rule::Fetch,
    Rule::Dates,
    Rule::Disks,
];

/// Applies a rule that looks at cards one by one.
fn apply_to_cards(editor: &mut Editor, settings: &Settings, rule: Rule) {
    let outcome = match rule {
        Rule::JobControl => job_control(editor),
        Rule::Comments => comments(editor),
        Rule::Columns => columns(editor),
        Rule::Switches => switches(editor, &settings.switches),
        Rule::Forms => forms(editor),
        Rule::Tables => tables(editor, settings),
        Rule::NumberedPages => numbered_pages(editor),
        Rule::Disks => disks(editor),
        _ => Ok(()),
    };
    settle(editor, outcome);
}

/// Applies a rule about calculations or single lines.
fn apply_to_calculations(editor: &mut Editor, rule: Rule) {
    let outcome = match rule {
        Rule::Figures => figures(editor),
        Rule::SquareRoots => square_roots(editor),
        Rule::Moves => moves(editor),
        Rule::WholeCalculations => whole_calculations(editor),
        Rule::Dates => dates(editor),
        Rule::OrSpaces => or_spaces(editor),
        Rule::WholeOutputs => whole_outputs(editor),
        Rule::Places => places(editor),
        Rule::Words => words(editor),
        Rule::Dollars => dollars(editor),
        _ => Ok(()),
    };
    settle(editor, outcome);
}

/// Applies a rule about files, record types, pages or overflow.
fn apply_to_cycle(editor: &mut Editor, settings: &Settings, rule: Rule) {
    let outcome = match rule {
        Rule::Printers => printers(editor, settings.printer),
        Rule::EndOfFiles => end_of_files(editor),
        Rule::MergedFiles => merged_files(editor),
        Rule::UpdatedFiles => updated_files(editor),
        Rule::LookAhead => look_ahead(editor),
        Rule::Structures => structures(editor),
        Rule::ZoneCodes => zone_codes(editor),
        Rule::OrTypes => or_types(editor),
        Rule::Sequence => sequence(editor),
        Rule::InputArrays => input_arrays(editor),
        Rule::Pages => pages(editor),
        Rule::Fetch => fetch(editor),
        _ => Ok(()),
    };
    settle(editor, outcome);
}

/// Applies rules to a deck.
pub trait Rules {
    ghost use Rattle.rpg_fit_deck.specs.declared.editor.Editor.{Editor};
    ghost use Rattle.rpg_fit_deck.specs.declared.sentence.Rule.{Rule};

    /// How a rule may change a deck.
    ghost leaves: { Self → Rule → Editor → Editor → Type 0 };

    /// Applies a rule to a deck.
    fn apply(&self, editor: &mut Editor, rule: Rule)
        ensures { leaves self.now rule editor.old editor.new };
}

/// The rules A1 to A30, with the settings of the command.
#[derive(Clone, Copy)]
pub(crate) struct OldDeckRules<'a> {
    pub settings: &'a Settings<'a>,
}

impl Rules for OldDeckRules<'_> {
    ghost leaves = { λ _ _ _ _. Unit {0} };

    fn apply(&self, editor: &mut Editor, rule: Rule) {
        editor.begin(rule);
        apply_to_cards(editor, self.settings, rule);
        apply_to_calculations(editor, rule);
        apply_to_cycle(editor, self.settings, rule);
    }
}

/// Applies a rule, unless an earlier one rejected the deck or memory ran out.
fn apply_in_turn<R: Rules>(editor: &mut Editor, rules: &R, rule: Rule)
    ensures { AppliedInTurn (R.leaves rules.now) rule editor.old editor.new }
{
    if editor.continues() {
        rules.apply(editor, rule);
    }
}

/// Applies all rules, until one of them rejects the deck or memory runs out.
pub(crate) fn apply_all<R: Rules>(editor: &mut Editor, rules: &R)
    ensures { Applied (R.leaves rules.now) RULES editor.old editor.new }
{
    for rule in RULES {
        apply_in_turn(editor, rules, rule);
    }
}
