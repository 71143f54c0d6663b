//! The meaning of a card.
#![tactic(auto, unfolding(rpg_sheet_specs::specs::Columns::values, rpg_sheet_specs::specs::Columns::also))]

ghost use Rattle.std.specs.Prelude.{◌≡◌, [], false, Some, Err, OnOk, IfErr};
ghost use Rattle.std.specs.Result.{result_ok};
ghost use Rattle.rpg_sheet.specs.Put.{put};
ghost use Rattle.rpg_sheet.specs.Readable.{has_bad_column};
ghost use Rattle.rpg_sheet_specs.specs.Columns.{IsLeastColumn, mapped};
ghost use Rattle.rpg_sheet_specs.specs.Specs.{card_on};
ghost use Rattle.rpg_sheet_specs.specs.Tables as tables;
ghost use Rattle.rpg_sheet_specs.specs.declared.spec.Spec.TheVariants as specs;

use crate::calculation::read_calculation;
use crate::card::Card;
use crate::columns::Read;
use crate::input::input_card;
use crate::line_counter::form_card;
use crate::output::read_output;
use rpg_sheet_specs::{
    CalculationSpec, ColumnFault, ExtensionSpec, FileSpec, FormSpec, FormType, HeaderSpec,
    InputSpec, OutputSpec, Spec,
};

impl Card {
    /// Reads an H card, or returns the leftmost of its bad values.
    pub fn h(&self) -> Result<HeaderSpec, ColumnFault>
        ensures value { result ≡ tables.header.reading self.now }
        ensures valid { OnOk result (tables.header.bad self.now ≡ []) }
        ensures least { IfErr result (λ fault. IsLeastColumn (tables.header.bad self.now) fault.column) }
    {
        crate::header::header(self)
    }

    /// Reads an F card, or returns the leftmost of its bad values.
    pub fn f(&self) -> Result<FileSpec, ColumnFault>
        ensures value { result ≡ tables.file.reading self.now }
        ensures valid { OnOk result (tables.file.bad self.now ≡ []) }
        ensures least { IfErr result (λ fault. IsLeastColumn (tables.file.bad self.now) fault.column) }
    {
        crate::file::file(self)
    }

    /// Reads an E card, or returns the leftmost of its bad values.
    pub fn e(&self) -> Result<ExtensionSpec, ColumnFault>
        ensures value { result ≡ tables.extension.reading self.now }
        ensures valid { OnOk result (tables.extension.bad self.now ≡ []) }
        ensures least { IfErr result (λ fault. IsLeastColumn (tables.extension.bad self.now) fault.column) }
    {
        crate::extension::extension(self)
    }

    /// Reads an L card, or returns the leftmost of its bad values.
    pub fn l(&self) -> Result<FormSpec, ColumnFault>
        ensures value { result ≡ tables.form_card.reading self.now }
        ensures valid { OnOk result (tables.form_card.bad self.now ≡ []) }
        ensures least { IfErr result (λ fault. IsLeastColumn (tables.form_card.bad self.now) fault.column) }
    {
        form_card(self)
    }

    /// Reads an I card, or returns the leftmost of its bad values.
    pub fn i(&self) -> Result<InputSpec, ColumnFault>
        ensures value { result ≡ tables.input_card.reading self.now }
        ensures valid { OnOk result (tables.input_card.bad self.now ≡ []) }
        ensures least { IfErr result (λ fault. IsLeastColumn (tables.input_card.bad self.now) fault.column) }
    {
        input_card(self)
    }

    /// Reads a C card, or returns the leftmost of its bad values.
    pub fn c(&self) -> Result<CalculationSpec, ColumnFault>
        ensures value { result ≡ tables.calculation_card.reading self.now }
        ensures valid { OnOk result (tables.calculation_card.bad self.now ≡ []) }
        ensures least { IfErr result (λ fault. IsLeastColumn (tables.calculation_card.bad self.now) fault.column) }
    {
        let mut spec = None;
        read_calculation(&mut spec, self)?;
        let Some(spec) = spec else { unreachable!() };
        let Spec::Calculation(calculation) = spec else {
            unreachable!()
        };
        Ok(calculation)
    }

    /// Reads an O card, or returns the leftmost of its bad values.
    pub fn o(&self) -> Result<OutputSpec, ColumnFault>
        ensures value { result ≡ tables.output_card.reading self.now }
        ensures valid { OnOk result (tables.output_card.bad self.now ≡ []) }
        ensures least { IfErr result (λ fault. IsLeastColumn (tables.output_card.bad self.now) fault.column) }
    {
        let mut spec = None;
        read_output(&mut spec, self)?;
        let Some(spec) = spec else { unreachable!() };
        let Spec::Output(output) = spec else {
            unreachable!()
        };
        Ok(output)
    }

    /// Reads a card of this sheet into `spec`, or returns the leftmost of its bad values. A meaning takes 240 bytes, so moving it is costly.
    pub(crate) fn read_to(&self, spec: &mut Option<Spec>, sheet: FormType) -> Read<()>
        ensures value { OnOk result (spec.new ≡ result_ok ((card_on sheet).reading self.now)) }
        ensures valid { OnOk result (has_bad_column sheet self.now ≡ false) }
        ensures fault { IfErr result (λ fault. (card_on sheet).reading self.now ≡ Err fault) }
    {
        match sheet {
            FormType::Input => read_input(spec, self),
            FormType::Calculation => read_calculation(spec, self),
            FormType::Output => read_output(spec, self),
            _ => read_description(spec, self, sheet),
        }
    }

    /// Reads a card of this sheet, or returns the leftmost of its bad values.
    pub fn read(&self, sheet: FormType) -> Result<Spec, ColumnFault>
        ensures value { result ≡ (card_on sheet).reading self.now }
        ensures valid { OnOk result ((card_on sheet).bad self.now ≡ []) }
        ensures least { IfErr result (λ fault. IsLeastColumn ((card_on sheet).bad self.now) fault.column) }
    {
        match sheet {
            FormType::Header => Ok(Spec::Header(self.h()?)),
            FormType::File => Ok(Spec::File(self.f()?)),
            FormType::Extension => Ok(Spec::Extension(self.e()?)),
            FormType::Form => Ok(Spec::Form(self.l()?)),
            FormType::Input => Ok(Spec::Input(self.i()?)),
            FormType::Calculation => Ok(Spec::Calculation(self.c()?)),
            FormType::Output => Ok(Spec::Output(self.o()?)),
        }
    }
}

/// Reads an H, F, E or L card into `spec`.
#[inline(never)]
fn read_description(spec: &mut Option<Spec>, card: &Card, sheet: FormType) -> Read<()>
    ensures { put spec.new result ≡ mapped (λ s. Some s) ((card_on sheet).reading card.now) }
{
    match sheet {
        FormType::Header => *spec = Some(Spec::Header(crate::header::header(card)?)),
        FormType::File => *spec = Some(Spec::File(crate::file::file(card)?)),
        FormType::Extension => *spec = Some(Spec::Extension(crate::extension::extension(card)?)),
        FormType::Form => *spec = Some(Spec::Form(form_card(card)?)),
        _ => *spec = Some(card.read(sheet)?),
    }
    Ok(())
}

/// Reads an I card into `spec`.
#[inline(never)]
fn read_input(spec: &mut Option<Spec>, card: &Card) -> Read<()>
    ensures { put spec.new result ≡ mapped (λ i. Some (specs.Input i)) (tables.input_card.reading card.now) }
{
    *spec = Some(Spec::Input(input_card(card)?));
    Ok(())
}
