//! Cards of the sheets.

ghost use Rattle.std.specs.Prelude.{◌≡◌, option_copied};
ghost use Rattle.rpg_cards.specs.Cards as cards_of;

use rpg_sheet_specs::{
    CalculationSpec, DataSpec, ExtensionSpec, FileSpec, FormSpec, InputFieldSpec, InputSpec,
    OutputField, OutputRecord, OutputSpec, RecordType, Spec,
};

/// A card with its number in the source, counted from 1, and its meaning.
#[derive(Drop)]
pub struct SpecCard {
    pub number: u16,
    pub spec: Spec,
}

impl SpecCard {
    pub fn file(&self) -> Option<&FileSpec>
        ensures { option_copied result ≡ cards_of.file_on self.now.spec }
    {
        match &self.spec {
            Spec::File(file) => Some(file),
            _ => None,
        }
    }

    pub fn extension(&self) -> Option<&ExtensionSpec>
        ensures { option_copied result ≡ cards_of.extension_on self.now.spec }
    {
        match &self.spec {
            Spec::Extension(extension) => Some(extension),
            _ => None,
        }
    }

    pub fn form(&self) -> Option<&FormSpec>
        ensures { option_copied result ≡ cards_of.form_on self.now.spec }
    {
        match &self.spec {
            Spec::Form(form) => Some(form),
            _ => None,
        }
    }

    pub fn input(&self) -> Option<&InputSpec>
        ensures { option_copied result ≡ cards_of.input_on self.now.spec }
    {
        match &self.spec {
            Spec::Input(input) => Some(input),
            _ => None,
        }
    }

    pub fn record_type(&self) -> Option<&RecordType>
        ensures { option_copied result ≡ cards_of.type_on self.now.spec }
    {
        match &self.spec {
            Spec::Input(InputSpec::Type(record_type)) => Some(record_type),
            _ => None,
        }
    }

    pub fn input_field(&self) -> Option<&InputFieldSpec>
        ensures { option_copied result ≡ cards_of.input_field_on self.now.spec }
    {
        match &self.spec {
            Spec::Input(InputSpec::Field(field)) => Some(field),
            _ => None,
        }
    }

    pub fn calculation(&self) -> Option<&CalculationSpec>
        ensures { option_copied result ≡ cards_of.calculation_on self.now.spec }
    {
        match &self.spec {
            Spec::Calculation(calculation) => Some(calculation),
            _ => None,
        }
    }

    pub fn output(&self) -> Option<&OutputSpec>
        ensures { option_copied result ≡ cards_of.output_on self.now.spec }
    {
        match &self.spec {
            Spec::Output(output) => Some(output),
            _ => None,
        }
    }

    pub fn line(&self) -> Option<&OutputRecord>
        ensures { option_copied result ≡ cards_of.output_record_on self.now.spec }
    {
        match &self.spec {
            Spec::Output(OutputSpec::Record(record)) => Some(record),
            _ => None,
        }
    }

    pub fn output_field(&self) -> Option<&OutputField>
        ensures { option_copied result ≡ cards_of.output_field_on self.now.spec }
    {
        match &self.spec {
            Spec::Output(OutputSpec::Field(field)) => Some(field),
            _ => None,
        }
    }

    pub fn data(&self) -> Option<&DataSpec>
        ensures { option_copied result ≡ cards_of.data_on self.now.spec }
    {
        match &self.spec {
            Spec::Data(data) => Some(data),
            _ => None,
        }
    }
}
