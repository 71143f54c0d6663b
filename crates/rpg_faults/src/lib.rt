//! The cards of a source without faults, or the faults of a source.
#![tactic(auto)]

mod before;
mod cards;
mod cause;
mod code;
mod every;
mod every_source;
mod fault;
mod kept;
mod least;
mod source;
mod source_fault;

pub use cause::Cause;
pub use code::FaultCode;
pub use every::all_faults;
pub use every_source::{SourceFaults, source_faults};
pub use fault::Fault;
pub use least::first_fault;
pub use rpg_causes_flow::{
    Giver, NowhereCause, OrderCause, StrayCause, Target, TwiceCause, TwiceFault,
};
pub use rpg_causes_operands::{
    FieldCause, IndexCause, IndicatorCause, IndicatorFault, OperandCause, Redefined, SizeCause,
    SizeFault, TextField,
};
pub use rpg_faults_data::{DataCause, EntryCause, EntryFault, Need};
pub use rpg_faults_flow::{ColumnCause, RoundingCause};
pub use rpg_faults_limits::{FileCause, FileOnCard, FileUser, Limit, LimitCause};
pub use rpg_faults_operands::{EditingCause, Mismatch};
pub use rpg_faults_places::{JoinCause, PlaceCause};
pub use source::{FaultlessCards, faultless_cards};
pub use source_fault::{CardFault, SourceCode, SourceFault};
