//! The commands of `rpg2` and their arguments, as data and as clap builds them, and the request of a command line.
#![tactic(auto)]

mod checking;
mod commands;
mod files;
mod options;
mod outputs;
mod refusal;
mod request;

pub use checking::{LinesWay, RowArguments, RowsWay};
pub use files::{FileArgument, SameFile, Shared, is_standard};
pub use options::{
    AnswerArguments, CardsWanted, Colours, Cycles, Format, LookArguments, PaperArgument,
    PaperArguments, RecordFraming, RecordsWay, TableArgument, WarningArguments, join_codes,
};
pub use outputs::{Existing, Unreplaced, may_replace};
pub use refusal::{Refusal, refuse_bytes, refuse_same_file, refuse_unreplaced};
pub use request::{CommandName, Request, request_of};
pub use rpg_cli_values::DateArgument;
