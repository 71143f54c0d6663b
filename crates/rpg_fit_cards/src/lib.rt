//! Rules for old decks that rewrite single cards: job control, comments, columns, switches, forms, table files, page counters and disk files.
#![tactic(auto)]

mod column;
mod comment;
mod disk;
mod form;
mod numbered_page;
mod settings;
mod switch;
mod table;
mod table_data;
mod wide;

pub use column::columns;
pub use comment::{comments, job_control};
pub use disk::disks;
pub use form::forms;
pub use numbered_page::numbered_pages;
pub use settings::{Settings, Switches, TableFile};
pub use switch::switches;
pub use table::tables;
