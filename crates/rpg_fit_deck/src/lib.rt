//! A deck that is being rewritten: its cards, the sentences about them, and the only calls that change
//! them.
#![tactic(auto)]

mod card;
mod changing;
mod editor;
mod fitted;
mod here;
mod marks;
mod render;
mod sentence;
mod slot;
mod stopped;
mod view;
mod word;

pub use card::Card;
pub use editor::Editor;
pub use fitted::Fitted;
pub use render::MOST_CARDS;
pub use sentence::{Refusal, Remark, Rule, Sentence, What};
pub use stopped::Stopped;
pub use view::{Address, Seen, View};
pub use word::Word;
