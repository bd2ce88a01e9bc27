//! Directives and macros: from the lexer's tokens to the tokens of the preprocessed source.

mod afresh;
mod all_items;
mod call_list;
mod giving;
mod including;
mod items_text;
mod last_item;
mod preprocessor;
mod preprocessor_step;
mod source_turn;
mod spelling;
mod step;
mod token_ref;
mod trying;

pub use afresh::are_read_afresh;
pub use all_items::{append_all, drain, preprocess_all};
pub use call_list::{replies, replies_by};
pub use including::IncludeError;
pub use items_text::{push_token, spell_items};
pub use pp_directives::limit::EXPANSION_LIMIT;
pub use pp_model::call::{Call, Reply};
pub use pp_model::conversion::convert_lexer_token;
pub use pp_model::outcome::{IncludeLine, Outcome};
pub use pp_model::place::SOURCE_TEXT;
pub use pp_model::splice::{CallPlace, Origin};
pub use preprocessor::{Preprocessor, PreprocessorItem};
pub use spelling::spell_tokens;
pub use step::{Step, StepExit, convert_lexer_token_to_step};
pub use token_ref::{TokenRef, TokenSink, ValueRef};
pub use trying::AddError;
