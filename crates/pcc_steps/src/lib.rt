//! Both ends of a channel, one word step at a time.
#![tactic(auto)]

mod answer;
mod ask;
mod block;
mod counts;
mod kind;
mod laws;
mod registers;
mod wiring;
mod words;
mod worked;

pub use answer::{
    AnswerOutcome, AnswerStage, AnswerState, answer_block, answer_execute, answer_feed,
    answer_next, answer_ran, answer_space, answer_start,
};
pub use ask::{
    AskOutcome, AskStage, AskState, ask_begin, ask_block, ask_budget, ask_feed, ask_look, ask_next,
};
pub use kind::{is_extended, is_headed, is_initiator, is_reduced, is_responder};
pub use laws::{
    answering_laws, answering_tables, asking_laws, asking_tables, counting_laws, device_laws,
    ending_laws, history_laws, reached_laws, refusing_laws,
};
pub use wiring::{Action, Style, Wiring};
pub use words::{opening_words, perform};
pub use worked::{worked_answers, worked_looks, worked_posts};
