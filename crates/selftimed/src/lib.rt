//! Self-timed execution: an engine that starts each firing as soon as it can, event by event.
#![tactic(auto)]

mod actors;
mod calendar;
mod compare;
mod ends;
mod engine;
mod event;
mod event_queue;
mod ports;
mod queue;
mod rates;
mod running;
mod shape;
mod starts;
mod tokens;
mod wiring;

pub use engine::{Engine, Move, Stage};
pub use shape::Shape;
