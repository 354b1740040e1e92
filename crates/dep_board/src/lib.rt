//! The counts of a plan outside the build lock: how many edge producers of each step haven't ended,
//! in atomic words that several workers count down at once.
//!
//! A [`Board`] has the words of a plan. A worker steps on it with a [`Pass`], which it gets by
//! [`Board::split`]. [`Board::ended`] claims a step and tells the steps that its end released: each
//! release is told to one pass, after all edges of that step were counted down.
#![tactic(auto)]

mod board;
mod inner;
mod laws;
mod opening;
mod rows;
mod rule;
mod view;

pub use board::{Board, Pass};
pub use laws::each_release_is_told_once;
