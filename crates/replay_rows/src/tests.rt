//! Journals of worked programs, whole and damaged.

mod following;
mod programs;
mod rows;
mod views;
