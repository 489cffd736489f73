//! Programs, turns of two threads, whole runs, and the rows.

mod blocks;
mod engine;
mod lifters;
mod programs;
mod rows;
mod run;
mod runs;
