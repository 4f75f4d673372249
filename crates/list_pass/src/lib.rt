// What the pass over a list finds and answers, row by row: where it starts, why a row makes no edit, and the answer of the whole.
#![tactic(auto)]

mod numbers;
mod start;

pub use numbers::{begun_after, ended, not_taken};
pub use start::first_row;

// The answer of a list: the number, and the row that got it.
#[derive(Clone, Copy)]
pub struct Reading {
    pub number: u16,
    pub row: u16,
}

// What reading a list leaves beside its slices.
#[derive(Clone, Copy)]
pub struct Listed {
    pub answer: Reading,
    pub tally: memory::Tally,
}

// Where the N row starts, which row it is, and whether `V 2` stands before it.
#[derive(Clone, Copy)]
pub struct First {
    pub v2: bool,
    pub row: u16,
    pub start: usize,
}

// What a row leaves beside the slices: its number, which row it is, where the next one starts, and whether an edit has come.
#[derive(Clone, Copy)]
pub struct Step {
    pub number: u16,
    pub row: u16,
    pub next: usize,
    pub begun: bool,
    pub tally: memory::Tally,
}
