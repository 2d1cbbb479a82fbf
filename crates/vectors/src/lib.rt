// Vectors of grades: combining them, and their products with a letter's matrix.
#![tactic(auto)]

pub mod times;
