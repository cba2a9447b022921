//! Tests that cross the routes: random sources are played through the program's receiver beside their outputs.
#![tactic(auto)]

#[cfg(test)]
mod tests;
