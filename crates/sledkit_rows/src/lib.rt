//! Worked rows: whole runs of the program over texts, an input and sinks in memory.
#![tactic(auto)]

#[cfg(test)]
mod tests;
