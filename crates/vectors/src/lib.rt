//! Tests that cross crates: the command over files in memory, byte for byte. Stands on `outline_cmd` and `outside`.
#![tactic(auto)]

#[cfg(test)]
mod answer_tests;
#[cfg(test)]
mod fault_tests;
#[cfg(test)]
mod files;
#[cfg(test)]
mod limit_tests;
#[cfg(test)]
mod runs;
#[cfg(test)]
mod status_tests;
