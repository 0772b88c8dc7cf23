//! Rows of the commands, run over ports in memory: tests alone.
#![tactic(auto)]

#[cfg(test)]
mod list_tests;
#[cfg(test)]
mod receive_tests;
#[cfg(test)]
mod start_tests;
#[cfg(test)]
mod tests;
