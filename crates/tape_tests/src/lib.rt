// Examples of tapes, as tests.
#![tactic(auto)]

#[cfg(test)]
mod tests;
