// Examples of use of the ledgers, with the largest figures and every refusal in its order.
#![tactic(auto)]

#[cfg(test)]
mod tests;
