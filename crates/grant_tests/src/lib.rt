// Worked grants, each proved safe and run.
#![tactic(auto)]

#[cfg(test)]
mod tests;
