//! Worked examples of what trees cover and which actions fire: computed by the definitions in proofs/, and by the
//! evaluator in the tests.
#![tactic(auto)]

#[cfg(test)]
mod tests;
