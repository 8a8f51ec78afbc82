//! The laws of the grammar: `proofs/` shows that the tokens which pass from place to place are exactly those that begin
//! a text, and that a text has one phrase and one answer.
#![tactic(auto)]
