//! What an image stands for: lemmas on the view, the objects and the rules of an image, and on what the calls of the file
//! system may change of them. There is no code here but laws, whose clauses show that the definitions say what they should.
#![tactic(auto)]

pub mod laws;
