//! Why no order of moves parts two pipelines of one image: the definitions and the proofs. What is
//! proved here is promised by the call that builds a pipeline.
#![tactic(auto)]
