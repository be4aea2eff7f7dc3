// Why a call refuses: the reason, the layer that reports it and the place where it lies.
#![tactic(auto)]

pub mod fault;
pub mod layer;
pub mod refusal;
