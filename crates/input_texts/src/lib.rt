//! The texts that the commands read: a plan, as a plan text or a JSON document, up to the network
//! that it declares; a certificate of either kind, line by line; and the grammars of these.
#![tactic(auto)]

mod delay;
mod laws;
mod plan_document;
mod plan_input;
mod plan_network;
mod plan_text;
mod proof_input;
mod section_input;

pub use delay::Delay;
pub use laws::{
    law_documents_are_refused_by_their_faults, law_plan_texts_are_as_the_format_says,
    law_plans_have_the_requested_delay,
};
pub use plan_document::{BuildDocument, PlanDocument};
pub use plan_input::{Notation, NotedPlan, PlanForm, PlanInput};
pub use plan_network::PlanNetwork;
pub use plan_text::{BuildPlan, Declarations, PlanText};
pub use proof_input::{AsControl, AsStrong, Proof, ProofInput, ProofKind};
pub use section_input::{CertificateInput, SectionInput, StrongInput};
