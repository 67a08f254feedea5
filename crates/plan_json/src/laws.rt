//! Laws about documents, each the contract of a function without parameters.

ghost use Rattle.plan_json.specs.DocumentGrammar.{DocumentsAreReadAsDeclared};
ghost use Rattle.plan_json.specs.DocumentGrammar.{DocumentsGiveOneReading};
ghost use Rattle.plan_json.specs.DocumentReading.{DeclaredPartsAreDeclarable};
ghost use Rattle.plan_json.specs.DocumentText.{DocumentsReadBack, DocumentsStandInInputs};

/// The document of a network declares its delay and its parts: its points, its bounds and its
/// links, each list in its order.
#[tactic(auto, using(crate::proofs::BackLemmas::document_back))]
pub fn law_documents_read_back()
    ensures { DocumentsReadBack }
{}

/// No line of the text of the document of a network has `end` as its only word, so it can come
/// before such a line in an input, and is read there whole.
#[tactic(auto, using(crate::proofs::StandLemmas::document_stands))]
pub fn law_documents_stand_in_inputs()
    ensures { DocumentsStandInInputs }
{}

/// The names of the parts that a document declares are names, and their numbers are within the
/// limit of a plan, as its delay is.
#[tactic(auto, using(crate::proofs::PartsLemmas::said_declarable))]
pub fn law_declared_parts_are_declarable()
    ensures { DeclaredPartsAreDeclarable }
{}

/// What is read of a document (`document_plan`) is what it declares by the grammar of documents
/// (`DeclaresPlan`), or its first fault there.
#[tactic(auto, using(crate::proofs::GrammarLemmas::document_read))]
pub fn law_documents_are_read_as_declared()
    ensures { DocumentsAreReadAsDeclared }
{}

/// A document declares a plan or has a first fault, never both, and one alone.
#[tactic(auto, using(crate::proofs::OneReadingLemmas::one_reading))]
pub fn law_documents_give_one_reading()
    ensures { DocumentsGiveOneReading }
{}
