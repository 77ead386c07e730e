// Findings and readings fit together.
ghost use Rattle.std.specs.Prelude.{◌≡◌, [], Some};
ghost use Rattle.serde_json.specs.Data.{Data};
ghost use Rattle.cdk_language.specs.Application.{application_of as application_in};
ghost use Rattle.cdk_language.specs.Construct.{Application};
ghost use Rattle.cdk_language.specs.Findings.{findings};

/// The law that a document in which nothing is found has an application.
pub fn clean_document_has_application()
    ensures { (d : Data) → findings d ≡ [] → (a : Application) × (application_in d ≡ Some a) }
{}
