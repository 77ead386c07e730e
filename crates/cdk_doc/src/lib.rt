//! The application of a JSON document: the reader of bytes, and settings.
#![tactic(auto)]

mod law;
mod reader;
mod settings;

pub use law::clean_document_has_application;
pub use reader::read_app;
pub use settings::with_settings;
