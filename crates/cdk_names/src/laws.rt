// What the crates above may rely on: each function stands for the law in its contract, and does nothing.
ghost use Rattle.cdk_names.specs.Laws.{UniqueIdsAreAlphanumeric, LetterFirstIsLogical, LogicalNamesAreAlphanumeric, StackNamesAreAscii, ExportNamesFit};

/// The law that a unique id has letters and digits of ASCII alone, at most 255.
pub fn unique_ids_are_alphanumeric()
    ensures { UniqueIdsAreAlphanumeric }
{}

/// The law that a unique id is a logical name where the first component begins with a letter and is neither
/// `Default` nor `Resource`.
pub fn letter_first_is_logical()
    ensures { LetterFirstIsLogical }
{}

/// The law that a logical name has letters and digits of ASCII alone, at most 255.
pub fn logical_names_are_alphanumeric()
    ensures { LogicalNamesAreAlphanumeric }
{}

/// The law that a stack name is ASCII, of at most 128.
pub fn stack_names_are_ascii()
    ensures { StackNamesAreAscii }
{}

/// The law that an export name is whole where it has at most 255 characters, and else has 255.
pub fn export_names_fit()
    ensures { ExportNamesFit }
{}
