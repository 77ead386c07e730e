/// What a place of a document asks for: of the values file, of a template, or of an assembly's manifest. `may_nest` is
/// true where an assembly may have nested ones.
#[derive(Clone, Copy)]
pub enum Role {
    /// Any value, with anything in it.
    Anything,
    /// No value.
    Refused,
    AnyText,
    /// The name of one file or directory: not empty, without `/`, and neither `.` nor `..`.
    FileName,
    /// An object with anything in it.
    AnyObject,
    /// An object of texts.
    Texts,
    ValuesFile,
    /// By stack name.
    PhysicalStacks,
    /// By logical name.
    PhysicalNames,
    PhysicalEntry,
    /// By stack name, with texts by logical name.
    ParameterStacks,
    Pseudo,
    Template,
    Parameters,
    Parameter,
    ParameterDefault,
    Mappings,
    Mapping,
    Conditions,
    Resources,
    Resource,
    Outputs,
    Output,
    Export,
    Manifest { may_nest: bool },
    Artifacts { may_nest: bool },
    /// One whose `type` is not yet looked at.
    Artifact { may_nest: bool },
    StackArtifact,
    StackProperties,
    Dependencies,
    NestedAssembly { may_nest: bool },
    NestedProperties { may_nest: bool },
    OtherArtifact,
}
