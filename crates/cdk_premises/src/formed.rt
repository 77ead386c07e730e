//! That an application that was read without a finding has well-formed expressions, conditions, mappings and contexts, and that what is
//! rendered of it is therefore canonical: laws over the definitions of its reading, of its tree and of plain forms.

// What the crates above may rely on: each function stands for the law in its contract, and does nothing.
ghost use Rattle.cdk_premises.specs.FormedLaws.{ApplicationsAreFormed, ConditionsAreCanonical, ConditionsAreWell, ConditionsHaveOneMember, FormsAreCanonical, FormsAreWell, MappingsAreWell, PropertiesAreObjects, TreesAreFormed, TreesStayFormed};

/// The law that in an application that is read without a finding each construct is formed for itself: delimiters of splits
/// are not empty, indexes have 64 bits, no object has an intrinsic's key, `Fn::And` and `Fn::Or` have 2 to 10 parts, mappings
/// are objects of objects of leaves, properties are objects, and contexts and the defaults of Contexts are canonical literals.
pub fn applications_are_formed()
    ensures { ApplicationsAreFormed }
{}

/// The law that the tree of such an application is formed: what each Context finds is a canonical literal, too.
pub fn trees_are_formed()
    ensures { TreesAreFormed }
{}

/// The law that its tree stays formed with settings in which nothing is found.
pub fn trees_stay_formed()
    ensures { TreesStayFormed }
{}

/// The law that in a sound tree that is formed the plain form of a resource's properties, an output or a lazy is well and
/// ordered, however often lazies are opened.
pub fn forms_are_well()
    ensures { FormsAreWell }
{}

/// The law that what is rendered of it is canonical, however targets are spelled.
pub fn forms_are_canonical()
    ensures { FormsAreCanonical }
{}

/// The law that the plain form of a resource's properties is an object, and so is what is rendered of it.
pub fn properties_are_objects()
    ensures { PropertiesAreObjects }
{}

/// The law that the plain form of a condition is well, and its operands are ordered.
pub fn conditions_are_well()
    ensures { ConditionsAreWell }
{}

/// The law that what is rendered of it is canonical.
pub fn conditions_are_canonical()
    ensures { ConditionsAreCanonical }
{}

/// The law that what is rendered of a condition is an object of one member.
pub fn conditions_have_one_member()
    ensures { ConditionsHaveOneMember }
{}

/// The law that a mapping is an object of objects of leaves, canonical and no deeper than that.
pub fn mappings_are_well()
    ensures { MappingsAreWell }
{}
