// What the crates above may rely on: each function stands for the law in its contract, and does nothing.
ghost use Rattle.cdk_manifest.specs.ManifestLaws.{ManifestsAreWhole, ManifestsTellStacks};

/// The law that the manifest of an application of one stack is read back as it is, and has the form that is asked of it.
pub fn manifests_are_whole()
    ensures { ManifestsAreWhole }
{}

/// The law that such a manifest tells the application's stacks, and no nested assembly.
pub fn manifests_tell_stacks()
    ensures { ManifestsTellStacks }
{}
