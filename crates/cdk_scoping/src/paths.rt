// Paths by the order in which they were put in.
ghost use Rattle.std.specs.Prelude.{◌≡◌};
ghost use Rattle.cdk_scoping.specs.Paths.{path_number as spec_path_number};

use indexmap::IndexMap;

/// The number of a path among the keys of a map, the first being 0; None where it isn't there.
pub fn path_number<V>(paths: &IndexMap<String, V>, path: &str) -> Option<usize>
    ensures { result ≡ spec_path_number paths.now.entries path.now }
{
    paths.get_index_of(path)
}
