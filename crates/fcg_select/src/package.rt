//! Packages.
ghost use Rattle.std.specs.Prelude.{◌≡◌};
ghost use Rattle.fcg_analysis.specs.NamesAndFlags.{same, package_of};

// The name of the package of a type: what stands before the last slash.
fn find_package(name: &[u8]) -> &[u8]
    ensures { result.now ≡ package_of name.now }
{
    let mut end = 0;
    for (k, byte) in name.iter().enumerate() {
        if *byte == b'/' {
            end = k;
        }
    }
    &name[..end]
}

// Whether types of these names have one package.
pub(crate) fn is_same_package(one: &[u8], other: &[u8]) -> bool
    ensures { result ≡ same (package_of one.now) (package_of other.now) }
{
    find_package(one) == find_package(other)
}
