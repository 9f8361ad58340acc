// For C: which version the archive is of, at run time.
#![tactic(auto)]

ghost use Rattle.pajurenda_version.specs.Version.{VersionCall};

// The three numbers of the version in one word.
pub fn pajurenda_version() -> u32
    ensures { VersionCall result }
{
    3840
}
