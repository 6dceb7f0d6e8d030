// The store: what stands below the dkms root, read once.
ghost use Rattle.std.specs.Prelude.{◌≡◌};
ghost use Rattle.std.specs.Option.{option_copied};
ghost use Rattle.std.specs.Ordering.{is_lt};
ghost use Rattle.kb_store.specs.Accessors as part;
ghost use Rattle.kb_store.specs.Claims.{lesser};

use crate::place::{Places, last_name};
use kb_world::{Key, RelPath, Sequence, Spot, Text};

/// A build of an added version: its modules' places below the kernel's directory, in the order of its conf.
#[derive(Debug, Drop)]
pub struct Build {
    pub key: Key,
    pub spot: Spot,
    pub targets: Places,
}

/// Which version of a module is installed for a spot.
#[derive(Debug, Drop)]
pub struct Installation {
    pub module: Text,
    pub spot: Spot,
    pub version: Text,
}

/// The files that a module displaced for a spot, by their paths below the kernel's directory.
#[derive(Debug, Drop)]
pub struct Chest {
    pub module: Text,
    pub spot: Spot,
    pub files: Places,
}

/// What stands below the dkms root: the added packages, the builds, the installed versions and the kept files, each
/// list by the order of their paths there.
#[derive(Debug, Drop)]
pub struct Store {
    added: Sequence<Key>,
    builds: Sequence<Build>,
    installed: Sequence<Installation>,
    chests: Sequence<Chest>,
}

/// A place at which an installed module has put a file, and the module.
#[derive(Clone, Copy, Debug)]
pub struct Claim<'a> {
    pub path: &'a RelPath,
    pub module: &'a Text,
}

fn is_same_spot(a: &Spot, b: &Spot) -> bool
    ensures { result ≡ part.same_spot a.now b.now }
{
    a.kernel.as_str() == b.kernel.as_str() && a.arch.as_str() == b.arch.as_str()
}

fn is_installation(installation: &Installation, module: &str, spot: &Spot) -> bool
    ensures { result ≡ part.is_installation «module».now spot.now installation.now }
{
    installation.module.as_str() == module && is_same_spot(&installation.spot, spot)
}

fn is_chest(chest: &Chest, module: &str, spot: &Spot) -> bool
    ensures { result ≡ part.is_chest «module».now spot.now chest.now }
{
    chest.module.as_str() == module && is_same_spot(&chest.spot, spot)
}

// Whether it is a build for the kernel, but not of this module for this architecture.
fn is_other(build: &Build, kernel: &str, module: &str, arch: &str) -> bool
    ensures { result ≡ part.is_other kernel.now «module».now arch.now build.now }
{
    build.spot.kernel.as_str() == kernel
        && !(build.key.module.as_str() == module && build.spot.arch.as_str() == arch)
}

fn is_less(a: &Claim, b: &Claim) -> bool
    ensures { result ≡ is_lt (part.claim_cmp (part.told_claim a.now) (part.told_claim b.now)) }
{
    a.path
        .names()
        .cmp(b.path.names())
        .then(a.module.cmp(b.module))
        .is_lt()
}

// The lesser of two claims.
fn lesser_of<'a>(a: Option<Claim<'a>>, b: Option<Claim<'a>>) -> Option<Claim<'a>>
    ensures { part.told result ≡ lesser (part.told a.entry) (part.told b.entry) }
{
    match (a, b) {
        (Some(a), Some(b)) => { if is_less(&b, &a) { Some(b) } else { Some(a) } }
        (Some(a), None) => Some(a),
        (None, b) => b,
    }
}

// The least claim of the module to a place with this last name.
fn least_claim<'a>(places: &'a [RelPath], file: &str, module: &'a Text) -> Option<Claim<'a>>
    ensures { part.told result ≡ part.least_claim (part.claims_at file.now «module».now places.now) }
{
    let mut least = None;
    for place in places {
        if last_name(place) == file {
            let claim = Claim {
                path: place,
                module,
            };
            least = lesser_of(least, Some(claim));
        }
    }
    least
}

impl Store {
    // The store with these parts.
    pub(crate) fn of(
        added: Sequence<Key>,
        builds: Sequence<Build>,
        installed: Sequence<Installation>,
        chests: Sequence<Chest>,
    ) -> Store
        ensures { result ≡ record { added = added; builds = builds; installed = installed; chests = chests } }
    {
        Store {
            added,
            builds,
            installed,
            chests,
        }
    }

    /// The added packages.
    pub fn added(&self) -> &[Key]
        ensures { result.now ≡ part.added_in self.now }
    {
        self.added.as_slice()
    }

    /// The builds of added versions that have all their files.
    pub fn builds(&self) -> &[Build]
        ensures { result.now ≡ part.builds_in self.now }
    {
        self.builds.as_slice()
    }

    /// The version of the module that is installed for the spot.
    pub fn installed(&self, module: &str, spot: &Spot) -> Option<&Text>
        ensures { option_copied result ≡ part.installed_in self.now «module».now spot.now }
    {
        for installation in self.installed.as_slice() {
            if is_installation(installation, module, spot) {
                return Some(&installation.version);
            }
        }
        None
    }

    /// The files that the module displaced for the spot.
    pub fn kept(&self, module: &str, spot: &Spot) -> &[RelPath]
        ensures { result.now ≡ part.kept_in self.now «module».now spot.now }
    {
        for chest in self.chests.as_slice() {
            if is_chest(chest, module, spot) {
                return chest.files.as_slice();
            }
        }
        &[]
    }

    // Whether the build is that of the version that is installed of its module for its spot.
    fn is_installed_build(&self, build: &Build) -> bool
        ensures { result ≡ part.is_installed_build self.now build.now }
    {
        match self.installed(build.key.module.as_str(), &build.spot) {
            Some(version) => version.as_str() == build.key.version.as_str(),
            None => false,
        }
    }

    // The least claim of a build, whose places are looked at before the installations are.
    fn claim_of<'a>(
        &self,
        build: &'a Build,
        kernel: &str,
        file: &str,
        module: &str,
        arch: &str,
    ) -> Option<Claim<'a>>
        ensures { part.told result ≡ part.least_claim (part.claims_of self.now kernel.now file.now «module».now arch.now build.now) }
    {
        if !is_other(build, kernel, module, arch) {
            return None;
        }
        let claim = least_claim(build.targets.as_slice(), file, &build.key.module);
        if claim.is_some() && self.is_installed_build(build) {
            claim
        } else {
            None
        }
    }

    /// Who else claims a file of this name for the kernel: the least claim of an installed build that isn't of this
    /// module for this architecture.
    pub fn claimant(&self, kernel: &str, file: &str, module: &str, arch: &str) -> Option<Claim<'_>>
        ensures { part.told result ≡ part.claimant_in self.now kernel.now file.now «module».now arch.now }
    {
        let mut least = None;
        for build in self.builds.as_slice() {
            let claim = self.claim_of(build, kernel, file, module, arch);
            least = lesser_of(least, claim);
        }
        least
    }
}
