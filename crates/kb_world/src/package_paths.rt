// Where the parts of a package stand.
ghost use Rattle.std.specs.Prelude.{◌≡◌, ◌++◌, ◌∷◌, [], codes, IfOk, IsTrue};
ghost use Rattle.kb_world.specs.Names.{is_word};
ghost use Rattle.kb_world.specs.Path.{child};
ghost use Rattle.kb_world.specs.Store as store;
ghost use Rattle.kb_world.specs.Boxes as boxes;
ghost use Rattle.kb_world.specs.StorePath.{is_key, is_spot, kernel_link_name, path_of};
ghost use Rattle.kb_world.specs.declared.store_path.StorePath.TheVariants.{InScratch, InBox};

use crate::job::{Key, Spot};
use crate::path::Path;
use crate::roots::Roots;
use crate::text::Text;
use std::alloc::{AllocError, Global};

// The directory of a spot in a directory.
fn spot_dir(alloc: Global, directory: &Path, spot: &Spot) -> Result<Path, AllocError>
    requires { IsTrue (is_spot spot.now) }
    ensures { IfOk result (λ path. path ≡ directory.now ++ spot.now.kernel ∷ spot.now.arch ∷ []) }
{
    directory.descend(alloc, &spot.kernel, &spot.arch)
}

// `kernel-KERNEL-ARCH`.
fn link_name(alloc: Global, spot: &Spot) -> Result<Text, AllocError>
    ensures { IfOk result (λ name. name ≡ kernel_link_name spot.now) }
{
    let kernel = &spot.kernel;
    let arch = &spot.arch;
    Ok(Text::from_string(format!(in alloc; "kernel-{kernel}-{arch}")?))
}

impl Roots {
    /// The directory of a module's versions, links and kept files.
    pub fn module_dir(&self, alloc: Global, module: &Text) -> Result<Path, AllocError>
        requires { IsTrue (is_word «module».now) }
        ensures { IfOk result (λ path. path ≡ child self.now.dkms «module».now) }
    {
        self.dkms.child(alloc, module.as_str())
    }

    /// The directory of a version.
    pub fn version_dir(&self, alloc: Global, key: &Key) -> Result<Path, AllocError>
        requires { IsTrue (is_key key.now) }
        ensures { IfOk result (λ path. path ≡ store.version_path self.now key.now) }
    {
        self.dkms.descend(alloc, &key.module, &key.version)
    }

    /// The link that says that a version is added.
    pub fn source_link(&self, alloc: Global, key: &Key) -> Result<Path, AllocError>
        requires { IsTrue (is_key key.now) }
        ensures { IfOk result (λ path. path ≡ store.link_path self.now key.now) }
    {
        self.version_dir(alloc, key)?.child(alloc, "source")
    }

    /// The directory of a version's source, which its link says.
    pub fn source_dir(&self, alloc: Global, key: &Key) -> Result<Path, AllocError>
        requires { IsTrue (is_key key.now) }
        ensures { IfOk result (λ path. path ≡ store.source_path self.now key.now) }
    {
        let name = format!(in alloc; "{}-{}", key.module, key.version)?;
        self.src.child(alloc, &name)
    }

    /// The scratch tree of a version's build.
    pub fn scratch(&self, alloc: Global, key: &Key) -> Result<Path, AllocError>
        requires { IsTrue (is_key key.now) }
        ensures { IfOk result (λ path. path ≡ path_of self.now (InScratch key.now [])) }
    {
        self.version_dir(alloc, key)?.child(alloc, "build")
    }

    /// The directory of a build.
    pub fn build_box(&self, alloc: Global, key: &Key, spot: &Spot) -> Result<Path, AllocError>
        requires keyed { IsTrue (is_key key.now) }
        requires spotted { IsTrue (is_spot spot.now) }
        ensures { IfOk result (λ path. path ≡ path_of self.now (InBox key.now spot.now [])) }
    {
        let version = self.version_dir(alloc, key)?;
        spot_dir(alloc, &version, spot)
    }

    /// The file with the places of a build's modules.
    pub fn targets(&self, alloc: Global, key: &Key, spot: &Spot) -> Result<Path, AllocError>
        requires keyed { IsTrue (is_key key.now) }
        requires spotted { IsTrue (is_spot spot.now) }
        ensures { IfOk result (λ path. path ≡ boxes.targets_path self.now key.now spot.now) }
    {
        let directory = self.build_box(alloc, key, spot)?;
        directory.child(alloc, "targets")
    }

    /// The directory of a build's modules.
    pub fn modules_dir(&self, alloc: Global, key: &Key, spot: &Spot) -> Result<Path, AllocError>
        requires keyed { IsTrue (is_key key.now) }
        requires spotted { IsTrue (is_spot spot.now) }
        ensures { IfOk result (λ path. path ≡ boxes.in_box self.now key.now spot.now (codes "module" ∷ [])) }
    {
        let directory = self.build_box(alloc, key, spot)?;
        directory.child(alloc, "module")
    }

    /// The link that says which version of a module is installed for a spot.
    pub fn kernel_link(&self, alloc: Global, module: &Text, spot: &Spot) -> Result<Path, AllocError>
        requires worded { IsTrue (is_word «module».now) }
        requires spotted { IsTrue (is_spot spot.now) }
        ensures { IfOk result (λ path. path ≡ boxes.kernel_link_path self.now «module».now spot.now) }
    {
        let name = link_name(alloc, spot)?;
        self.dkms.descend(alloc, module, &name)
    }

    /// The directory with the files that a module displaced for a spot.
    pub fn chest(&self, alloc: Global, module: &Text, spot: &Spot) -> Result<Path, AllocError>
        requires worded { IsTrue (is_word «module».now) }
        requires spotted { IsTrue (is_spot spot.now) }
        ensures { IfOk result (λ path. path ≡ boxes.chest_path self.now «module».now spot.now) }
    {
        let originals = self
            .module_dir(alloc, module)?
            .child(alloc, "original_module")?;
        spot_dir(alloc, &originals, spot)
    }
}
