// What the paths below the dkms root are for.
ghost use Rattle.std.specs.Prelude.{◌≡◌, ◌++◌, List, ℕ, IfOk, IfSome, IsTrue};
ghost use Rattle.kb_world.specs.Path.{IsPath};
ghost use Rattle.kb_world.specs.StorePath as map;

use crate::job::{Key, Spot};
use crate::links::{spot_if, spot_of_link};
use crate::names::{is_version, is_word};
use crate::path::Path;
use crate::rel_path::RelPath;
use crate::roots::Roots;
use crate::text::Text;
use std::alloc::{AllocError, Global};

/// What a path below the dkms root is for. Every other path there is for nothing, as that of a module's directory.
#[derive(Debug, Drop)]
pub enum StorePath {
    /// `MODULE/VERSION/source`: the link that says that the version is added.
    SourceLink(Key),
    /// `MODULE/VERSION/build` and what is below it: the scratch tree of a build, by the names below it.
    InScratch(Key, RelPath),
    /// `MODULE/VERSION/KERNEL/ARCH/targets`: the places of a build's modules.
    Targets(Key, Spot),
    /// `MODULE/VERSION/KERNEL/ARCH` and what else is below it, by the names below it: the modules in `module`, and what
    /// make wrote in `log/make.log`.
    InBox(Key, Spot, RelPath),
    /// `MODULE/kernel-KERNEL-ARCH`: the link that says which version is installed.
    KernelLink(Text, Spot),
    /// `MODULE/original_module/KERNEL/ARCH` and what is below it: the files that the module displaced, by their names
    /// below the kernel's directory.
    InChest(Text, Spot, RelPath),
}

fn is_targets(rest: &[Text]) -> bool
    ensures { result ≡ map.is_targets rest.now }
{
    match rest {
        [name] => name.as_str() == "targets",
        _ => false,
    }
}

fn rest_of(alloc: Global, names: &[Text]) -> Result<RelPath, AllocError>
    requires { IsPath names.now }
    ensures { IfOk result (λ rest. rest ≡ names.now) }
{
    Ok(RelPath::new(names.to_vec(alloc)?))
}

fn box_path(alloc: Global, key: Key, spot: Spot, rest: &[Text]) -> Result<StorePath, AllocError>
    requires { IsPath rest.now }
    ensures { IfOk result (λ place. place ≡ map.box_path key rest.now spot) }
{
    if is_targets(rest) {
        Ok(StorePath::Targets(key, spot))
    } else {
        Ok(StorePath::InBox(key, spot, rest_of(alloc, rest)?))
    }
}

fn box_entry(
    alloc: Global,
    key: Key,
    name: &Text,
    rest: &[Text],
) -> Result<Option<StorePath>, AllocError>
    requires { IsPath rest.now }
    ensures { IfOk result (λ told. told ≡ map.box_entry key name.now rest.now) }
{
    match rest.split_first() {
        Some((arch, rest)) => match spot_if(alloc, name.as_str(), arch.as_str())? {
            Some(spot) => Ok(Some(box_path(alloc, key, spot, rest)?)),
            None => Ok(None),
        },
        None if name.as_str() == "source" => Ok(Some(StorePath::SourceLink(key))),
        None => Ok(None),
    }
}

fn version_entry(
    alloc: Global,
    key: Key,
    name: &Text,
    rest: &[Text],
) -> Result<Option<StorePath>, AllocError>
    requires { IsPath rest.now }
    ensures { IfOk result (λ told. told ≡ map.version_entry key name.now rest.now) }
{
    if name.as_str() == "build" {
        Ok(Some(StorePath::InScratch(key, rest_of(alloc, rest)?)))
    } else {
        box_entry(alloc, key, name, rest)
    }
}

fn original_entry(
    alloc: Global,
    module: &Text,
    name: &Text,
    rest: &[Text],
) -> Result<Option<StorePath>, AllocError>
    requires { IsPath rest.now }
    ensures { IfOk result (λ told. told ≡ map.original_entry «module».now name.now rest.now) }
{
    match rest.split_first() {
        Some((arch, rest)) => match spot_if(alloc, name.as_str(), arch.as_str())? {
            Some(spot) => Ok(Some(StorePath::InChest(
                module.clone()?,
                spot,
                rest_of(alloc, rest)?,
            ))),
            None => Ok(None),
        },
        None => Ok(None),
    }
}

fn module_entry(
    alloc: Global,
    module: &Text,
    directory: &Text,
    name: &Text,
    rest: &[Text],
) -> Result<Option<StorePath>, AllocError>
    requires { IsPath rest.now }
    ensures { IfOk result (λ told. told ≡ map.module_entry «module».now directory.now name.now rest.now) }
{
    if is_version(directory.as_str()) {
        let key = Key {
            module: module.clone()?,
            version: directory.clone()?,
        };
        version_entry(alloc, key, name, rest)
    } else if directory.as_str() == "original_module" {
        original_entry(alloc, module, name, rest)
    } else {
        Ok(None)
    }
}

fn link_entry(alloc: Global, module: &Text, name: &Text) -> Result<Option<StorePath>, AllocError>
    ensures { IfOk result (λ told. told ≡ map.link_entry «module».now name.now) }
{
    match spot_of_link(alloc, name.as_str())? {
        Some(spot) => Ok(Some(StorePath::KernelLink(module.clone()?, spot))),
        None => Ok(None),
    }
}

// What the path with these names below the dkms root is for.
fn told_by(alloc: Global, names: &[Text]) -> Result<Option<StorePath>, AllocError>
    requires { IsPath names.now }
    ensures { IfOk result (λ told. told ≡ map.told_by names.now) }
{
    match names {
        [module, ..] if !is_word(module.as_str()) => Ok(None),
        [module, name] => link_entry(alloc, module, name),
        [module, directory, name, rest @ ..] => module_entry(alloc, module, directory, name, rest),
        _ => Ok(None),
    }
}

impl StorePath {
    /// What a path is for; none where it is for nothing, or isn't below the dkms root.
    pub fn of(alloc: Global, roots: &Roots, path: &Path) -> Result<Option<StorePath>, AllocError>
        ensures told { IfOk result (λ told. told ≡ map.store_path roots.now path.now) }
        ensures ruled { IfOk result (λ told. IfSome told (λ place. IsTrue (map.is_ruled place))) }
    {
        match path.below(&roots.dkms) {
            Some(names) => told_by(alloc, names),
            None => Ok(None),
        }
    }

    /// The path that is for this.
    pub fn path(&self, alloc: Global, roots: &Roots) -> Result<Path, AllocError>
        requires { IsTrue (map.is_ruled self.now) }
        ensures { IfOk result (λ path. path ≡ map.path_of roots.now self.now) }
    {
        match self {
            StorePath::SourceLink(key) => roots.source_link(alloc, key),
            StorePath::InScratch(key, rest) => roots.scratch(alloc, key)?.join(alloc, rest.names()),
            StorePath::Targets(key, spot) => roots.targets(alloc, key, spot),
            StorePath::InBox(key, spot, rest) => {
                roots.build_box(alloc, key, spot)?.join(alloc, rest.names())
            }
            StorePath::KernelLink(module, spot) => roots.kernel_link(alloc, module, spot),
            StorePath::InChest(module, spot, rest) => {
                roots.chest(alloc, module, spot)?.join(alloc, rest.names())
            }
        }
    }
}
