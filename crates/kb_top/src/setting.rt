// The machine that a program's surroundings tell of.
ghost use Rattle.std.specs.Prelude.{◌≡◌, IfOk, IsErrOf};
ghost use Rattle.std.specs.List.{list_all};
ghost use Rattle.kb_world.specs.Path.{are_apart};
ghost use Rattle.kb_world.specs.Roots.{AreApart, based_roots};
ghost use Rattle.kb_top.specs.Setting.{IsPathOf, IsNoPath, IsBase, IsBadBase, HasBoot, IsBadBootFor, IsHostOf, IsBadRoot, IsBadBoot};
ghost use Rattle.kb_top.specs.declared.setting.SettingError.TheVariants.{BadRoot, BadBoot, NoMemory};

use kb_world::{Host, Path, PathError, Roots, Text};
use std::alloc::{AllocError, Global};

/// What a program is told of its surroundings: the environment's `KMODBOOT_ROOT` and `KMODBOOT_BOOT`, and the
/// running kernel's release and machine as `uname` prints them. Each is absent where it isn't set or can't be had.
/// The root is the directory that the usual places are looked for below, `/` where it is absent; the boot is the boot
/// partition's directory, in place of the usual one.
#[derive(Debug, Drop)]
pub struct Setting {
    pub root: Option<Text>,
    pub boot: Option<Text>,
    pub release: Option<Text>,
    pub machine: Option<Text>,
}

// Why a setting tells of no machine.
#[derive(Clone, Copy)]
pub enum SettingError {
    BadRoot,
    BadBoot,
    NoMemory,
}

impl From<AllocError> for SettingError {
    ghost from_gives = { λ _ e. e ≡ NoMemory };

    fn from(_: AllocError) -> Self {
        SettingError::NoMemory
    }
}

fn copy_if_any(text: &Option<Text>) -> Result<Option<Text>, AllocError>
    ensures { IfOk result (λ made. made ≡ text.now) }
{
    match text {
        Some(text) => Ok(Some(text.clone()?)),
        None => Ok(None),
    }
}

fn base_of(alloc: Global, root: &Option<Text>) -> Result<Path, SettingError>
    ensures base { IfOk result (IsBase root.now) }
    ensures bad_root { IsErrOf result BadRoot → IsBadBase root.now }
    ensures good_boot { IsErrOf result BadBoot → ⊥ }
{
    match root {
        Some(text) => match Path::parse(alloc, text.as_str()) {
            Ok(base) => Ok(base),
            Err(PathError::NotAPath) => Err(SettingError::BadRoot),
            Err(PathError::NoMemory) => Err(SettingError::NoMemory),
        },
        None => Ok(Path::root(alloc)),
    }
}

fn boot_of(alloc: Global, text: &Text) -> Result<Path, SettingError>
    ensures boot { IfOk result (IsPathOf text.now) }
    ensures bad_boot { IsErrOf result BadBoot → IsNoPath text.now }
    ensures good_root { IsErrOf result BadRoot → ⊥ }
{
    match Path::parse(alloc, text.as_str()) {
        Ok(boot) => Ok(boot),
        Err(PathError::NotAPath) => Err(SettingError::BadBoot),
        Err(PathError::NoMemory) => Err(SettingError::NoMemory),
    }
}

fn is_apart(a: &Path, b: &Path) -> bool
    ensures { result ≡ are_apart a.now b.now }
{
    !a.is_under(b) && !b.is_under(a)
}

// Whether the boot is apart from each of the other roots.
fn is_boot_apart(roots: &Roots) -> bool
    ensures { result ≡ list_all (are_apart roots.now.boot) (based_roots roots.now) }
{
    is_apart(&roots.boot, &roots.dkms)
        && is_apart(&roots.boot, &roots.src)
        && is_apart(&roots.boot, &roots.modules)
        && is_apart(&roots.boot, &roots.etc)
        && is_apart(&roots.boot, &roots.lib)
        && is_apart(&roots.boot, &roots.proc)
}

fn roots_of(alloc: Global, base: &Path, boot: &Option<Text>) -> Result<Roots, SettingError>
    ensures roots { IfOk result (HasBoot boot.now base.now) }
    ensures apart { IfOk result AreApart }
    ensures bad_boot { IsErrOf result BadBoot → IsBadBootFor base.now boot.now }
    ensures good_root { IsErrOf result BadRoot → ⊥ }
{
    let mut roots = Roots::under(alloc, base)?;
    match boot {
        Some(text) => {
            roots.boot = boot_of(alloc, text)?;
            if is_boot_apart(&roots) {
                Ok(roots)
            } else {
                Err(SettingError::BadBoot)
            }
        }
        None => Ok(roots),
    }
}

/// The machine that the setting tells of.
pub fn host_of(alloc: Global, setting: &Setting) -> Result<Host, SettingError>
    ensures host { IfOk result (IsHostOf setting.now) }
    ensures bad_root { IsErrOf result BadRoot → IsBadRoot setting.now }
    ensures bad_boot { IsErrOf result BadBoot → IsBadBoot setting.now }
{
    let base = base_of(alloc, &setting.root)?;
    let roots = roots_of(alloc, &base, &setting.boot)?;
    let arch = match &setting.machine {
        Some(machine) => machine.clone()?,
        None => Text::of(alloc, "unknown")?,
    };
    Ok(Host {
        kernel: copy_if_any(&setting.release)?,
        arch,
        roots,
    })
}
