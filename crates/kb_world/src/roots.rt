// The directories that everything stands in.
ghost use Rattle.std.specs.Prelude.{◌≡◌, IfOk};
ghost use Rattle.kb_world.specs.Roots.{roots_under};

use crate::path::Path;
use std::alloc::{AllocError, Global};

/// The roots: the directories that hold what the tool keeps (`dkms`), sources (`src`), installed modules
/// (`modules`) and the boot partition (`boot`), and those that it only reads: configuration (`etc`), its vendor
/// defaults (`lib`) and the running kernel's (`proc`). `base` is the directory that all but `boot` are below.
#[derive(Debug, Drop)]
pub struct Roots {
    pub base: Path,
    pub dkms: Path,
    pub src: Path,
    pub modules: Path,
    pub boot: Path,
    pub etc: Path,
    pub lib: Path,
    pub proc: Path,
}

// The roots below a base that are written, and those that are only read. They are made apart, since each `?` drops what
// was made before it.
#[derive(Drop)]
struct WrittenRoots {
    dkms: Path,
    src: Path,
    modules: Path,
    boot: Path,
}

#[derive(Drop)]
struct ReadRoots {
    etc: Path,
    lib: Path,
    proc: Path,
}

fn dkms_under(alloc: Global, base: &Path) -> Result<Path, AllocError>
    ensures { IfOk result (λ path. path ≡ (roots_under base.now).dkms) }
{
    base.child(alloc, "var")?
        .child(alloc, "lib")?
        .child(alloc, "dkms")
}

impl WrittenRoots {
    fn under(alloc: Global, base: &Path) -> Result<WrittenRoots, AllocError>
        ensures dkms { IfOk result (λ made. made.dkms ≡ (roots_under base.now).dkms) }
        ensures src { IfOk result (λ made. made.src ≡ (roots_under base.now).src) }
        ensures modules { IfOk result (λ made. made.«modules» ≡ (roots_under base.now).«modules») }
        ensures boot { IfOk result (λ made. made.boot ≡ (roots_under base.now).boot) }
    {
        Ok(WrittenRoots {
            dkms: dkms_under(alloc, base)?,
            src: base.child(alloc, "usr")?.child(alloc, "src")?,
            modules: base.child(alloc, "lib")?.child(alloc, "modules")?,
            boot: base.child(alloc, "boot")?,
        })
    }

    fn of(roots: &Roots) -> Result<WrittenRoots, AllocError>
        ensures dkms { IfOk result (λ made. made.dkms ≡ roots.now.dkms) }
        ensures src { IfOk result (λ made. made.src ≡ roots.now.src) }
        ensures modules { IfOk result (λ made. made.«modules» ≡ roots.now.«modules») }
        ensures boot { IfOk result (λ made. made.boot ≡ roots.now.boot) }
    {
        Ok(WrittenRoots {
            dkms: roots.dkms.clone()?,
            src: roots.src.clone()?,
            modules: roots.modules.clone()?,
            boot: roots.boot.clone()?,
        })
    }
}

impl ReadRoots {
    fn under(alloc: Global, base: &Path) -> Result<ReadRoots, AllocError>
        ensures etc { IfOk result (λ made. made.etc ≡ (roots_under base.now).etc) }
        ensures lib { IfOk result (λ made. made.lib ≡ (roots_under base.now).lib) }
        ensures proc { IfOk result (λ made. made.proc ≡ (roots_under base.now).proc) }
    {
        Ok(ReadRoots {
            etc: base.child(alloc, "etc")?,
            lib: base.child(alloc, "usr")?.child(alloc, "lib")?,
            proc: base.child(alloc, "proc")?,
        })
    }

    fn of(roots: &Roots) -> Result<ReadRoots, AllocError>
        ensures etc { IfOk result (λ made. made.etc ≡ roots.now.etc) }
        ensures lib { IfOk result (λ made. made.lib ≡ roots.now.lib) }
        ensures proc { IfOk result (λ made. made.proc ≡ roots.now.proc) }
    {
        Ok(ReadRoots {
            etc: roots.etc.clone()?,
            lib: roots.lib.clone()?,
            proc: roots.proc.clone()?,
        })
    }
}

impl Roots {
    /// The usual places below a base: `var/lib/dkms`, `usr/src`, `lib/modules`, `boot`, `etc`, `usr/lib` and `proc`.
    pub fn under(alloc: Global, base: &Path) -> Result<Roots, AllocError>
        ensures { IfOk result (λ roots. roots ≡ roots_under base.now) }
    {
        let written = WrittenRoots::under(alloc, base)?;
        let read = ReadRoots::under(alloc, base)?;
        Ok(Roots {
            base: base.clone()?,
            dkms: written.dkms,
            src: written.src,
            modules: written.modules,
            boot: written.boot,
            etc: read.etc,
            lib: read.lib,
            proc: read.proc,
        })
    }
}

impl Clone for Roots {
    ghost is_clone = { λ roots made. made ≡ roots };

    fn clone(&self) -> Result<Self, AllocError> {
        let written = WrittenRoots::of(self)?;
        let read = ReadRoots::of(self)?;
        Ok(Roots {
            base: self.base.clone()?,
            dkms: written.dkms,
            src: written.src,
            modules: written.modules,
            boot: written.boot,
            etc: read.etc,
            lib: read.lib,
            proc: read.proc,
        })
    }
}
