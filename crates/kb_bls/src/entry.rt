// What a boot entry says.
ghost use Rattle.std.specs.Prelude.{◌∷◌, ◌++◌, [], List, OnOk};

use kb_world::{Text, Texts};
use std::alloc::{AllocError, Global};

/// A Type #1 entry: the value of each key of this profile that the entry gives one to. The paths of
/// `linux`, `efi`, `initrd` and `devicetree` begin at the root of the boot partition.
#[derive(Debug, Drop)]
pub struct Entry {
    pub title: Option<Text>,
    pub version: Option<Text>,
    pub machine_id: Option<Text>,
    pub sort_key: Option<Text>,
    /// Parts of the kernel's command line.
    pub options: Texts,
    pub linux: Option<Text>,
    pub efi: Option<Text>,
    pub initrd: Texts,
    pub devicetree: Option<Text>,
    pub architecture: Option<Text>,
}

impl Entry {
    ghost use Rattle.kb_bls.specs.Fields.{Field};
    ghost use Rattle.kb_bls.specs.Text.{Has};

    /// An entry that gives no key a value.
    pub fn new(alloc: Global) -> Entry
        ensures { Has result [] }
    {
        Entry {
            title: None,
            version: None,
            machine_id: None,
            sort_key: None,
            options: Texts::new(alloc),
            linux: None,
            efi: None,
            initrd: Texts::new(alloc),
            devicetree: None,
            architecture: None,
        }
    }

    /// Takes what a further line says. A key of another profile changes nothing.
    pub(crate) fn take(&mut self, key: &str, value: Text) -> Result<(), AllocError>
        ensures { OnOk result ((said : List Field) → Has self.old said → Has self.new (said ++ (record { key = key.now; value = value }) ∷ [])) }
    {
        match key {
            "title" => self.title = Some(value),
            "version" => self.version = Some(value),
            "machine-id" => self.machine_id = Some(value),
            "sort-key" => self.sort_key = Some(value),
            "options" => self.options.push(value)?,
            "linux" => self.linux = Some(value),
            "efi" => self.efi = Some(value),
            "initrd" => self.initrd.push(value)?,
            "devicetree" => self.devicetree = Some(value),
            "architecture" => self.architecture = Some(value),
            _ => {}
        }
        Ok(())
    }
}
