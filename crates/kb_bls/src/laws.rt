//! What the relations say, whoever reads a text or a name.
ghost use Rattle.std.specs.Prelude.{◌≡◌, List, ℕ, Some};
ghost use Rattle.kb_bls.specs.Text.{IsEntryOf};
ghost use Rattle.kb_bls.specs.Names.{IsEntryName};
ghost use Rattle.kb_bls.specs.Reading.{Reading, name_reading};
ghost use Rattle.kb_bls.specs.declared.entry.Entry.{Entry};
ghost use Rattle.kb_bls.specs.declared.name.Counter.{Counter};

/// A text is one entry. So what is printed of an entry is read as that entry.
pub fn text_is_one_entry()
    ensures { (text : List ℕ) (a b : Entry) → IsEntryOf text a → IsEntryOf text b → a ≡ b }
{}

/// A name has one base and one counter, which are those that its reading computes.
pub fn name_is_read_one_way()
    ensures read { (name base : List ℕ) (counter : Counter) → IsEntryName name base counter → name_reading name ≡ Some (base, counter) }
    ensures is_name { (name : List ℕ) (read : Reading) → name_reading name ≡ Some read → IsEntryName name read.0 read.1 }
{}
