//! The table of macros.
ghost use Rattle.std.specs.Prelude.{◌≡◌, ◌++◌, ◌∷◌, [], ◌&&◌, map, length, option_map, true, None, OnOk, OnErr, IfOk};
ghost use Rattle.std.specs.Option.{option_copied};
ghost use Rattle.model_macros.specs.Macros as macros;
ghost use Rattle.pp_definitions.specs.Answers.{Defines};

use crate::definition::{MacroDef, fault, predefined};
use crate::errors::MacroError;
use crate::rules::REDEFINED;
use c_tokens::PpKind;
use cake_base::{FileName, NoMemory};
use indexmap::IndexMap;
use model_macros::macros::Role;
use std::alloc::Global;
use std::marker::Model;

/// The macros that are defined, in the order in which their names were first seen, and the names of
/// files. Contracts see the record of both lists.
pub struct MacroTable {
    macros: IndexMap<Vec<u8>, MacroDef>,
    files: IndexMap<u32, FileName>,
}

impl Model for MacroTable {
    ghost use Rattle.std.specs.Prelude.{map};
    ghost use Rattle.model_macros.specs.Macros.{Macros};

    ghost Value = { Macros };

    ghost view = { λ t. record { entries = map (λ e. (e.0.items, e.1)) t.macros.entries; files = map (λ e. (e.0, e.1)) t.files.entries } };
}

impl Drop for MacroTable {
    fn drop(self) {
        let MacroTable {
            macros: _,
            files: _,
        } = self;
    }
}

impl MacroTable {
    /// The table of the predefined macros (ISO/IEC 9899:2024, 6.10.10).
    pub fn new(alloc: Global) -> Result<MacroTable, NoMemory>
        ensures { IfOk result (λ t. t ≡ macros.first_table) }
    {
        let mut table = MacroTable::empty(alloc);
        table.add_predefined(alloc)?;
        Ok(table)
    }

    /// Adds the predefined macros to an empty table.
    fn add_predefined(&mut self, alloc: Global) -> Result<(), NoMemory>
        requires { self.old ≡ record { entries = []; files = [] } }
        ensures { OnOk result (self.new ≡ macros.first_table) }
    {
        self.add_token(alloc, b"__FILE__", PpKind::Name, b"__FILE__", Role::File)?;
        self.add_token(alloc, b"__LINE__", PpKind::Name, b"__LINE__", Role::Line)?;
        self.add_token(alloc, b"__STDC__", PpKind::Number, b"1", Role::Plain)?;
        self.add_token(
            alloc,
            b"__STDC_VERSION__",
            PpKind::Number,
            b"202311L",
            Role::Plain,
        )?;
        self.add_token(alloc, b"__STDC_HOSTED__", PpKind::Number, b"1", Role::Plain)?;
        self.add_token(alloc, b"__CAKE__", PpKind::Number, b"1", Role::Plain)?;
        Ok(())
    }

    /// The table of no macro.
    fn empty(alloc: Global) -> MacroTable
        ensures { result ≡ record { entries = []; files = [] } }
    {
        MacroTable {
            macros: IndexMap::new(alloc),
            files: IndexMap::new(alloc),
        }
    }

    /// Adds a macro of one token.
    fn add_token(
        &mut self,
        alloc: Global,
        name: &[u8],
        kind: PpKind,
        spelling: &[u8],
        role: Role,
    ) -> Result<(), NoMemory>
        requires { macros.found name.now self.old.entries ≡ None }
        ensures { OnOk result (self.new ≡ record self.old { entries = self.old.entries ++ (name.now, macros.predefined name.now kind spelling.now role) ∷ [] }) }
    {
        let def = predefined(alloc, name, kind, spelling, role)?;
        self.add(def)
    }

    /// The macro of that name, if it is defined.
    pub fn find(&self, name: &[u8]) -> Option<&MacroDef>
        ensures { option_copied result ≡ macros.found name.now self.now.entries }
    {
        self.macros.get(name)
    }

    /// The macro of that name with its rank, if it is defined.
    pub fn ranked(&self, name: &[u8]) -> Option<(usize, &MacroDef)>
        ensures { option_map (λ r. (r.0, r.1.now)) result ≡ macros.ranked name.now self.now.entries }
    {
        match self.macros.get_full(name) {
            Some((rank, _, def)) => Some((rank, def)),
            None => None,
        }
    }

    /// Takes a macro out of the table, and tells whether it was there.
    pub fn undef(&mut self, name: &[u8]) -> bool
        ensures held { result ≡ macros.defines name.now self.old.entries }
        ensures table { self.new ≡ record self.old { entries = macros.without name.now self.old.entries } }
    {
        self.macros.shift_remove(name).is_some()
    }

    /// Whether a macro of its name stands, and the definition may stand there too.
    fn standing(&self, def: &MacroDef) -> Option<bool>
        ensures { result ≡ option_map (λ old. macros.same_definition old def.now) (macros.found def.now.name self.now.entries) }
    {
        match self.find(def.name()) {
            Some(old) => Some(def.same(old)),
            None => None,
        }
    }

    /// Defines a macro.
    ///
    /// The fault is P01 at the place of the definition: another definition of its name stands, which
    /// differs in kind, in its parameters, in a spelling or in white space before a token but the first
    /// (ISO/IEC 9899:2024, 6.10.5). After a refusal the table is as before.
    pub fn define(&mut self, def: MacroDef) -> Result<(), MacroError>
        ensures { Defines self.old def result self.new }
    {
        match self.standing(&def) {
            Some(true) => {
                drop(def);
                Ok(())
            }
            Some(false) => {
                let at = def.at();
                drop(def);
                Err(fault(at, REDEFINED))
            }
            None => match self.add(def) {
                Ok(()) => Ok(()),
                Err(NoMemory) => Err(MacroError::NoMemory),
            },
        }
    }

    /// Adds a macro whose name isn't held.
    fn add(&mut self, def: MacroDef) -> Result<(), NoMemory>
        requires { macros.found def.name self.old.entries ≡ None }
        ensures ok { OnOk result (self.new ≡ record self.old { entries = self.old.entries ++ (def.name, def) ∷ [] }) }
        ensures err { OnErr result (self.new ≡ self.old) }
    {
        let name = Vec::from_slice(*self.macros.allocator(), def.name())?;
        self.macros.insert(name, def)?;
        Ok(())
    }

    /// Gives `__FILE__` its text for the tokens of a file. After a refusal the table is as before.
    pub fn name_file(&mut self, file: u32, name: &str) -> Result<(), NoMemory>
        ensures ok { OnOk result (self.new ≡ record self.old { files = macros.with_file file name.now self.old.files }) }
        ensures err { OnErr result (self.new ≡ self.old) }
    {
        let name = FileName::new(*self.files.allocator(), name)?;
        self.files.insert(file, name)?;
        Ok(())
    }

    /// The name of a file; one that was not named has the empty name.
    pub fn file_name(&self, file: u32) -> &[u8]
        ensures { result.now ≡ macros.file_name file self.now.files }
    {
        match self.files.get(&file) {
            Some(name) => name.as_str().as_bytes(),
            None => &[],
        }
    }
}
