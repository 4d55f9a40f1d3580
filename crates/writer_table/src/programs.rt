//! Programs: the lists of their structures, of their declarations outside of functions, and of their functions.
use crate::faults::Fault;
use crate::words::{LONGEST, Words};
use c89_tree::{
    C89Form, C89Unit, OutFunction, OutFunctionForm, OutInit, OutOuter, OutOuterForm, OutStorage,
    OutStructure, OutStructureForm,
};
use c89_writer::write;
use cake_base::Bytes;
use sqlite_items::Items;

/// The linkage of a function, and whether it takes more arguments than parameters.
fn function_kind(word: &str) -> Result<(bool, bool), Fault> {
    match word {
        "external" => Ok((false, false)),
        "static" => Ok((true, false)),
        "variadic" => Ok((false, true)),
        _ => Err(Fault::Word),
    }
}

fn storage(word: &str) -> Result<OutStorage, Fault> {
    match word {
        "plain" => Ok(OutStorage::Plainly),
        "static" => Ok(OutStorage::Static),
        "extern" => Ok(OutStorage::Extern),
        _ => Err(Fault::Word),
    }
}

impl Words<'_> {
    fn members(&mut self) -> Result<OutStructureForm, Fault> {
        let name = self.name()?;
        self.skip("[")?;
        let first_name = self.word()?;
        let first = self.declaration(first_name)?;
        let others = self.more_declarations()?;
        Ok(OutStructureForm::Members {
            name,
            first,
            others,
        })
    }

    fn structure(&mut self, word: &str) -> Result<OutStructure, Fault> {
        let form = match word {
            "tag" => OutStructureForm::Tag { name: self.name()? },
            "members" => self.members()?,
            _ => return Err(Fault::Word),
        };
        Ok(OutStructure::new(self.alloc, form)?)
    }

    fn push_structures(&mut self, structures: &mut Items<OutStructure>) -> Result<(), Fault> {
        self.skip("[")?;
        for _ in 0..LONGEST {
            let Some(word) = self.element()? else {
                return Ok(());
            };
            structures.push(self.structure(word)?)?;
        }
        Err(Fault::Word)
    }

    /// What stands behind a declared name and its type: `=` and an initial value, or `;`.
    fn value(&mut self) -> Result<Option<OutInit>, Fault> {
        match self.word()? {
            "=" => Ok(Some(self.init()?)),
            ";" => Ok(None),
            _ => Err(Fault::Word),
        }
    }

    fn outer(&mut self, word: &str) -> Result<OutOuter, Fault> {
        let storage = storage(word)?;
        let name = self.name()?;
        let ty = self.ty()?;
        let init = self.value()?;
        let form = OutOuterForm {
            storage,
            ty,
            name,
            init,
        };
        Ok(OutOuter::new(self.alloc, form)?)
    }

    fn push_outers(&mut self, outers: &mut Items<OutOuter>) -> Result<(), Fault> {
        self.skip("[")?;
        for _ in 0..LONGEST {
            let Some(word) = self.element()? else {
                return Ok(());
            };
            outers.push(self.outer(word)?)?;
        }
        Err(Fault::Word)
    }

    fn function(&mut self, word: &str) -> Result<OutFunction, Fault> {
        let (is_static, is_variadic) = function_kind(word)?;
        let name = self.name()?;
        let result = self.ty()?;
        let parameters = self.declarations()?;
        let (objects, body) = self.body()?;
        let form = OutFunctionForm {
            is_static,
            result,
            name,
            parameters,
            is_variadic,
            objects,
            body,
        };
        Ok(OutFunction::new(self.alloc, form)?)
    }

    fn push_functions(&mut self, functions: &mut Items<OutFunction>) -> Result<(), Fault> {
        self.skip("[")?;
        for _ in 0..LONGEST {
            let Some(word) = self.element()? else {
                return Ok(());
            };
            functions.push(self.function(word)?)?;
        }
        Err(Fault::Word)
    }

    fn program(&mut self) -> Result<C89Unit, Fault> {
        let mut form = C89Form {
            structures: Items::new(self.alloc),
            outers: Items::new(self.alloc),
            functions: Items::new(self.alloc),
        };
        self.push_parts(&mut form)?;
        Ok(C89Unit::new(self.alloc, form)?)
    }

    fn push_parts(&mut self, form: &mut C89Form) -> Result<(), Fault> {
        self.skip("program")?;
        self.push_structures(&mut form.structures)?;
        self.push_outers(&mut form.outers)?;
        self.push_functions(&mut form.functions)
    }

    fn push_text(&mut self, out: &mut Bytes) -> Result<(), Fault> {
        let unit = self.program()?;
        let text = write(self.alloc, &unit)?;
        Ok(out.push(text.as_slice())?)
    }

    /// The texts of the programs of the table.
    pub fn push_texts(&mut self, out: &mut Bytes) -> Result<(), Fault> {
        for _ in 0..LONGEST {
            if self.is_empty() {
                return Ok(());
            }
            self.push_text(out)?;
        }
        Err(Fault::Word)
    }
}
