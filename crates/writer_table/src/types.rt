//! Types, and declarations: a name and its type.
use crate::faults::Fault;
use crate::words::{DEEPEST, LONGEST, Words};
use c89_tree::{OutBase, OutDeclaration, OutDeclarationForm, OutType, OutTypeForm};
use sqlite_items::Items;

impl Words<'_> {
    fn base(&mut self, word: &str) -> Result<OutBase, Fault> {
        Ok(match word {
            "void" => OutBase::Void,
            "char" => OutBase::Char,
            "signed_char" => OutBase::SignedChar,
            "unsigned_char" => OutBase::UnsignedChar,
            "short" => OutBase::Short,
            "unsigned_short" => OutBase::UnsignedShort,
            "int" => OutBase::Int,
            "unsigned_int" => OutBase::UnsignedInt,
            "long" => OutBase::Long,
            "unsigned_long" => OutBase::UnsignedLong,
            "struct" => OutBase::Struct { name: self.name()? },
            _ => return Err(Fault::Word),
        })
    }

    fn const_base(&mut self) -> Result<OutBase, Fault> {
        let word = self.word()?;
        self.base(word)
    }

    #[cycle(type_tree)]
    fn type_at(&mut self, word: &str, depth: u64) -> Result<OutType, Fault> {
        if depth == 0 {
            return Err(Fault::Word);
        }
        let form = self.type_form(word, depth - 1)?;
        Ok(OutType::new(self.alloc, form)?)
    }

    #[cycle(type_tree)]
    fn next_type(&mut self, depth: u64) -> Result<OutType, Fault> {
        let word = self.word()?;
        self.type_at(word, depth)
    }

    #[cycle(type_tree)]
    fn type_form(&mut self, word: &str, depth: u64) -> Result<OutTypeForm, Fault> {
        Ok(match word {
            "const" => OutTypeForm::Based {
                is_const: true,
                base: self.const_base()?,
            },
            "*" => OutTypeForm::Pointer {
                is_const: false,
                to: self.next_type(depth)?,
            },
            "*const" => OutTypeForm::Pointer {
                is_const: true,
                to: self.next_type(depth)?,
            },
            "array" => OutTypeForm::Array {
                count: Some(self.number()?),
                of: self.next_type(depth)?,
            },
            "array_without_length" => OutTypeForm::Array {
                count: None,
                of: self.next_type(depth)?,
            },
            "function" => return self.function_type(false, depth),
            "variadic" => return self.function_type(true, depth),
            _ => OutTypeForm::Based {
                is_const: false,
                base: self.base(word)?,
            },
        })
    }

    #[cycle(type_tree)]
    fn function_type(&mut self, is_variadic: bool, depth: u64) -> Result<OutTypeForm, Fault> {
        let result = self.next_type(depth)?;
        let parameters = self.types(depth)?;
        Ok(OutTypeForm::Function {
            result,
            parameters,
            is_variadic,
        })
    }

    #[cycle(type_tree)]
    fn types(&mut self, depth: u64) -> Result<Items<OutType>, Fault> {
        let mut types = Items::new(self.alloc);
        self.push_types(&mut types, depth)?;
        Ok(types)
    }

    #[cycle(type_tree)]
    fn push_types(&mut self, types: &mut Items<OutType>, depth: u64) -> Result<(), Fault> {
        self.skip("[")?;
        for _ in 0..LONGEST {
            let Some(word) = self.element()? else {
                return Ok(());
            };
            types.push(self.type_at(word, depth)?)?;
        }
        Err(Fault::Word)
    }

    pub fn ty(&mut self) -> Result<OutType, Fault> {
        self.next_type(DEEPEST)
    }

    pub fn declaration(&mut self, name: &str) -> Result<OutDeclaration, Fault> {
        let name = self.bytes_of(name)?;
        let ty = self.ty()?;
        Ok(OutDeclaration::new(self.alloc, OutDeclarationForm { ty, name })?)
    }

    fn push_declarations(&mut self, list: &mut Items<OutDeclaration>) -> Result<(), Fault> {
        for _ in 0..LONGEST {
            let Some(name) = self.element()? else {
                return Ok(());
            };
            list.push(self.declaration(name)?)?;
        }
        Err(Fault::Word)
    }

    /// Declarations up to the end of a list that has begun.
    pub fn more_declarations(&mut self) -> Result<Items<OutDeclaration>, Fault> {
        let mut list = Items::new(self.alloc);
        self.push_declarations(&mut list)?;
        Ok(list)
    }

    pub fn declarations(&mut self) -> Result<Items<OutDeclaration>, Fault> {
        self.skip("[")?;
        self.more_declarations()
    }
}
