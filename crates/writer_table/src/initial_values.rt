//! Initial values: `{` and a list in braces, `"` and the bytes of a string up to the next `"`, or an expression.
use crate::faults::Fault;
use crate::words::{DEEPEST, LONGEST, Words};
use c89_tree::{OutInit, OutInitForm};
use cake_base::Bytes;
use sqlite_items::Items;

impl Words<'_> {
    /// A number is one byte, and another word the bytes of its letters.
    fn push_piece(&self, bytes: &mut Bytes, word: &str) -> Result<(), Fault> {
        match word.parse::<u8>() {
            Ok(byte) => Ok(bytes.push(&[byte])?),
            Err(_) => Ok(bytes.push(word.as_bytes())?),
        }
    }

    fn string(&mut self) -> Result<Bytes, Fault> {
        let mut bytes = Bytes::new(self.alloc);
        for _ in 0..LONGEST {
            let word = self.word()?;
            if word == "\"" {
                return Ok(bytes);
            }
            self.push_piece(&mut bytes, word)?;
        }
        Err(Fault::Word)
    }

    #[cycle(initial_value)]
    fn init_at(&mut self, word: &str, depth: u64) -> Result<OutInit, Fault> {
        if depth == 0 {
            return Err(Fault::Word);
        }
        let form = match word {
            "{" => self.braces(depth - 1)?,
            "\"" => OutInitForm::Text {
                bytes: self.string()?,
            },
            _ => OutInitForm::Value {
                value: self.expr_of(word)?,
            },
        };
        Ok(OutInit::new(self.alloc, form)?)
    }

    #[cycle(initial_value)]
    fn braces(&mut self, depth: u64) -> Result<OutInitForm, Fault> {
        let word = self.word()?;
        let first = self.init_at(word, depth)?;
        let mut others = Items::new(self.alloc);
        self.push_inits(&mut others, depth)?;
        Ok(OutInitForm::Braces { first, others })
    }

    #[cycle(initial_value)]
    fn push_inits(&mut self, inits: &mut Items<OutInit>, depth: u64) -> Result<(), Fault> {
        for _ in 0..LONGEST {
            let word = self.word()?;
            if word == "}" {
                return Ok(());
            }
            inits.push(self.init_at(word, depth)?)?;
        }
        Err(Fault::Word)
    }

    pub fn init(&mut self) -> Result<OutInit, Fault> {
        let word = self.word()?;
        self.init_at(word, DEEPEST)
    }
}
