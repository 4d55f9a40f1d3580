//! Statements: a word and its parts. A block is `{`, the list of its objects, and its statements up to `}`; a
//! statement of a `switch` stands behind the list of its labels.
use crate::faults::Fault;
use crate::words::{DEEPEST, LONGEST, Words};
use c89_tree::{
    OutDeclaration, OutItem, OutItemForm, OutLabel, OutLabelForm, OutStat, OutStatForm, OutStats,
    OutStatsForm,
};
use sqlite_items::Items;

impl Words<'_> {
    fn label(&mut self, word: &str) -> Result<OutLabel, Fault> {
        let form = match word {
            "case" => OutLabelForm::Case {
                value: self.expr()?,
            },
            "default" => OutLabelForm::Default,
            _ => return Err(Fault::Word),
        };
        Ok(OutLabel::new(self.alloc, form)?)
    }

    fn push_labels(&mut self, labels: &mut Items<OutLabel>) -> Result<(), Fault> {
        for _ in 0..LONGEST {
            let Some(word) = self.element()? else {
                return Ok(());
            };
            labels.push(self.label(word)?)?;
        }
        Err(Fault::Word)
    }

    fn evaluation(&mut self) -> Result<OutStatForm, Fault> {
        let value = self.expr()?;
        Ok(OutStatForm::Evaluate { value })
    }

    fn assignment(&mut self) -> Result<OutStatForm, Fault> {
        let left = self.expr()?;
        let right = self.expr()?;
        Ok(OutStatForm::Assign { left, right })
    }

    fn returned(&mut self) -> Result<OutStatForm, Fault> {
        let value = self.expr()?;
        Ok(OutStatForm::Return { value })
    }

    #[cycle(statement)]
    fn stat_at(&mut self, word: &str, depth: u64) -> Result<OutStat, Fault> {
        if depth == 0 {
            return Err(Fault::Word);
        }
        let form = self.stat_form(word, depth - 1)?;
        Ok(OutStat::new(self.alloc, form)?)
    }

    #[cycle(statement)]
    fn stat_form(&mut self, word: &str, depth: u64) -> Result<OutStatForm, Fault> {
        match word {
            "do" => self.evaluation(),
            "=" => self.assignment(),
            ";" => Ok(OutStatForm::Empty),
            "{" => {
                let (objects, body) = self.inside(depth)?;
                Ok(OutStatForm::Block { objects, body })
            }
            "if" => self.choice_of_one(depth),
            "if_else" => self.choice_of_two(depth),
            "for" => {
                let (objects, body) = self.block(depth)?;
                Ok(OutStatForm::Forever { objects, body })
            }
            "switch" => self.switch(depth),
            "break" => Ok(OutStatForm::Break),
            "continue" => Ok(OutStatForm::Continue),
            "return_nothing" => Ok(OutStatForm::ReturnNothing),
            "return" => self.returned(),
            _ => Err(Fault::Word),
        }
    }

    #[cycle(statement)]
    fn choice_of_one(&mut self, depth: u64) -> Result<OutStatForm, Fault> {
        let condition = self.expr()?;
        let (objects, body) = self.block(depth)?;
        Ok(OutStatForm::If {
            condition,
            objects,
            body,
        })
    }

    #[cycle(statement)]
    fn choice_of_two(&mut self, depth: u64) -> Result<OutStatForm, Fault> {
        let condition = self.expr()?;
        let (objects, body) = self.block(depth)?;
        let (other_objects, other_body) = self.block(depth)?;
        Ok(OutStatForm::IfElse {
            condition,
            objects,
            body,
            other_objects,
            other_body,
        })
    }

    #[cycle(statement)]
    fn switch(&mut self, depth: u64) -> Result<OutStatForm, Fault> {
        let value = self.expr()?;
        let mut items = Items::new(self.alloc);
        self.push_items(&mut items, depth)?;
        Ok(OutStatForm::Switch { value, items })
    }

    #[cycle(statement)]
    fn item(&mut self, word: &str, depth: u64) -> Result<OutItem, Fault> {
        if word != "[" {
            return Err(Fault::Word);
        }
        let mut labels = Items::new(self.alloc);
        self.push_labels(&mut labels)?;
        let first = self.word()?;
        let stat = self.stat_at(first, depth)?;
        Ok(OutItem::new(self.alloc, OutItemForm { labels, stat })?)
    }

    #[cycle(statement)]
    fn push_items(&mut self, items: &mut Items<OutItem>, depth: u64) -> Result<(), Fault> {
        self.skip("[")?;
        for _ in 0..LONGEST {
            let Some(word) = self.element()? else {
                return Ok(());
            };
            items.push(self.item(word, depth)?)?;
        }
        Err(Fault::Word)
    }

    #[cycle(statement)]
    fn block(&mut self, depth: u64) -> Result<(Items<OutDeclaration>, OutStats), Fault> {
        self.skip("{")?;
        self.inside(depth)
    }

    #[cycle(statement)]
    fn inside(&mut self, depth: u64) -> Result<(Items<OutDeclaration>, OutStats), Fault> {
        let objects = self.declarations()?;
        let body = self.stats(depth)?;
        Ok((objects, body))
    }

    #[cycle(statement)]
    fn stats(&mut self, depth: u64) -> Result<OutStats, Fault> {
        let mut stats = Items::new(self.alloc);
        self.push_stats(&mut stats, depth)?;
        Ok(OutStats::new(self.alloc, OutStatsForm { stats })?)
    }

    #[cycle(statement)]
    fn push_stats(&mut self, stats: &mut Items<OutStat>, depth: u64) -> Result<(), Fault> {
        for _ in 0..LONGEST {
            let word = self.word()?;
            if word == "}" {
                return Ok(());
            }
            stats.push(self.stat_at(word, depth)?)?;
        }
        Err(Fault::Word)
    }

    /// The objects and the statements of a function's body.
    pub fn body(&mut self) -> Result<(Items<OutDeclaration>, OutStats), Fault> {
        self.block(DEEPEST)
    }
}
