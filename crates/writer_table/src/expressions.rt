//! Expressions: a sign and its operands, a constant with its suffix before it, or a name.
use crate::faults::Fault;
use crate::words::{DEEPEST, LONGEST, Words};
use c89_tree::{OutExpr, OutExprForm, OutPrefix, OutSuffix};
use cake_base::Bytes;
use model_types::numbers::BinOp;
use model_types::operators::LogicOp;
use sqlite_items::Items;

fn suffix(word: &str) -> Option<OutSuffix> {
    match word {
        ":U" => Some(OutSuffix::U),
        ":L" => Some(OutSuffix::L),
        ":UL" => Some(OutSuffix::UL),
        _ => None,
    }
}

/// The operator of a word in which `x` stands for the operand.
fn prefix(word: &str) -> Option<OutPrefix> {
    match word {
        "-x" => Some(OutPrefix::Minus),
        "~x" => Some(OutPrefix::Complement),
        "!x" => Some(OutPrefix::Not),
        "*x" => Some(OutPrefix::Deref),
        "&x" => Some(OutPrefix::AddressOf),
        _ => None,
    }
}

fn sign(word: &str) -> Option<BinOp> {
    match word {
        "*" => Some(BinOp::Mul),
        "/" => Some(BinOp::Div),
        "%" => Some(BinOp::Rem),
        "+" => Some(BinOp::Add),
        "-" => Some(BinOp::Sub),
        "<<" => Some(BinOp::ShiftLeft),
        ">>" => Some(BinOp::ShiftRight),
        "<" => Some(BinOp::Less),
        ">" => Some(BinOp::Greater),
        "<=" => Some(BinOp::LessEqual),
        ">=" => Some(BinOp::GreaterEqual),
        "==" => Some(BinOp::Equal),
        "!=" => Some(BinOp::NotEqual),
        "&" => Some(BinOp::BitAnd),
        "^" => Some(BinOp::BitXor),
        "|" => Some(BinOp::BitOr),
        _ => None,
    }
}

fn logic(word: &str) -> Option<LogicOp> {
    match word {
        "&&" => Some(LogicOp::And),
        "||" => Some(LogicOp::Or),
        _ => None,
    }
}

impl Words<'_> {
    #[cycle(expression)]
    fn expr_at(&mut self, word: &str, depth: u64) -> Result<OutExpr, Fault> {
        if depth == 0 {
            return Err(Fault::Word);
        }
        let form = self.expr_form(word, depth - 1)?;
        Ok(OutExpr::new(self.alloc, form)?)
    }

    #[cycle(expression)]
    fn next_expr(&mut self, depth: u64) -> Result<OutExpr, Fault> {
        let word = self.word()?;
        self.expr_at(word, depth)
    }

    #[cycle(expression)]
    fn two_exprs(&mut self, depth: u64) -> Result<(OutExpr, OutExpr), Fault> {
        let left = self.next_expr(depth)?;
        let right = self.next_expr(depth)?;
        Ok((left, right))
    }

    fn operand(&mut self, word: &str) -> Result<OutExprForm, Fault> {
        if let Some(suffix) = suffix(word) {
            let number = self.number()?;
            return Ok(OutExprForm::Constant { number, suffix });
        }
        if let Ok(number) = word.parse::<u64>() {
            let suffix = OutSuffix::Plain;
            return Ok(OutExprForm::Constant { number, suffix });
        }
        let name = self.bytes_of(word)?;
        Ok(OutExprForm::Name { name })
    }

    #[cycle(expression)]
    fn expr_form(&mut self, word: &str, depth: u64) -> Result<OutExprForm, Fault> {
        if let Some(op) = prefix(word) {
            let operand = self.next_expr(depth)?;
            return Ok(OutExprForm::Unary { op, operand });
        }
        if let Some(op) = sign(word) {
            let (left, right) = self.two_exprs(depth)?;
            return Ok(OutExprForm::Binary { op, left, right });
        }
        if let Some(op) = logic(word) {
            let (left, right) = self.two_exprs(depth)?;
            return Ok(OutExprForm::Logic { op, left, right });
        }
        self.postfix_form(word, depth)
    }

    #[cycle(expression)]
    fn member(&mut self, depth: u64) -> Result<(OutExpr, Bytes), Fault> {
        let of = self.next_expr(depth)?;
        let name = self.name()?;
        Ok((of, name))
    }

    #[cycle(expression)]
    fn call(&mut self, depth: u64) -> Result<OutExprForm, Fault> {
        let function = self.next_expr(depth)?;
        let mut arguments = Items::new(self.alloc);
        self.push_exprs(&mut arguments, depth)?;
        Ok(OutExprForm::Call {
            function,
            arguments,
        })
    }

    #[cycle(expression)]
    fn choice(&mut self, depth: u64) -> Result<OutExprForm, Fault> {
        let condition = self.next_expr(depth)?;
        let (first, second) = self.two_exprs(depth)?;
        Ok(OutExprForm::Choice {
            condition,
            first,
            second,
        })
    }

    #[cycle(expression)]
    fn cast(&mut self, depth: u64) -> Result<OutExprForm, Fault> {
        let ty = self.ty()?;
        let operand = self.next_expr(depth)?;
        Ok(OutExprForm::Cast { ty, operand })
    }

    #[cycle(expression)]
    fn postfix_form(&mut self, word: &str, depth: u64) -> Result<OutExprForm, Fault> {
        match word {
            "[]" => {
                let (left, right) = self.two_exprs(depth)?;
                Ok(OutExprForm::Index { left, right })
            }
            "." => {
                let (structure, name) = self.member(depth)?;
                Ok(OutExprForm::Dot { structure, name })
            }
            "->" => {
                let (pointer, name) = self.member(depth)?;
                Ok(OutExprForm::Arrow { pointer, name })
            }
            "()" => self.call(depth),
            "?" => self.choice(depth),
            "(T)" => self.cast(depth),
            _ => self.operand(word),
        }
    }

    #[cycle(expression)]
    fn push_exprs(&mut self, exprs: &mut Items<OutExpr>, depth: u64) -> Result<(), Fault> {
        self.skip("[")?;
        for _ in 0..LONGEST {
            let Some(word) = self.element()? else {
                return Ok(());
            };
            exprs.push(self.expr_at(word, depth)?)?;
        }
        Err(Fault::Word)
    }

    /// The expression that begins with this word.
    pub fn expr_of(&mut self, word: &str) -> Result<OutExpr, Fault> {
        self.expr_at(word, DEEPEST)
    }

    pub fn expr(&mut self) -> Result<OutExpr, Fault> {
        self.next_expr(DEEPEST)
    }
}
