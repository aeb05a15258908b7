//! What the bytes of an operand are, and the operators on two operands.

ghost use Rattle.std.specs.Prelude.{◌≡◌};
ghost use Rattle.numbers.specs.Operators.{kind_of, panic_word};

use std::fmt;
use types::{ArithOp, CmpOp, Ordering, Ty};

/// What the bytes of an operand are, by its type.
#[derive(Clone, Copy)]
pub enum Kind {
    Signed,
    Unsigned,
    Boolean,
    Character,
}

/// An operator on two operands.
#[derive(Clone, Copy, PartialEq, Eq, Debug)]
pub enum Operator {
    Add,
    Sub,
    Mul,
    Div,
    Rem,
    BitXor,
    BitAnd,
    BitOr,
    Shl,
    Shr,
    Eq,
    Lt,
    Le,
    Ne,
    Ge,
    Gt,
}

impl Kind {
    /// What the bytes of a type are, where they are a number, a truth value or a character.
    #[tactic(auto, unfolding(crate::specs::Operators::kind_of))]
    pub fn of(ty: &Ty) -> Option<Kind>
        ensures { result ≡ kind_of ty.now }
    {
        match ty {
            Ty::Bool => Some(Kind::Boolean),
            Ty::Int(_) => Some(Kind::Signed),
            Ty::Uint(_) => Some(Kind::Unsigned),
            Ty::Char => Some(Kind::Character),
            _ => None,
        }
    }
}

/// The operator that an arithmetic operator of the source is.
impl From<ArithOp> for Operator {
    ghost use Rattle.std.specs.Prelude.{◌≡◌};
    ghost use Rattle.numbers.specs.Operators.{of_arith};

    ghost from_gives = { λ op made. made ≡ of_arith op };

    #[tactic(auto, unfolding(crate::specs::Operators::of_arith))]
    fn from(op: ArithOp) -> Operator {
        match op {
            ArithOp::Add => Operator::Add,
            ArithOp::Mul => Operator::Mul,
            ArithOp::Sub => Operator::Sub,
            ArithOp::Div => Operator::Div,
            ArithOp::Rem => Operator::Rem,
            ArithOp::Shl => Operator::Shl,
            ArithOp::Shr => Operator::Shr,
            ArithOp::BitXor => Operator::BitXor,
            ArithOp::BitOr => Operator::BitOr,
            ArithOp::BitAnd => Operator::BitAnd,
        }
    }
}

/// The operator that a comparison of the source is.
impl From<CmpOp> for Operator {
    ghost use Rattle.std.specs.Prelude.{◌≡◌};
    ghost use Rattle.numbers.specs.Operators.{of_compare};

    ghost from_gives = { λ op made. made ≡ of_compare op };

    #[tactic(auto, unfolding(crate::specs::Operators::of_compare))]
    fn from(op: CmpOp) -> Operator {
        match op {
            CmpOp::Eq { negated: false } => Operator::Eq,
            CmpOp::Eq { negated: true } => Operator::Ne,
            CmpOp::Ord {
                ordering: Ordering::Less,
                strict: true,
            } => Operator::Lt,
            CmpOp::Ord {
                ordering: Ordering::Less,
                strict: false,
            } => Operator::Le,
            CmpOp::Ord {
                ordering: Ordering::Greater,
                strict: true,
            } => Operator::Gt,
            CmpOp::Ord {
                ordering: Ordering::Greater,
                strict: false,
            } => Operator::Ge,
        }
    }
}

/// The operator as Rust writes it.
impl fmt::Display for Operator {
    ghost use Rattle.std.specs.Prelude.{Some};
    ghost use Rattle.numbers.specs.Operators.{symbol_of};

    ghost output = { λ op. Some (symbol_of op) };

    #[tactic(auto, unfolding(crate::specs::Operators::symbol_of))]
    fn fmt<W: fmt::Write>(&self, f: &mut fmt::Formatter<W>) -> fmt::Result {
        match self {
            Operator::Add => f.write_str("+"),
            Operator::Sub => f.write_str("-"),
            Operator::Mul => f.write_str("*"),
            Operator::Div => f.write_str("/"),
            Operator::Rem => f.write_str("%"),
            Operator::BitXor => f.write_str("^"),
            Operator::BitAnd => f.write_str("&"),
            Operator::BitOr => f.write_str("|"),
            Operator::Shl => f.write_str("<<"),
            Operator::Shr => f.write_str(">>"),
            Operator::Eq => f.write_str("=="),
            Operator::Lt => f.write_str("<"),
            Operator::Le => f.write_str("<="),
            Operator::Ne => f.write_str("!="),
            Operator::Ge => f.write_str(">="),
            Operator::Gt => f.write_str(">"),
        }
    }
}

impl Operator {
    /// What a run says that panics in the operator.
    #[tactic(auto, unfolding(crate::specs::Operators::panic_word, crate::specs::Operators::name_of))]
    pub fn panic_word(self) -> &'static str
        ensures { result.now ≡ panic_word self }
    {
        match self {
            Operator::Add => "Overflow in Add",
            Operator::Sub => "Overflow in Sub",
            Operator::Mul => "Overflow in Mul",
            Operator::Div => "Overflow in Div",
            Operator::Rem => "Overflow in Rem",
            Operator::BitXor => "Overflow in BitXor",
            Operator::BitAnd => "Overflow in BitAnd",
            Operator::BitOr => "Overflow in BitOr",
            Operator::Shl => "Overflow in Shl",
            Operator::Shr => "Overflow in Shr",
            Operator::Eq => "Overflow in Eq",
            Operator::Lt => "Overflow in Lt",
            Operator::Le => "Overflow in Le",
            Operator::Ne => "Overflow in Ne",
            Operator::Ge => "Overflow in Ge",
            Operator::Gt => "Overflow in Gt",
        }
    }
}
