//! Values and operators.
ghost use Rattle.std.specs.Prelude.{◌≡◌};
ghost use Rattle.rh_il.specs.Op.{apply, total, number_of, truth};

/// What a variable or a cell holds.
#[derive(Clone, Copy, Debug, PartialEq, Eq)]
pub enum Value {
    /// A number.
    Num(i64),
    /// A pointer to the cell at this location.
    Ptr(u64),
}

/// A binary operator.
#[derive(Clone, Copy, Debug, PartialEq, Eq, Hash)]
pub enum Op {
    /// `+`
    Add,
    /// `-`
    Sub,
    /// `*`
    Mul,
    /// `<`
    Less,
    /// `==`
    Equal,
}

impl Op {
    /// What the operator makes of two values.
    pub fn apply(self, a: Value, b: Value) -> Option<Value>
        ensures { result ≡ apply self a b }
    {
        match (self, a, b) {
            (Op::Equal, a, b) => Some(Value::Num(truth(a == b))),
            (op, Value::Num(a), Value::Num(b)) => Some(Value::Num(op.number(a, b))),
            _ => None,
        }
    }

    /// The same, and 0 where the operator makes nothing of them.
    pub fn total(self, a: Value, b: Value) -> Value
        ensures { result ≡ total self a b }
    {
        self.apply(a, b).unwrap_or(Value::Num(0))
    }

    #[tactic(auto, using(std::proofs::lemmas::Int::wraps))]
    fn number(self, a: i64, b: i64) -> i64
        ensures { result ≡ number_of self a b }
    {
        match self {
            Op::Add => a.wrapping_add(b),
            Op::Sub => a.wrapping_sub(b),
            Op::Mul => a.wrapping_mul(b),
            Op::Less => truth(a < b),
            Op::Equal => truth(a == b),
        }
    }
}

fn truth(is_so: bool) -> i64
    ensures { result ≡ truth is_so }
{
    if is_so { 1 } else { 0 }
}
