//! The functions that are fed.
use value_types::Leaf;

/// What is done with the column.
#[derive(Clone, Copy, Debug, PartialEq, Eq)]
pub enum Function {
    /// It is made, and nothing else is done.
    Column,
    /// Its items are lent, and fed to what keeps nothing.
    Lent,
    Count,
    Sum,
    Min,
    Max,
    BitAnd,
    BitOr,
    BitXor,
    Retention,
    ArgMin,
    ArgMax,
    GroupArray,
    QuantileExact,
    UniqExact,
}

impl Function {
    pub const ALL: [Function; 15] = [
        Function::Column,
        Function::Lent,
        Function::Count,
        Function::Sum,
        Function::Min,
        Function::Max,
        Function::BitAnd,
        Function::BitOr,
        Function::BitXor,
        Function::Retention,
        Function::ArgMin,
        Function::ArgMax,
        Function::GroupArray,
        Function::QuantileExact,
        Function::UniqExact,
    ];

    pub fn name(&self) -> &'static str {
        match self {
            Function::Column => "column",
            Function::Lent => "lent",
            Function::Count => "count",
            Function::Sum => "sum",
            Function::Min => "min",
            Function::Max => "max",
            Function::BitAnd => "groupBitAnd",
            Function::BitOr => "groupBitOr",
            Function::BitXor => "groupBitXor",
            Function::Retention => "retention",
            Function::ArgMin => "argMin",
            Function::ArgMax => "argMax",
            Function::GroupArray => "groupArray",
            Function::QuantileExact => "quantileExact",
            Function::UniqExact => "uniqExact",
        }
    }

    /// The function itself, if it is one.
    pub fn leaf(&self) -> Option<Leaf> {
        match self {
            Function::Column | Function::Lent => None,
            Function::Count => Some(Leaf::Count),
            Function::Sum => Some(Leaf::Sum),
            Function::Min => Some(Leaf::Min),
            Function::Max => Some(Leaf::Max),
            Function::BitAnd => Some(Leaf::BitAnd),
            Function::BitOr => Some(Leaf::BitOr),
            Function::BitXor => Some(Leaf::BitXor),
            Function::Retention => Some(Leaf::Retention),
            Function::ArgMin => Some(Leaf::ArgMin),
            Function::ArgMax => Some(Leaf::ArgMax),
            Function::GroupArray => Some(Leaf::GroupArray(None)),
            Function::QuantileExact => Some(Leaf::QuantileExact(500_000_000)),
            Function::UniqExact => Some(Leaf::UniqExact),
        }
    }

    /// Whether each row has the column's value twice as arguments.
    pub fn takes_two(&self) -> bool {
        matches!(self, Function::ArgMin | Function::ArgMax)
    }
}
