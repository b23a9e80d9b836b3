//! Intrinsic functions of integers.

ghost use Rattle.std.specs.Option.{is_some};
ghost use Rattle.std.specs.Prelude.{◌≡◌, ℕ, option_map};
ghost use Rattle.declared_names.specs.Functions.{operator_of, takes_so_many, function_takes, intrinsic_named};
ghost use Rattle.layout_rules.specs.Types.{is_intrinsic, takes};

use op_table::Op;

/// An intrinsic function of integers (ANSI X3.9-1978, section 15.10). Some have two names.
#[derive(Clone, Copy, Debug, PartialEq, Eq)]
pub enum Function {
    /// MOD: what a division leaves.
    Remainder,
    /// ABS or IABS: the absolute value.
    Magnitude,
    /// SIGN or ISIGN: the absolute value of one with the sign of another.
    Transfer,
    /// MAX or MAX0: the greatest of two or more.
    Greatest,
    /// MIN or MIN0: the least of two or more.
    Least,
}

impl Function {
    /// The function of this name, if it is one's.
    pub fn named(name: &[u8]) -> Option<Function>
        ensures some { is_some result ≡ is_intrinsic name.now }
        ensures operator { option_map operator_of result ≡ option_map (λ f. f.op) (intrinsic_named name.now) }
        ensures arguments { (count : ℕ) → function_takes result count ≡ takes name.now count }
    {
        match name {
            b"MOD" => Some(Function::Remainder),
            b"ABS" | b"IABS" => Some(Function::Magnitude),
            b"SIGN" | b"ISIGN" => Some(Function::Transfer),
            b"MAX" | b"MAX0" => Some(Function::Greatest),
            b"MIN" | b"MIN0" => Some(Function::Least),
            _ => None,
        }
    }

    /// Whether it takes so many arguments.
    pub(crate) fn takes(self, count: u32) -> bool
        ensures { result ≡ takes_so_many self count }
    {
        match self {
            Function::Remainder | Function::Transfer => count == 2,
            Function::Magnitude => count == 1,
            Function::Greatest | Function::Least => 2 <= count,
        }
    }

    /// The operator that it is, in the plain dialect, at two arguments or at one.
    pub fn operator(self) -> Op
        ensures { result ≡ operator_of self }
    {
        match self {
            Function::Remainder => Op::Mod,
            Function::Magnitude => Op::Abs,
            Function::Transfer => Op::Sign,
            Function::Greatest => Op::Max,
            Function::Least => Op::Min,
        }
    }
}
