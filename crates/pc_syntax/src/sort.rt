//! The sorts of nodes.

ghost use Rattle.std.specs.Prelude.{◌≡◌, ◌∷◌, ◌↔◌, IsTrue};
ghost use Rattle.pc_syntax.specs.Spellings.{sort_name};

/// What a node can stand for. A hole has a sort, and may stand where a node of that sort may.
#[derive(Clone, Copy, Debug, PartialEq, Eq)]
pub enum Sort {
    /// `?program`
    Program,
    /// `?block`
    Block,
    /// `?constdef`
    ConstDef,
    /// `?typedef`
    TypeDef,
    /// `?vardef`
    VarDef,
    /// `?routine`
    Routine,
    /// `?parameter`
    Parameter,
    /// `?type`
    Denoter,
    /// `?field`
    Field,
    /// `?constant`
    Constant,
    /// `?statement`
    Statement,
    /// `?arm`
    Arm,
    /// `?expression`
    Expression,
    /// `?name`
    Name,
}

impl Sort {
    /// Whether two sorts are one.
    pub fn is(self, other: Sort) -> bool
        ensures { IsTrue result ↔ (self ≡ other) }
    {
        self == other
    }

    /// How a hole of this sort is written.
    pub fn hole(self) -> &'static [u8]
        ensures { result.now ≡ 63 ∷ sort_name self }
    {
        match self {
            Sort::Program => b"?program",
            Sort::Block => b"?block",
            Sort::ConstDef => b"?constdef",
            Sort::TypeDef => b"?typedef",
            Sort::VarDef => b"?vardef",
            Sort::Routine => b"?routine",
            Sort::Parameter => b"?parameter",
            Sort::Denoter => b"?type",
            Sort::Field => b"?field",
            Sort::Constant => b"?constant",
            Sort::Statement => b"?statement",
            Sort::Arm => b"?arm",
            Sort::Expression => b"?expression",
            Sort::Name => b"?name",
        }
    }
}
