//! What may be wrong with the schemas and the rules of a file.

/// What there is a bounded number of.
#[derive(Clone, Copy, Debug, PartialEq, Eq)]
pub enum Many {
    /// At most 64 schemas.
    Facts,
    /// At most 256 rules.
    Rules,
    /// From 1 to 6 parameters of a schema, and at most 6 metavariables of a rule.
    Params,
    /// From 1 to 4 atoms of a meaning.
    Atoms,
    /// At most 8 premises of a rule.
    Premises,
    /// At most 8 side conditions of a rule.
    Sides,
}

/// What is wrong.
#[derive(Clone, Copy, Debug, PartialEq, Eq)]
pub enum RuleWrong {
    /// An earlier schema, rule, parameter or metavariable has the name.
    DuplicateName,
    /// A parameter, a metavariable or a schema of this number isn't there.
    BadNumber,
    /// A fact has another number of arguments than its schema has parameters.
    Arity,
    /// A number stands where a variable has to, or a variable where a number has to.
    KindMismatch,
    /// A pattern or a template is none that a rule may have, or `_` stands where it may not.
    BadShape,
    /// A premise at an entry, or a conclusion on an edge that isn't there.
    BadSlot,
    /// The rule declares a metavariable and doesn't use it.
    UnusedMeta,
    /// There are too many, or too few.
    Limit(Many),
}

/// Where it is wrong.
#[derive(Clone, Copy, Debug, PartialEq, Eq)]
pub enum Item {
    /// In the file as a whole.
    File,
    /// In the schema of this number.
    Fact(u32),
    /// In the rule of this number.
    Rule(u32),
}

/// Why schemas and rules are no rule file.
#[derive(Clone, Copy, Debug, PartialEq, Eq)]
pub enum RuleFault {
    /// The first check that fails, and where.
    Wrong { kind: RuleWrong, item: Item },
    NoMemory,
}
